//! Kept results by lists of numbers, and a counter of steps that contracts alone read.
#![tactic(auto)]

mod kept;
mod steps;

pub use kept::Memo;
pub use steps::Steps;
