//! The rows of lists of specifiers. A row has the truth value of each atom at some object, and says what the object is
//! made of; each object has its row. Rows are found by their truth values, which are words of bits, and specifiers are
//! evaluated at all rows of a list at once. A store makes the rows of each list once.
#![tactic(auto)]

mod arrays;
mod cells;
mod classes;
mod column;
mod fill;
mod formula;
mod half;
mod idle;
mod index;
mod make;
mod marks;
mod names;
mod origin;
mod pairs;
mod rows;
mod side;
mod signs;
mod store;
mod transpose;
mod value;
mod words;

pub use cells::Cells;
pub use column::column_of;
pub use formula::{Formula, evaluate, row_outside};
pub use origin::Origin;
pub use rows::{Row, Rows};
pub use signs::Signs;
pub use store::Store;
