ghost use Rattle.std.specs.Prelude.{◌≡◌, false};
ghost use Rattle.ls_reader.specs.steps.Delimited.{content};
ghost use Rattle.ls_reader.specs.steps.Lexing.{Gives, at_front};

use crate::fault::{FaultKind, Stop};
use ls_object::Text;
use std::alloc::Global;

/// A string's content up to its closing quote, and what follows (2.4.5).
#[tactic(auto, unfolding(crate::specs::steps::Delimited::content), using(crate::proofs::FrontLemmas::steps))]
pub(crate) fn string_at(alloc: Global, text: &[char]) -> Result<(Text, &[char]), Stop>
    ensures { Gives (λ x. (x.0, x.1.now)) result (at_front (content false text.now)) }
{
    let mut content = Text::of_ascii(alloc, "")?;
    let mut after_escape = false;
    let mut rest = text;
    while let [c, others @ ..] = rest {
        rest = others;
        if !after_escape && *c == '"' {
            return Ok((content, rest));
        }
        if !after_escape && *c == '\\' {
            after_escape = true;
            continue;
        }
        content.push(*c)?;
        after_escape = false;
    }
    Err(Stop::Fault(FaultKind::Unclosed, 0))
}
