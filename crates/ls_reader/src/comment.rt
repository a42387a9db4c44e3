ghost use Rattle.std.specs.List.{prefix_len};
ghost use Rattle.std.specs.Prelude.{◌≡◌, ◌+◌, ◌≤◌, ◌<◌, ◌^◌, length, [], None};
ghost use Rattle.ls_reader.specs.Characters.{is_not_newline};
ghost use Rattle.ls_reader.specs.steps.Delimited.{comment, is_pair, passed};
ghost use Rattle.ls_reader.specs.steps.Lexing.{Gives};

use crate::fault::{FaultKind, Stop};
use crate::stack::Stack;
use std::alloc::Global;

/// How many characters are left of a line (2.4.4).
pub(crate) fn line_len(text: &[char]) -> usize
    ensures value { result ≡ prefix_len is_not_newline text.now }
    ensures within { result ≤ length text.now }
{
    text.iter().take_while(|c| **c != '\n').count()
}

/// Whether a character is the second of a pair.
fn is_pair(first: char, second: char, last: Option<char>, c: char) -> bool
    ensures { result ≡ is_pair first second last c }
{
    match last {
        Some(p) => p == first && c == second,
        None => false,
    }
}

/// Where the next part of a comment begins, behind a character.
fn passed(at: usize, last: Option<char>) -> usize
    requires { at < 2 ^ 63 }
    ensures { result ≡ passed at last }
{
    match last {
        Some(_) => at + 1,
        None => at,
    }
}

/// What follows the comment that is begun before the text (2.4.8.19).
#[tactic(auto, unfolding(crate::specs::steps::Delimited::comment), using(crate::proofs::CommentLemmas::passed_is))]
pub(crate) fn after_comment(alloc: Global, text: &[char]) -> Result<&[char], Stop>
    ensures { Gives (λ x. x.now) result (comment 0 [] 2 None text.now) }
{
    let mut innermost: usize = 0;
    let mut around = Stack::new(alloc);
    let mut at: usize = 2;
    let mut last = None;
    let mut rest = text;
    'chars: while let [c, others @ ..] = rest {
        rest = others;
        if is_pair('|', '#', last, *c) {
            match around.pop() {
                None => return Ok(rest),
                Some(start) => innermost = start,
            }
            at += 2;
            last = None;
        } else if is_pair('#', '|', last, *c) {
            around.push(innermost)?;
            innermost = at;
            at += 2;
            last = None;
        } else {
            at = passed(at, last);
            last = Some(*c);
        }
    }
    Err(Stop::Fault(FaultKind::Unclosed, innermost))
}
