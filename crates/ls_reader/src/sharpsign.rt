ghost use Rattle.std.specs.List.{prefix_len};
ghost use Rattle.std.specs.Prelude.{◌≡◌, ◌∷◌, ◌≤◌, length};
ghost use Rattle.ls_reader.specs.Characters as characters;
ghost use Rattle.ls_reader.specs.steps.Lexing as spec;
ghost use Rattle.ls_reader.specs.steps.Lexing.{Gives};
ghost use Rattle.ls_reader.specs.Macros as macros;

use crate::charname::character;
use crate::comment::after_comment;
use crate::fault::{FaultKind, Stop};
use crate::interpret::{Role, constituents_len, token_behind};
use crate::token::{Bracket, Mark, Token};
use std::alloc::Global;

/// What stands behind a `#` (2.4.8).
#[derive(Drop)]
pub(crate) enum Construct {
    /// A comment up to its `|#` (2.4.8.19).
    Comment,
    /// A character (2.4.8.1).
    Character,
    /// A token directly behind.
    Behind(Role),
    /// Nothing directly behind.
    Alone(Token),
}

fn is_digit(c: char) -> bool
    ensures { result ≡ characters.is_digit c }
{
    c.is_ascii_digit()
}

/// How many decimal digits come first.
fn count_len(text: &[char]) -> usize
    ensures value { result ≡ prefix_len characters.is_digit text.now }
    ensures within { result ≤ length text.now }
{
    text.iter().take_while(|c| is_digit(**c)).count()
}

/// What is read with a datum and not kept.
fn is_not_kept(c: char) -> bool
    ensures { result ≡ macros.is_not_kept c }
{
    matches!(
        c,
        '.' | 'c' | 'C' | 'p' | 'P' | 's' | 'S' | 'a' | 'A' | 'r' | 'R'
    )
}

/// The construct of a character behind a `#` and digits.
fn numbered_construct(c: char) -> Construct
    ensures { result ≡ macros.numbered_construct c }
{
    match c {
        '(' => Construct::Alone(Token::Open(Bracket::Odd)),
        '*' => Construct::Behind(Role::Bits(true)),
        _ if is_not_kept(c) => Construct::Alone(Token::Mark(Mark::Odd)),
        '=' | '#' => Construct::Alone(Token::Bad(FaultKind::Label)),
        _ => Construct::Alone(Token::Bad(FaultKind::BadToken)),
    }
}

/// The construct of a character behind a `#` alone.
fn plain_construct(c: char) -> Construct
    ensures { result ≡ macros.plain_construct c }
{
    match c {
        '(' => Construct::Alone(Token::Open(Bracket::Vector)),
        '*' => Construct::Behind(Role::Bits(false)),
        _ if is_not_kept(c) => Construct::Alone(Token::Mark(Mark::Odd)),
        '|' => Construct::Comment,
        '\\' => Construct::Character,
        '\'' => Construct::Alone(Token::Mark(Mark::FunctionOf)),
        '+' => Construct::Alone(Token::Feature(true)),
        '-' => Construct::Alone(Token::Feature(false)),
        ':' => Construct::Behind(Role::Uninterned),
        'b' | 'B' => Construct::Behind(Role::Radix(2)),
        'o' | 'O' => Construct::Behind(Role::Radix(8)),
        'x' | 'X' => Construct::Behind(Role::Radix(16)),
        _ => Construct::Alone(Token::Bad(FaultKind::BadToken)),
    }
}

/// The construct of a character behind a `#`, by whether digits stand between them.
#[tactic(auto, unfolding(crate::specs::Macros::construct_of))]
fn construct_of(counted: bool, c: char) -> Construct
    ensures { result ≡ macros.construct_of counted c }
{
    if counted {
        numbered_construct(c)
    } else {
        plain_construct(c)
    }
}

/// The character behind `#\`, with the constituents that follow it.
fn character_at(alloc: Global, text: &[char]) -> Result<(Token, &[char]), Stop>
    ensures { Gives (λ x. (x.0, x.1.now)) result (spec.character_at text.now) }
{
    match text {
        [] => Err(Stop::Fault(FaultKind::Unclosed, 0)),
        [_, rest @ ..] => {
            let (front, rest) = text.split_at(1 + constituents_len(rest));
            Ok((Token::Atom(character(alloc, front)?), rest))
        }
    }
}

/// What a construct is, with the text behind its character.
fn construct_at(
    alloc: Global,
    construct: Construct,
    text: &[char],
) -> Result<(Token, &[char]), Stop>
    ensures { Gives (λ x. (x.0, x.1.now)) result (spec.construct_at construct text.now) }
{
    match construct {
        Construct::Comment => {
            let rest = after_comment(alloc, text)?;
            Ok((Token::Gap, rest))
        }
        Construct::Character => character_at(alloc, text),
        Construct::Behind(role) => token_behind(alloc, role, text),
        Construct::Alone(token) => Ok((token, text)),
    }
}

/// What a `#` before the text begins, and what follows.
pub(crate) fn sharpsign(alloc: Global, text: &[char]) -> Result<(Token, &[char]), Stop>
    ensures { Gives (λ x. (x.0, x.1.now)) result (spec.sharpsign text.now) }
{
    let n = count_len(text);
    let (_, rest) = text.split_at(n);
    match rest {
        [] => Ok((Token::Bad(FaultKind::BadToken), rest)),
        [c, rest @ ..] => construct_at(alloc, construct_of(0 < n, *c), rest),
    }
}
