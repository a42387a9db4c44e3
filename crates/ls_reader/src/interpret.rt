ghost use Rattle.std.specs.List.{prefix_len};
ghost use Rattle.std.specs.Prelude.{◌≡◌, ◌∷◌, ◌≤◌, length, map, IfOk, false};
ghost use Rattle.ls_reader.specs.Characters.{is_constituent};
ghost use Rattle.ls_reader.specs.steps.Lexing as spec;
ghost use Rattle.ls_reader.specs.steps.Lexing.{Gives};
ghost use Rattle.ls_reader.specs.Tokens as tokens;
ghost use Rattle.ls_reader.specs.declared.interpret.Mode.TheVariants as modes;

use crate::character::is_constituent;
use crate::datum::Form;
use crate::fault::{FaultKind, Stop};
use crate::name::{plain_symbol, symbol_token};
use crate::number::{are_bits, float_of, is_rational, is_rational_in, may_be_number, number_of};
use crate::token::Token;
use crate::token_char::TokenChar;
use std::alloc::{AllocError, Global};

/// What a token is read as.
#[derive(Clone, Copy, Debug, PartialEq, Eq)]
pub(crate) enum Role {
    /// A token that stands by itself (2.3).
    Free,
    /// A rational in a base, behind `#b`, `#o` or `#x` (2.4.8.7 to 2.4.8.9).
    Radix(u32),
    /// Bits behind `#*`, or behind `#5*` where it is true (2.4.8.4).
    Bits(bool),
    /// A symbol behind `#:` (2.4.8.5).
    Uninterned,
}

/// Where in a token a character stands.
#[derive(Clone, Copy, Debug, PartialEq, Eq)]
enum Mode {
    Outside,
    /// Behind a backslash.
    Single,
    Bars,
    /// Behind a backslash between bars.
    BarsSingle,
}

/// What a character does within a token.
#[derive(Clone, Copy, Debug, PartialEq, Eq)]
enum Step {
    /// It does not belong to the token.
    End,
    /// It changes how the next one is read.
    Skip(Mode),
    /// It stands for something.
    Keep(Mode, TokenChar),
}

fn outside_step(c: char) -> Step
    ensures { result ≡ spec.outside_step c }
{
    if is_constituent(c) {
        Step::Keep(Mode::Outside, TokenChar::Plain(c))
    } else if c == '\\' {
        Step::Skip(Mode::Single)
    } else if c == '|' {
        Step::Keep(Mode::Bars, TokenChar::Escape)
    } else {
        Step::End
    }
}

fn bars_step(c: char) -> Step
    ensures { result ≡ spec.bars_step c }
{
    match c {
        '|' => Step::Skip(Mode::Outside),
        '\\' => Step::Skip(Mode::BarsSingle),
        _ => Step::Keep(Mode::Bars, TokenChar::Exact(c)),
    }
}

/// What a character does, by where it stands.
fn step_of(mode: Mode, c: char) -> Step
    ensures { result ≡ spec.step_of mode c }
{
    match mode {
        Mode::Outside => outside_step(c),
        Mode::Single => Step::Keep(Mode::Outside, TokenChar::Exact(c)),
        Mode::Bars => bars_step(c),
        Mode::BarsSingle => Step::Keep(Mode::Bars, TokenChar::Exact(c)),
    }
}

/// Whether a token may end here.
fn at_end(mode: Mode) -> Result<(), Stop>
    ensures { Gives (λ x. x) result (spec.may_end mode) }
{
    match mode {
        Mode::Outside => Ok(()),
        Mode::Single | Mode::Bars | Mode::BarsSingle => Err(Stop::Fault(FaultKind::Unclosed, 0)),
    }
}

/// The characters of the token that comes first, and what follows.
#[tactic(auto, unfolding(crate::specs::steps::Lexing::scan), using(crate::proofs::FrontLemmas::steps))]
fn chars_at(alloc: Global, text: &[char]) -> Result<(Vec<TokenChar>, &[char]), Stop>
    ensures { Gives (λ x. (x.0.items, x.1.now)) result (spec.at_front (spec.scan modes.Outside text.now)) }
{
    let mut chars = Vec::new(alloc);
    let mut mode = Mode::Outside;
    let mut rest = text;
    while let [c, others @ ..] = rest {
        match step_of(mode, *c) {
            Step::End => return Ok((chars, rest)),
            Step::Skip(next) => mode = next,
            Step::Keep(next, kept) => {
                chars.push(kept)?;
                mode = next;
            }
        }
        rest = others;
    }
    at_end(mode)?;
    Ok((chars, rest))
}

/// How many constituents come first.
pub(crate) fn constituents_len(text: &[char]) -> usize
    ensures value { result ≡ prefix_len is_constituent text.now }
    ensures within { result ≤ length text.now }
{
    text.iter().take_while(|c| is_constituent(**c)).count()
}

fn are_points(text: &[char]) -> bool
    ensures { result ≡ tokens.are_points text.now }
{
    points_len(text) == text.len()
}

/// How many points come first.
fn points_len(text: &[char]) -> usize
    ensures value { result ≡ prefix_len tokens.is_point_char text.now }
    ensures within { result ≤ length text.now }
{
    text.iter().take_while(|c| **c == '.').count()
}

/// What a token without escapes is (2.3). Most are symbols, which the first character tells.
#[tactic(auto, using(crate::proofs::TokenLemmas::plain_token_symbol))]
#[inline(always)]
fn plain_token(alloc: Global, text: &[char]) -> Result<Token, AllocError>
    ensures { IfOk result (λ t. t ≡ tokens.plain_token text.now) }
{
    if !may_be_number(text) {
        return plain_symbol(alloc, text);
    }
    if is_rational(text) {
        return Ok(number_of(10, text));
    }
    if are_points(text) {
        return Ok(points(text.len()));
    }
    match float_of(text) {
        Some(format) => Ok(Token::Atom(Form::Float(format))),
        None => plain_symbol(alloc, text),
    }
}

/// What this many points are (2.3.3).
fn points(count: usize) -> Token
    ensures { result ≡ tokens.points count }
{
    if count == 1 {
        Token::Dot
    } else {
        Token::Bad(FaultKind::BadToken)
    }
}

fn bits(counted: bool, count: usize) -> Form
    ensures { result ≡ tokens.bits counted count }
{
    if counted {
        Form::Odd
    } else {
        Form::Bits(count as u64)
    }
}

/// What a token is behind `#:`.
fn uninterned(token: Token) -> Token
    ensures { result ≡ tokens.uninterned token }
{
    match token {
        Token::Bad(kind) => Token::Bad(kind),
        _ => Token::Atom(Form::Odd),
    }
}

/// What a token without escapes is, by what it is read as.
#[inline(always)]
fn plain_interpretation(alloc: Global, role: Role, text: &[char]) -> Result<Token, AllocError>
    ensures { IfOk result (λ t. t ≡ tokens.plain_interpretation role text.now) }
{
    match role {
        Role::Free => plain_token(alloc, text),
        Role::Radix(base) if is_rational_in(base, text) => Ok(number_of(base, text)),
        Role::Bits(counted) if are_bits(text) => Ok(Token::Atom(bits(counted, text.len()))),
        Role::Uninterned if !text.is_empty() => Ok(uninterned(plain_token(alloc, text)?)),
        _ => Ok(Token::Bad(FaultKind::BadToken)),
    }
}

/// What a token with escapes is, by what it is read as.
fn escaped_interpretation(
    alloc: Global,
    role: Role,
    chars: &[TokenChar],
) -> Result<Token, AllocError>
    ensures { IfOk result (λ t. t ≡ tokens.escaped_interpretation role chars.now) }
{
    match role {
        Role::Free => symbol_token(alloc, chars),
        Role::Uninterned => Ok(uninterned(symbol_token(alloc, chars)?)),
        Role::Radix(_) | Role::Bits(_) => Ok(Token::Bad(FaultKind::BadToken)),
    }
}

/// Whether an escape comes first.
fn begins_escape(text: &[char]) -> bool
    ensures { result ≡ spec.begins_escape text.now }
{
    match text {
        [first, ..] => *first == '\\' || *first == '|',
        [] => false,
    }
}

/// The token that comes first, and what follows. Nearly all tokens have no escapes.
#[inline(always)]
pub(crate) fn token_at(alloc: Global, role: Role, text: &[char]) -> Result<(Token, &[char]), Stop>
    ensures { Gives (λ x. (x.0, x.1.now)) result (spec.token_at role text.now) }
{
    let (front, rest) = text.split_at(constituents_len(text));
    if begins_escape(rest) {
        let (chars, rest) = chars_at(alloc, text)?;
        return Ok((escaped_interpretation(alloc, role, &chars)?, rest));
    }
    Ok((plain_interpretation(alloc, role, front)?, rest))
}

/// The token directly behind a construct's character, where `#` begins none.
#[tactic(auto, using(crate::proofs::TokenLemmas::nothing_read))]
pub(crate) fn token_behind(
    alloc: Global,
    role: Role,
    text: &[char],
) -> Result<(Token, &[char]), Stop>
    ensures { Gives (λ x. (x.0, x.1.now)) result (spec.token_behind role text.now) }
{
    match text {
        ['#', ..] => Ok((plain_interpretation(alloc, role, &[])?, text)),
        _ => token_at(alloc, role, text),
    }
}
