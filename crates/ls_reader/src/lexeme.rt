ghost use Rattle.std.specs.List.{prefix_len};
ghost use Rattle.std.specs.Prelude.{◌≡◌, ◌≤◌, ◌∷◌, length};
ghost use Rattle.ls_reader.specs.Characters as characters;
ghost use Rattle.ls_reader.specs.steps.Lexing as spec;
ghost use Rattle.ls_reader.specs.steps.Lexing.{Gives};
ghost use Rattle.ls_reader.specs.Macros as macros;

use crate::character::{Syntax, is_blank, syntax_of};
use crate::comment::line_len;
use crate::datum::Form;
use crate::fault::{FaultKind, Stop};
use crate::interpret::{Role, token_at};
use crate::sharpsign::sharpsign;
use crate::string::string_at;
use crate::token::{Bracket, Mark, Token};
use std::alloc::Global;

/// How many characters of whitespace come first.
fn blanks_len(text: &[char]) -> usize
    ensures value { result ≡ prefix_len characters.is_blank text.now }
    ensures within { result ≤ length text.now }
{
    text.iter().take_while(|c| is_blank(**c)).count()
}

/// What stands behind a comma in a mark of two characters.
fn is_splice(c: char) -> bool
    ensures { result ≡ macros.is_splice c }
{
    c == '@' || c == '.'
}

/// The mark that a comma before the text begins, and what follows (2.4.7).
fn comma(text: &[char]) -> (Token, &[char])
    ensures { (result.0, result.1.now) ≡ spec.comma text.now }
{
    match text {
        [first, rest @ ..] if is_splice(*first) => (Token::Mark(Mark::Splice), rest),
        _ => (Token::Mark(Mark::Comma), text),
    }
}

/// The token that a bracket, a quote or a backquote is.
fn macro_token(c: char) -> Option<Token>
    ensures { result ≡ macros.macro_token c }
{
    match c {
        '(' => Some(Token::Open(Bracket::Round)),
        ')' => Some(Token::Close),
        '\'' => Some(Token::Mark(Mark::Quote)),
        '`' => Some(Token::Mark(Mark::Back)),
        _ => None,
    }
}

/// What a comma, a semicolon or a double quote begins, and what follows.
fn other_macro(alloc: Global, c: char, text: &[char]) -> Result<(Token, &[char]), Stop>
    ensures { Gives (λ x. (x.0, x.1.now)) result (spec.other_macro c text.now) }
{
    if c == ',' {
        return Ok(comma(text));
    }
    if c == ';' {
        let (_, rest) = text.split_at(line_len(text));
        return Ok((Token::Gap, rest));
    }
    let (content, rest) = string_at(alloc, text)?;
    Ok((Token::Atom(Form::Str(content)), rest))
}

/// What a macro character begins that ends the token before it, and what follows (2.4).
fn macro_at(alloc: Global, c: char, text: &[char]) -> Result<(Token, &[char]), Stop>
    ensures { Gives (λ x. (x.0, x.1.now)) result (spec.macro_at (macros.macro_token c) c text.now) }
{
    match macro_token(c) {
        Some(token) => Ok((token, text)),
        None => other_macro(alloc, c, text),
    }
}

/// The lexeme that begins with a character, and what follows.
fn lexeme_by<'a>(
    alloc: Global,
    first: char,
    text: &'a [char],
    rest: &'a [char],
) -> Result<(Token, &'a [char]), Stop>
    requires { text.now ≡ first ∷ rest.now }
    ensures { Gives (λ x. (x.0, x.1.now)) result (spec.lexeme_by (characters.syntax_of first) first rest.now) }
{
    match syntax_of(first) {
        Syntax::Whitespace => {
            let (_, rest) = rest.split_at(blanks_len(rest));
            Ok((Token::Gap, rest))
        }
        Syntax::Invalid => Err(Stop::Fault(FaultKind::BadToken, 0)),
        Syntax::Terminating => macro_at(alloc, first, rest),
        Syntax::Sharp => sharpsign(alloc, rest),
        Syntax::Constituent | Syntax::SingleEscape | Syntax::MultipleEscape => {
            token_at(alloc, Role::Free, text)
        }
    }
}

/// The lexeme at the front of a text, and what follows (2.2). A fault comes with the count of characters before
/// its place.
#[tactic(auto, unfolding(crate::specs::steps::Lexing::lexeme))]
pub(crate) fn lexeme(alloc: Global, text: &[char]) -> Result<(Token, &[char]), Stop>
    ensures { Gives (λ x. (x.0, x.1.now)) result (spec.lexeme text.now) }
{
    match text {
        [] => Err(Stop::Fault(FaultKind::Unclosed, 0)),
        [first, rest @ ..] => lexeme_by(alloc, *first, text, rest),
    }
}
