ghost use Rattle.std.specs.Prelude.{◌≡◌, ◌∷◌, IfOk};
ghost use Rattle.ls_reader.specs.CharNames as spec;

use crate::datum::Form;
use crate::name::upper_case;
use crate::number::{are_digits, capped_value};
use ls_object::Text;
use std::alloc::{AllocError, Global};

/// The digits of a character's code, which stand behind `U+`.
fn code_digits(text: &[char]) -> &[char]
    ensures { result.now ≡ spec.code_digits text.now }
{
    match text {
        ['U' | 'u', '+', digits @ ..] => digits,
        _ => &[],
    }
}

/// The character of a code, if it has one.
fn scalar(code: u128) -> Option<char>
    ensures { result ≡ spec.scalar code }
{
    if code < 0x11_0000 {
        char::from_u32(code as u32)
    } else {
        None
    }
}

/// The character of one to six hexadecimal digits, if they are the code of one.
#[tactic(auto, using(crate::proofs::NumberLemmas::scalar_capped))]
fn character_of_code(digits: &[char]) -> Option<char>
    ensures { result ≡ spec.character_of_code digits.now }
{
    if !are_digits(16, digits) || digits.len() > 6 {
        return None;
    }
    scalar(capped_value(16, digits))
}

/// The character of a name in upper case, if it has one (13.1.7).
fn character_of_name(name: &Text) -> Option<char>
    ensures { result ≡ spec.character_of_name name.now }
{
    if name.is_ascii_text("SPACE") {
        Some(' ')
    } else if name.is_ascii_text("NEWLINE") || name.is_ascii_text("LINEFEED") {
        Some('\n')
    } else if name.is_ascii_text("TAB") {
        Some('\t')
    } else if name.is_ascii_text("PAGE") {
        Some('\x0c')
    } else if name.is_ascii_text("RUBOUT") {
        Some('\x7f')
    } else if name.is_ascii_text("RETURN") {
        Some('\r')
    } else if name.is_ascii_text("BACKSPACE") {
        Some('\x08')
    } else {
        None
    }
}

/// A character, or what is not kept where there is none.
fn character_form(found: Option<char>) -> Form
    ensures { result ≡ spec.character_form found }
{
    match found {
        Some(c) => Form::Char(c),
        None => Form::Odd,
    }
}

/// The character of a name of at least two characters, in either case, or of a code.
fn named(alloc: Global, text: &[char]) -> Result<Form, AllocError>
    ensures { IfOk result (λ form. form ≡ spec.named text.now) }
{
    let name = upper_case(alloc, text)?;
    match character_of_name(&name) {
        Some(c) => Ok(Form::Char(c)),
        None => Ok(character_form(character_of_code(code_digits(text)))),
    }
}

/// The character that a text behind `#\` writes (2.4.8.1).
pub(crate) fn character(alloc: Global, text: &[char]) -> Result<Form, AllocError>
    ensures { IfOk result (λ form. form ≡ spec.character text.now) }
{
    match text {
        [] => Ok(Form::Odd),
        [only] => Ok(Form::Char(*only)),
        _ => named(alloc, text),
    }
}
