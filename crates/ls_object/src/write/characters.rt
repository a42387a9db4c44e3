ghost use Rattle.std.specs.Prelude.{ℕ, ◌≡◌, ◌<◌, ◌++◌, OnOk, OnErr, codes};
ghost use Rattle.ls_object.specs.ObjectText.{character_text, character_name, hexadecimal, hexadecimal_digit, code_digits};
ghost use Rattle.ls_object.specs.Writing.{AddsFrontOf};

use crate::text::Text;
use std::alloc::AllocError;

/// Appends a character as it is printed (22.1.3.2): `#\` and its name, itself, or its code. On an error a
/// front part of that text may stand in `out`.
pub fn write_character(c: char, out: &mut Text) -> Result<(), AllocError>
    ensures ok { OnOk result (out.new ≡ out.old ++ character_text c) }
    ensures err { OnErr result (AddsFrontOf (character_text c) out.old out.new) }
{
    out.push_ascii("#\\")?;
    write_character_name(c, out)
}

/// Appends the name of a character (13.1.7), the character itself where it has a glyph, or else its code.
fn write_character_name(c: char, out: &mut Text) -> Result<(), AllocError>
    ensures ok { OnOk result (out.new ≡ out.old ++ character_name c) }
    ensures err { OnErr result (AddsFrontOf (character_name c) out.old out.new) }
{
    match c {
        '\u{8}' => out.push_ascii("Backspace"),
        '\t' => out.push_ascii("Tab"),
        '\n' => out.push_ascii("Newline"),
        '\u{c}' => out.push_ascii("Page"),
        '\r' => out.push_ascii("Return"),
        ' ' => out.push_ascii("Space"),
        '\u{7f}' => out.push_ascii("Rubout"),
        '!'..='~' => out.push(c),
        _ => write_code(c, out),
    }
}

/// Appends `U+` and the code of a character in hexadecimal.
fn write_code(c: char, out: &mut Text) -> Result<(), AllocError>
    ensures ok { OnOk result (out.new ≡ out.old ++ (codes "U+" ++ hexadecimal (code_digits c) c)) }
    ensures err { OnErr result (AddsFrontOf (codes "U+" ++ hexadecimal (code_digits c) c) out.old out.new) }
{
    out.push_ascii("U+")?;
    let code = u32::from(c);
    write_hexadecimal(code_digits(code), code, out)
}

/// The number of hexadecimal digits of a character's code, at least four.
fn code_digits(code: u32) -> u32
    ensures { result ≡ code_digits code }
{
    if code < 1 << 16 {
        4
    } else if code < 1 << 20 {
        5
    } else {
        6
    }
}

/// Appends the last hexadecimal digits of `n`, as many as `count` says.
fn write_hexadecimal(count: u32, n: u32, out: &mut Text) -> Result<(), AllocError>
    ensures ok { OnOk result (out.new ≡ out.old ++ hexadecimal count n) }
    ensures err { OnErr result (AddsFrontOf (hexadecimal count n) out.old out.new) }
{
    if count == 0 {
        return Ok(());
    }
    write_hexadecimal(count - 1, n / 16, out)?;
    out.push(hexadecimal_digit(n % 16))
}

/// A digit below 16, with capital letters.
fn hexadecimal_digit(n: u32) -> char
    requires { n < 16 }
    ensures { result ≡ hexadecimal_digit n }
{
    if n < 10 {
        char::from(b'0' + n as u8)
    } else {
        char::from(b'A' + (n - 10) as u8)
    }
}
