// The text that is generated.

ghost use Rattle.std.specs.Prelude.{◌≡◌, ◌≤◌, ◌<◌, ◌++◌, decimal, IfOk, OnOk};
ghost use Rattle.ls_gen.specs.Generated.{partner, definition_line, list_line, partner_line, lines_of, generated_text};

use itoa::Buffer;
use std::alloc::{AllocError, Global};

/// The number whose type that of number i is compared with.
fn partner(count: u64, i: u64) -> u64
    requires few { count ≤ 4096 }
    requires below { i < count }
    ensures value { result ≡ partner count i }
    ensures below { result < count }
{
    (7 * i + 3) % count
}

/// Appends a number in decimal.
fn push_number(out: &mut Vec<u8>, number: u64) -> Result<(), AllocError>
    ensures { OnOk result (out.new.items ≡ out.old.items ++ decimal number) }
{
    let mut buffer = Buffer::new();
    out.extend_from_slice(buffer.format(number).as_bytes())
}

/// Appends the definition of the type of a number.
fn push_definition(out: &mut Vec<u8>, i: u64) -> Result<(), AllocError>
    ensures { OnOk result (out.new.items ≡ out.old.items ++ definition_line i) }
{
    out.extend_from_slice(b"(deftype g")?;
    push_number(out, i)?;
    out.extend_from_slice(b" () '(cons (integer 0 ")?;
    push_number(out, i)?;
    out.extend_from_slice(b") (or null (cons (eql ")?;
    push_number(out, i)?;
    out.extend_from_slice(b") t))))\n")?;
    Ok(())
}

/// Appends the question whether the type of a number is one of lists.
fn push_list_query(out: &mut Vec<u8>, i: u64) -> Result<(), AllocError>
    ensures { OnOk result (out.new.items ≡ out.old.items ++ list_line i) }
{
    out.extend_from_slice(b"(subtypep 'g")?;
    push_number(out, i)?;
    out.extend_from_slice(b" '(cons integer list))\n")?;
    Ok(())
}

/// Appends the question whether the type of a number is a subtype of its partner's.
fn push_partner_query(out: &mut Vec<u8>, count: u64, i: u64) -> Result<(), AllocError>
    requires few { count ≤ 4096 }
    requires below { i < count }
    ensures { OnOk result (out.new.items ≡ out.old.items ++ partner_line count i) }
{
    out.extend_from_slice(b"(subtypep 'g")?;
    push_number(out, i)?;
    out.extend_from_slice(b" 'g")?;
    push_number(out, partner(count, i))?;
    out.extend_from_slice(b")\n")?;
    Ok(())
}

/// Appends the lines of a number.
fn push_lines(out: &mut Vec<u8>, count: u64, i: u64) -> Result<(), AllocError>
    requires few { count ≤ 4096 }
    requires below { i < count }
    ensures { OnOk result (out.new.items ≡ out.old.items ++ lines_of count i) }
{
    push_definition(out, i)?;
    push_list_query(out, i)?;
    push_partner_query(out, count, i)
}

/// The generated text of so many numbers, at most 4096.
pub fn text_of(alloc: Global, count: u64) -> Result<Vec<u8>, AllocError>
    requires { count ≤ 4096 }
    ensures { IfOk result (λ text. text.items ≡ generated_text count) }
{
    let mut text = Vec::new(alloc);
    for i in 0..count {
        push_lines(&mut text, count, i)?;
    }
    Ok(text)
}
