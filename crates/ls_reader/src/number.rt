ghost use Rattle.std.specs.Prelude.{◌≡◌, ◌+◌, ◌^◌, ◌≤◌, length, min, suc};
ghost use Rattle.std.proofs.Math.Nat.{zero-lt-suc};
ghost use Rattle.ls_reader.specs.Characters as characters;
ghost use Rattle.ls_reader.specs.Fractions.{signed, literal_of};
ghost use Rattle.ls_reader.specs.Numbers as spec;
ghost use Rattle.ls_reader.specs.steps.Lexing.{may_be_number};
ghost use Rattle.ls_reader.specs.Tokens.{are_bits};

use crate::datum::{FloatFormat, Form, Literal};
use crate::fault::FaultKind;
use crate::small::{MAX_DENOMINATOR, MAX_NUMERATOR, SmallRat};
use crate::token::Token;
use ls_object::Rat;

fn is_sign(c: char) -> bool
    ensures { result ≡ characters.is_sign c }
{
    c == '+' || c == '-'
}

/// The weight of a digit in a base of at most 16; 16 for a character that is no digit.
fn weight(c: char) -> u32
    ensures value { result ≡ spec.weight c }
    ensures small { result ≤ 16 }
{
    match c {
        '0'..='9' => c as u32 - 48,
        'A'..='F' => c as u32 - 55,
        'a'..='f' => c as u32 - 87,
        _ => 16,
    }
}

fn is_digit_in(base: u32, c: char) -> bool
    ensures { result ≡ spec.is_digit_in base c }
{
    weight(c) < base
}

/// How many digits come first.
fn digits_len(base: u32, text: &[char]) -> usize
    ensures value { result ≡ spec.digits_len base text.now }
    ensures within { result ≤ length text.now }
{
    text.iter().take_while(|c| is_digit_in(base, **c)).count()
}

fn have_digits(base: u32, text: &[char]) -> bool
    ensures { result ≡ spec.have_digits base text.now }
{
    0 < digits_len(base, text)
}

/// What follows the digits that come first.
fn behind_digits(base: u32, text: &[char]) -> &[char]
    ensures { result.now ≡ spec.behind_digits base text.now }
{
    let (_, rest) = text.split_at(digits_len(base, text));
    rest
}

/// Whether a text is digits alone, and not empty.
pub(crate) fn are_digits(base: u32, text: &[char]) -> bool
    ensures { result ≡ spec.are_digits base text.now }
{
    have_digits(base, text) && digits_len(base, text) == text.len()
}

/// Whether a text is the digits 0 and 1 alone, or empty (2.4.8.4).
pub(crate) fn are_bits(text: &[char]) -> bool
    ensures { result ≡ are_bits text.now }
{
    digits_len(2, text) == text.len()
}

/// The token without its sign.
fn unsigned(text: &[char]) -> &[char]
    ensures { result.now ≡ spec.unsigned text.now }
{
    match text {
        [first, rest @ ..] if is_sign(*first) => rest,
        _ => text,
    }
}

fn is_negative(text: &[char]) -> bool
    ensures { result ≡ spec.is_negative text.now }
{
    match text {
        [first, ..] => *first == '-',
        [] => false,
    }
}

/// Whether a text is a slash and digits.
fn is_denominator(base: u32, text: &[char]) -> bool
    ensures { result ≡ spec.is_denominator base text.now }
{
    match text {
        [first, rest @ ..] => *first == '/' && are_digits(base, rest),
        [] => false,
    }
}

fn ends_rational(base: u32, text: &[char]) -> bool
    ensures { result ≡ spec.ends_rational base text.now }
{
    text.is_empty() || is_denominator(base, text)
}

/// Whether a token is an integer or a ratio in a base (2.4.8.7 to 2.4.8.9).
pub(crate) fn is_rational_in(base: u32, text: &[char]) -> bool
    ensures { result ≡ spec.is_rational_in base text.now }
{
    let digits = unsigned(text);
    have_digits(base, digits) && ends_rational(base, behind_digits(base, digits))
}

/// Whether a token begins as a number, a dot or dots do; an empty one counts as such too.
pub(crate) fn may_be_number(text: &[char]) -> bool
    ensures { result ≡ may_be_number text.now }
{
    match text {
        [first, ..] => is_digit_in(10, *first) || is_sign(*first) || *first == '.',
        [] => true,
    }
}

fn is_point(text: &[char]) -> bool
    ensures { result ≡ spec.is_point text.now }
{
    match text {
        [only] => *only == '.',
        _ => false,
    }
}

/// Whether a token is an integer or a ratio (2.3.2.1).
pub(crate) fn is_rational(text: &[char]) -> bool
    ensures { result ≡ spec.is_rational text.now }
{
    let digits = unsigned(text);
    if !have_digits(10, digits) {
        return false;
    }
    let rest = behind_digits(10, digits);
    is_point(rest) || ends_rational(10, rest)
}

/// The value of digits, or the least number that is not kept, where that is less.
pub(crate) fn capped_value(base: u32, digits: &[char]) -> u128
    ensures { result ≡ min (spec.value base digits.now) (2 ^ 64 + 1) }
{
    let mut value: u128 = 0;
    for c in digits {
        value = (value * u128::from(base) + u128::from(weight(*c))).min(MAX_NUMERATOR + 1);
    }
    value
}

/// The value of what stands behind a slash, capped; 1 where there is none.
fn capped_denominator(base: u32, text: &[char]) -> u128
    ensures { result ≡ min (spec.denominator base text.now) (2 ^ 64 + 1) }
{
    match text {
        [first, rest @ ..] if *first == '/' => capped_value(base, rest),
        _ => 1,
    }
}

/// The number of this absolute value.
fn signed(negative: bool, size: u128) -> i128
    requires { size ≤ 2 ^ 64 }
    ensures { result ≡ signed negative size }
{
    if negative {
        -(size as i128)
    } else {
        size as i128
    }
}

/// The literal of a fraction, of which the denominator is one more than a number.
fn literal(negative: bool, size: u128, below: u128) -> Literal
    requires size { size ≤ 2 ^ 64 + 1 }
    requires below { below ≤ 2 ^ 64 }
    ensures { result ≡ literal_of negative size (suc below) (zero-lt-suc below) }
{
    let den = below + 1;
    if size > MAX_NUMERATOR || den > MAX_DENOMINATOR {
        return Literal::Wide;
    }
    match Rat::new(signed(negative, size), den) {
        Some(value) => Literal::Value(SmallRat { value }),
        None => Literal::Wide,
    }
}

/// The token of a number.
fn number(literal: Literal) -> Token
    ensures { result ≡ spec.number literal }
{
    Token::Atom(Form::Number(literal))
}

/// The token of a fraction; a denominator of 0 is a fault.
fn fraction(negative: bool, size: u128, den: u128) -> Token
    requires size { size ≤ 2 ^ 64 + 1 }
    requires den { den ≤ 2 ^ 64 + 1 }
    ensures { result ≡ spec.fraction negative size den }
{
    if den == 0 {
        return Token::Bad(FaultKind::ZeroDenominator);
    }
    number(literal(negative, size, den - 1))
}

/// The number that an integer or a ratio writes, in a base.
pub(crate) fn number_of(base: u32, text: &[char]) -> Token
    ensures { result ≡ spec.number_of base text.now }
{
    let digits = unsigned(text);
    let (whole, rest) = digits.split_at(digits_len(base, digits));
    fraction(
        is_negative(text),
        capped_value(base, whole),
        capped_denominator(base, rest),
    )
}

/// The format that the marker of an exponent asks for.
fn marker_format(c: char) -> Option<FloatFormat>
    ensures { result ≡ spec.marker_format c }
{
    match c {
        'e' | 's' | 'f' | 'E' | 'S' | 'F' => Some(FloatFormat::Single),
        'd' | 'l' | 'D' | 'L' => Some(FloatFormat::Double),
        _ => None,
    }
}

/// The format that an exponent asks for, where the text is one.
fn exponent_format(text: &[char]) -> Option<FloatFormat>
    ensures { result ≡ spec.exponent_format text.now }
{
    match text {
        [marker, rest @ ..] if are_digits(10, unsigned(rest)) => marker_format(*marker),
        _ => None,
    }
}

fn optional_exponent(text: &[char]) -> Option<FloatFormat>
    ensures { result ≡ spec.optional_exponent text.now }
{
    if text.is_empty() {
        return Some(FloatFormat::Single);
    }
    exponent_format(text)
}

/// The format of a point, at least one digit, and an optional exponent.
fn fraction_format(text: &[char]) -> Option<FloatFormat>
    ensures { result ≡ spec.fraction_format text.now }
{
    match text {
        [first, rest @ ..] if *first == '.' && have_digits(10, rest) => {
            optional_exponent(behind_digits(10, rest))
        }
        _ => None,
    }
}

/// The format of perhaps a point with digits or none after it, and an exponent.
fn scale_format(text: &[char]) -> Option<FloatFormat>
    ensures { result ≡ spec.scale_format text.now }
{
    match text {
        [first, rest @ ..] if *first == '.' => exponent_format(behind_digits(10, rest)),
        _ => exponent_format(text),
    }
}

/// The format of a float, where a token is one (2.3.2.2).
pub(crate) fn float_of(text: &[char]) -> Option<FloatFormat>
    ensures { result ≡ spec.float_of text.now }
{
    let digits = unsigned(text);
    let rest = behind_digits(10, digits);
    if let Some(format) = fraction_format(rest) {
        return Some(format);
    }
    if have_digits(10, digits) {
        scale_format(rest)
    } else {
        None
    }
}
