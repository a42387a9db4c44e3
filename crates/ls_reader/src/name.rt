ghost use Rattle.std.specs.List.{prefix_len};
ghost use Rattle.std.specs.Prelude.{◌≡◌, ◌≤◌, length, map, IfOk, codes};
ghost use Rattle.std.specs.Char.{to_ascii_uppercase};
ghost use Rattle.ls_reader.specs.Names as spec;
ghost use Rattle.ls_reader.specs.declared.token_char.TokenChar.TheVariants.{Plain};

use crate::datum::Form;
use crate::fault::FaultKind;
use crate::token::Token;
use crate::token_char::TokenChar;
use ls_object::{Symbol, Text};
use std::alloc::{AllocError, Global};

/// The text in upper case.
#[inline(always)]
pub(crate) fn upper_case(alloc: Global, text: &[char]) -> Result<Text, AllocError>
    ensures { IfOk result (λ t. t ≡ map to_ascii_uppercase text.now) }
{
    let mut name = Text::of_ascii(alloc, "")?;
    for c in text {
        name.push(c.to_ascii_uppercase())?;
    }
    Ok(name)
}

/// The name that characters make.
fn name_of(alloc: Global, chars: &[TokenChar]) -> Result<Text, AllocError>
    ensures { IfOk result (λ t. t ≡ spec.name_of chars.now) }
{
    let mut name = Text::of_ascii(alloc, "")?;
    for item in chars {
        match *item {
            TokenChar::Plain(c) => name.push(c.to_ascii_uppercase())?,
            TokenChar::Exact(c) => name.push(c)?,
            TokenChar::Escape => {}
        }
    }
    Ok(name)
}

/// Whether a character is no package marker.
fn is_no_marker(item: TokenChar) -> bool
    ensures { result ≡ spec.is_no_marker item }
{
    match item {
        TokenChar::Plain(c) => c != ':',
        TokenChar::Exact(_) | TokenChar::Escape => true,
    }
}

/// How many characters stand before the first package marker.
fn marker_at(chars: &[TokenChar]) -> usize
    ensures value { result ≡ spec.marker_at chars.now }
    ensures within { result ≤ length chars.now }
{
    chars.iter().take_while(|item| is_no_marker(**item)).count()
}

/// Whether characters can be a symbol's name behind a package marker.
fn is_name(chars: &[TokenChar]) -> bool
    ensures { result ≡ spec.is_name chars.now }
{
    !chars.is_empty() && marker_at(chars) == chars.len()
}

/// The package that a name of one stands for.
fn package_of(alloc: Global, name: Text) -> Result<Text, AllocError>
    ensures { IfOk result (λ t. t ≡ spec.package_of name) }
{
    if name.is_ascii_text("CL")
        || name.is_ascii_text("CL-USER")
        || name.is_ascii_text("COMMON-LISP-USER")
    {
        Text::of_ascii(alloc, "COMMON-LISP")
    } else {
        Ok(name)
    }
}

/// The symbol of a package with the name that characters make, where they can be one.
fn symbol_in(alloc: Global, home: Text, chars: &[TokenChar]) -> Result<Token, AllocError>
    ensures { IfOk result (λ t. t ≡ spec.symbol_in home chars.now) }
{
    if !is_name(chars) {
        return Ok(Token::Bad(FaultKind::BadToken));
    }
    let name = name_of(alloc, chars)?;
    Ok(Token::Atom(Form::Symbol(Symbol {
        package: home,
        name,
    })))
}

/// The characters without the package marker that comes first, if one does.
fn without_marker(chars: &[TokenChar]) -> &[TokenChar]
    ensures { result.now ≡ spec.without_marker chars.now }
{
    match chars {
        [first, rest @ ..] if !is_no_marker(*first) => rest,
        _ => chars,
    }
}

/// A symbol in a package of this name, behind one package marker or two.
fn qualified(alloc: Global, home: Text, chars: &[TokenChar]) -> Result<Token, AllocError>
    ensures { IfOk result (λ t. t ≡ spec.qualified home chars.now) }
{
    if home.is_ascii_text("") {
        return Ok(Token::Bad(FaultKind::BadToken));
    }
    let home = package_of(alloc, home)?;
    symbol_in(alloc, home, without_marker(chars))
}

/// A symbol with a package marker between these characters.
fn marked(alloc: Global, before: &[TokenChar], after: &[TokenChar]) -> Result<Token, AllocError>
    ensures { IfOk result (λ t. t ≡ spec.marked before.now after.now) }
{
    if before.is_empty() {
        let package = Text::of_ascii(alloc, "KEYWORD")?;
        return symbol_in(alloc, package, after);
    }
    let package = name_of(alloc, before)?;
    qualified(alloc, package, after)
}

/// A symbol of COMMON-LISP.
#[inline(always)]
fn common_lisp(alloc: Global, name: Text) -> Result<Token, AllocError>
    ensures { IfOk result (λ t. t ≡ spec.common_lisp name) }
{
    Ok(Token::Atom(Form::Symbol(Symbol::of_common_lisp(alloc, name)?)))
}

/// The symbol that a token is (2.3.4).
pub(crate) fn symbol_token(alloc: Global, chars: &[TokenChar]) -> Result<Token, AllocError>
    ensures { IfOk result (λ t. t ≡ spec.symbol_token chars.now) }
{
    let (before, rest) = chars.split_at(marker_at(chars));
    match rest {
        [] => common_lisp(alloc, name_of(alloc, before)?),
        [_, after @ ..] => marked(alloc, before, after),
    }
}

/// How many characters stand before the first colon.
fn colon_at(text: &[char]) -> usize
    ensures value { result ≡ prefix_len spec.is_no_colon text.now }
    ensures within { result ≤ length text.now }
{
    text.iter().take_while(|c| **c != ':').count()
}

/// The characters of a text without escapes.
fn plain_chars(alloc: Global, text: &[char]) -> Result<Vec<TokenChar>, AllocError>
    ensures { IfOk result (λ v. v.items ≡ map Plain text.now) }
{
    text.iter().map(|c| TokenChar::Plain(*c)).collect(alloc)
}

/// The symbol that a token without escapes is.
#[tactic(auto, using(crate::proofs::NameLemmas::plain_symbol_is))]
#[inline(always)]
pub(crate) fn plain_symbol(alloc: Global, text: &[char]) -> Result<Token, AllocError>
    ensures { IfOk result (λ t. t ≡ spec.symbol_token (map Plain text.now)) }
{
    if colon_at(text) == text.len() {
        return common_lisp(alloc, upper_case(alloc, text)?);
    }
    let chars = plain_chars(alloc, text)?;
    symbol_token(alloc, &chars)
}
