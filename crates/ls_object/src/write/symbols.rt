ghost use Rattle.std.specs.Prelude.{◌≡◌, ◌++◌, OnOk, OnErr};
ghost use Rattle.std.specs.List.{list_all, flat_map};
ghost use Rattle.std.specs.Str.{chars};
ghost use Rattle.ls_object.specs.ObjectText.{symbol_text, name_text, keyword_text, qualified_text, barred_text, is_nil, is_bare, is_bare_char, is_barred_start, escaped};
ghost use Rattle.ls_object.specs.Writing.{AddsFrontOf};

use crate::symbol::Symbol;
use crate::text::Text;
use std::alloc::AllocError;

impl Symbol {
    /// Whether it is the symbol NIL of the package COMMON-LISP.
    pub fn is_nil(&self) -> bool
        ensures { result ≡ is_nil self.now }
    {
        self.package.is_ascii_text("COMMON-LISP") && self.name.is_ascii_text("NIL")
    }

    /// Appends the symbol as it is printed (22.1.3.3): a keyword with `:` before it, and a symbol of another
    /// package than COMMON-LISP with its package and `::`. On an error a front part of that text may stand
    /// in `out`.
    pub fn write_text(&self, out: &mut Text) -> Result<(), AllocError>
        ensures ok { OnOk result (out.new ≡ out.old ++ symbol_text self.now) }
        ensures err { OnErr result (AddsFrontOf (symbol_text self.now) out.old out.new) }
    {
        if self.package.is_ascii_text("COMMON-LISP") {
            return write_name(&self.name, out);
        }
        if self.package.is_ascii_text("KEYWORD") {
            return write_keyword(&self.name, out);
        }
        write_qualified(&self.package, &self.name, out)
    }
}

/// Appends `:` and a name.
fn write_keyword(name: &Text, out: &mut Text) -> Result<(), AllocError>
    ensures ok { OnOk result (out.new ≡ out.old ++ keyword_text name.now) }
    ensures err { OnErr result (AddsFrontOf (keyword_text name.now) out.old out.new) }
{
    out.push_ascii(":")?;
    write_name(name, out)
}

/// Appends a package's name, `::` and a name.
fn write_qualified(package_name: &Text, name: &Text, out: &mut Text) -> Result<(), AllocError>
    ensures ok { OnOk result (out.new ≡ out.old ++ qualified_text package_name.now name.now) }
    ensures err { OnErr result (AddsFrontOf (qualified_text package_name.now name.now) out.old out.new) }
{
    write_name(package_name, out)?;
    out.push_ascii("::")?;
    write_name(name, out)
}

/// Appends a name, between bars where it isn't bare.
fn write_name(name: &Text, out: &mut Text) -> Result<(), AllocError>
    ensures ok { OnOk result (out.new ≡ out.old ++ name_text name.now) }
    ensures err { OnErr result (AddsFrontOf (name_text name.now) out.old out.new) }
{
    if is_bare(name.as_str()) {
        return out.push_str(name.as_str());
    }
    write_barred(name.as_str(), out)
}

/// Appends a name between bars.
fn write_barred(name: &str, out: &mut Text) -> Result<(), AllocError>
    ensures ok { OnOk result (out.new ≡ out.old ++ barred_text (chars name.now)) }
    ensures err { OnErr result (AddsFrontOf (barred_text (chars name.now)) out.old out.new) }
{
    out.push_ascii("|")?;
    write_escaped(name, out)?;
    out.push_ascii("|")
}

/// Appends the characters of a name that stands between bars.
fn write_escaped(name: &str, out: &mut Text) -> Result<(), AllocError>
    ensures ok { OnOk result (out.new ≡ out.old ++ flat_map escaped (chars name.now)) }
    ensures err { OnErr result (AddsFrontOf (flat_map escaped (chars name.now)) out.old out.new) }
{
    for c in name.chars() {
        write_escaped_char(c, out)?;
    }
    Ok(())
}

/// Appends a character that stands between bars.
fn write_escaped_char(c: char, out: &mut Text) -> Result<(), AllocError>
    ensures ok { OnOk result (out.new ≡ out.old ++ escaped c) }
    ensures err { OnErr result (AddsFrontOf (escaped c) out.old out.new) }
{
    if c == '|' || c == '\\' {
        out.push('\\')?;
    }
    out.push(c)
}

/// Whether the name is printed without bars.
fn is_bare(name: &str) -> bool
    ensures { result ≡ is_bare (chars name.now) }
{
    match name.chars().next() {
        None => false,
        Some(first) => !is_barred_start(first) && is_bare_throughout(name),
    }
}

/// Whether each character may stand in a name without bars.
fn is_bare_throughout(name: &str) -> bool
    ensures { result ≡ list_all is_bare_char (chars name.now) }
{
    name.chars().all(|c| is_bare_char(c))
}

/// Whether the character may stand in a name without bars.
fn is_bare_char(c: char) -> bool
    ensures { result ≡ is_bare_char c }
{
    match c {
        'A'..='Z' | '0'..='9' => true,
        '+'
        | '-'
        | '*'
        | '/'
        | '<'
        | '>'
        | '='
        | '!'
        | '?'
        | '$'
        | '%'
        | '&'
        | '_'
        | '~'
        | '^'
        | '.' => true,
        _ => false,
    }
}

/// Whether a name without bars doesn't begin with the character.
fn is_barred_start(c: char) -> bool
    ensures { result ≡ is_barred_start c }
{
    match c {
        '0'..='9' | '+' | '-' | '.' | '/' => true,
        _ => false,
    }
}
