ghost use Rattle.std.specs.Prelude.{◌≡◌};
ghost use Rattle.ls_reader.specs.Characters as spec;

/// The syntax types of characters, as far as the reader tells them apart (2.1.4).
#[derive(Clone, Copy, Debug, PartialEq, Eq)]
pub(crate) enum Syntax {
    /// What separates tokens (2.1.4.7).
    Whitespace,
    /// What stands for itself in a token (2.1.4.1).
    Constituent,
    /// A macro character that ends the token before it (2.1.4.4).
    Terminating,
    /// `#`, which stands for itself in a token where it is not the first (2.1.4.4).
    Sharp,
    /// `\` (2.1.4.6).
    SingleEscape,
    /// `|` (2.1.4.5).
    MultipleEscape,
    /// A control character that is no whitespace (2.1.4.3).
    Invalid,
}

/// Whether a character is whitespace.
pub(crate) fn is_blank(c: char) -> bool
    ensures { result ≡ spec.is_blank c }
{
    matches!(c, '\t' | '\n' | '\x0c' | '\r' | ' ' | '\x7f')
}

fn is_terminating(c: char) -> bool
    ensures { result ≡ spec.is_terminating c }
{
    matches!(c, '"' | '\'' | '(' | ')' | ',' | ';' | '`')
}

/// The syntax type of a character.
#[tactic(auto, unfolding(crate::specs::Characters::syntax_of))]
pub(crate) fn syntax_of(c: char) -> Syntax
    ensures { result ≡ spec.syntax_of c }
{
    if is_blank(c) {
        Syntax::Whitespace
    } else if c < ' ' {
        Syntax::Invalid
    } else if is_terminating(c) {
        Syntax::Terminating
    } else if c == '#' {
        Syntax::Sharp
    } else if c == '\\' {
        Syntax::SingleEscape
    } else if c == '|' {
        Syntax::MultipleEscape
    } else {
        Syntax::Constituent
    }
}

/// Whether a character stands for itself in a token.
pub(crate) fn is_constituent(c: char) -> bool
    ensures { result ≡ spec.is_constituent c }
{
    matches!(syntax_of(c), Syntax::Constituent | Syntax::Sharp)
}
