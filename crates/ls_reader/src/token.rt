use crate::datum::Form;
use crate::fault::FaultKind;

/// The kinds of opening brackets.
#[derive(Clone, Copy, Debug, PartialEq, Eq)]
pub(crate) enum Bracket {
    /// `(`, which begins a list (2.4.1).
    Round,
    /// `#(`, which begins a vector (2.4.8.3).
    Vector,
    /// `#3(`, whose vector is read and not kept (2.4.8.3).
    Odd,
}

/// The marks that stand before a datum and make one datum with it.
#[derive(Clone, Copy, Debug, PartialEq, Eq)]
pub(crate) enum Mark {
    /// `'` (2.4.3).
    Quote,
    /// The backquote (2.4.6).
    Back,
    /// `,` within a backquoted datum (2.4.7).
    Comma,
    /// `,@` or `,.` within a backquoted datum (2.4.7).
    Splice,
    /// `#'` (2.4.8.2).
    FunctionOf,
    /// `#.`, `#c`, `#p`, `#s`, `#a` or `#r`, whose datum is read and not kept (2.4.8).
    Odd,
}

/// What a lexeme is.
#[derive(Drop)]
pub(crate) enum Token {
    /// A blank or a comment, which stands for nothing.
    Gap,
    /// A bracket that begins a list or a vector.
    Open(Bracket),
    /// The bracket that ends a list or a vector (2.4.2).
    Close,
    /// The dot before the last datum of a dotted list (2.4.1).
    Dot,
    /// A mark that stands before a datum.
    Mark(Mark),
    /// `#+`, or `#-` where it is false: a feature expression and a datum follow (2.4.8.17, 2.4.8.18).
    Feature(bool),
    /// A datum that is one lexeme.
    Atom(Form),
    /// What is a fault wherever it stands.
    Bad(FaultKind),
}
