/// What a part of a token stands for (2.2).
#[derive(Clone, Copy, Debug, PartialEq, Eq)]
pub(crate) enum TokenChar {
    /// A character outside escapes.
    Plain(char),
    /// A character that an escape takes as it is.
    Exact(char),
    /// That an escape stands here, also one that takes no character.
    Escape,
}
