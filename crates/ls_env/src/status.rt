/// What the forms of a file say of a name that is not built in.
#[derive(Clone, Copy, Debug, PartialEq, Eq)]
pub enum NameStatus {
    /// No form defines the name.
    Unknown,
    /// One DEFTYPE defines it, whose template has this number.
    Deftype(usize),
    /// One DEFSTRUCT defines it, which the tree of structure types accepted.
    Structure,
    /// One DEFSTRUCT with the option `:TYPE` defines it: structures of this name are vectors or lists, and it is no type.
    Typed,
    /// One DEFCLASS or DEFINE-CONDITION defines it.
    Class,
    /// Two or more forms define it.
    Twice,
    /// Its DEFTYPE has a body that is no template.
    CodeBody,
    /// Its DEFTYPE has another lambda list than those that are supported, or its DEFSTRUCT is out of form or includes no
    /// structure type that stands before it.
    BadDefinition,
    /// Its DEFTYPE leads back to the name.
    Recursive,
}
