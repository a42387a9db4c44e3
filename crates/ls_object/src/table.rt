ghost use Rattle.std.specs.Prelude.{◌<◌};
ghost use Rattle.ls_object.specs.declared.table.TheConstants.{TABLE_LEN};

use crate::kind::Kind;

/// The length of the upgrading table.
pub const TABLE_LEN: usize = 19;

/// An entry of the upgrading table: an element type for which arrays have a representation of their own.
#[derive(Clone, Copy, Debug, PartialEq, Eq)]
pub enum Entry {
    /// NIL, the type without objects.
    Nil,
    /// BIT, the integers 0 and 1.
    Bit,
    /// `(UNSIGNED-BYTE n)`, the integers from 0 to 2^n - 1.
    UnsignedByte(u32),
    /// `(SIGNED-BYTE n)`, the integers from -2^(n-1) to 2^(n-1) - 1.
    SignedByte(u32),
    /// BASE-CHAR, the characters with a code below 128.
    BaseChar,
    /// CHARACTER.
    Character,
    /// The opaque objects of one kind.
    OfKind(Kind),
    /// T, all objects.
    T,
}

/// The upgrading table. The upgraded element type of a type is the first entry that holds all its objects
/// (15.1.2.1). An entry stands before every entry that properly holds it.
pub const UPGRADING_TABLE: [Entry; TABLE_LEN] = [
    Entry::Nil,
    Entry::Bit,
    Entry::UnsignedByte(7),
    Entry::SignedByte(8),
    Entry::UnsignedByte(8),
    Entry::UnsignedByte(15),
    Entry::SignedByte(16),
    Entry::UnsignedByte(16),
    Entry::UnsignedByte(31),
    Entry::SignedByte(32),
    Entry::UnsignedByte(32),
    Entry::UnsignedByte(63),
    Entry::SignedByte(64),
    Entry::UnsignedByte(64),
    Entry::BaseChar,
    Entry::Character,
    Entry::OfKind(Kind::SingleFloat),
    Entry::OfKind(Kind::DoubleFloat),
    Entry::T,
];

/// A place in the upgrading table, counted from 0: the element code of an array.
#[derive(Clone, Copy, Debug, PartialEq, Eq)]
pub struct Code {
    pub index: u8,
    pub ghost in_table: { index < TABLE_LEN },
}

/// The place of NIL.
pub const NIL_PLACE: u8 = 0;

/// The place of BIT.
pub const BIT_PLACE: u8 = 1;

/// The place of BASE-CHAR.
pub const BASE_CHAR_PLACE: u8 = 14;

/// The place of CHARACTER.
pub const CHARACTER_PLACE: u8 = 15;

/// The place of T.
pub const T_PLACE: u8 = 18;

impl Code {
    /// The code of arrays that can hold nothing.
    pub const NIL: Code = Code { index: NIL_PLACE };

    /// The code of bit arrays.
    pub const BIT: Code = Code { index: BIT_PLACE };

    /// The code of base strings.
    pub const BASE_CHAR: Code = Code {
        index: BASE_CHAR_PLACE,
    };

    /// The code of strings of any characters.
    pub const CHARACTER: Code = Code {
        index: CHARACTER_PLACE,
    };

    /// The code of arrays that can hold every object.
    pub const ALL: Code = Code { index: T_PLACE };
}
