// What the entries of the upgrading table hold.

ghost use Rattle.std.specs.Prelude.{◌≡◌, ◌≤◌, ◌^◌, pos};
ghost use Rattle.ls_object.specs.Table.{extent};
ghost use Rattle.ls_tables.specs.Table.{extent_at, integer_range};
ghost use Rattle.ls_tables.specs.steps.Meeting.{extent_held};
ghost use Rattle.ls_tables.specs.steps.Widths.{HasHeldWidth};

use ls_object::{Code, Entry, Kind, UPGRADING_TABLE};

/// The objects that an entry holds.
#[derive(Clone, Copy)]
pub(crate) enum Held {
    Nothing,
    /// The integers from the first to the second, with both.
    Integers(i128, i128),
    /// The characters with a code below the number.
    Characters(u32),
    OneKind(Kind),
    Everything,
}

/// 2 to the power of `bits`.
fn power(bits: u32) -> i128
    requires { bits ≤ 64 }
    ensures { result ≡ pos (2 ^ bits) }
{
    2u128.pow(bits) as i128
}

/// What an entry holds.
pub(crate) fn held_by(entry: Entry) -> Held
    requires { HasHeldWidth entry }
    ensures { extent_held result ≡ extent entry }
{
    match entry {
        Entry::Nil => Held::Nothing,
        Entry::Bit => Held::Integers(0, 1),
        Entry::UnsignedByte(bits) => Held::Integers(0, power(bits) - 1),
        Entry::SignedByte(bits) => Held::Integers(-power(bits - 1), power(bits - 1) - 1),
        Entry::BaseChar => Held::Characters(128),
        Entry::Character => Held::Characters(17 << 16),
        Entry::OfKind(kind) => Held::OneKind(kind),
        Entry::T => Held::Everything,
    }
}

/// What the entry at a place of the table holds.
pub(crate) fn held_at(code: Code) -> Held
    ensures { extent_held result ≡ extent_at code.index }
{
    held_by(UPGRADING_TABLE[usize::from(code.index)])
}

/// The least and the greatest integer that arrays with the element code can hold; `None` exactly where the entry is
/// not one of integers. It takes no memory.
pub fn code_range(code: Code) -> Option<(i128, i128)>
    ensures { result ≡ integer_range (extent_at code.index) }
{
    match held_at(code) {
        Held::Integers(lo, hi) => Some((lo, hi)),
        _ => None,
    }
}
