// The types of element codes.

ghost use Rattle.std.specs.Prelude.{ℕ, pos, unsigned_abs, ◌≡◌, ◌<◌, ◌≤◌, ◌^◌, IfOk};
ghost use Rattle.ls_object.specs.Limits.{numerator_limit};
ghost use Rattle.ls_spec.specs.Meaning.{specifier};
ghost use Rattle.ls_spec.specs.Entries.{integers_within, entry_specifier, code_specifier};
ghost use Rattle.ls_tables.specs.steps.Widths.{HasHeldWidth};

use crate::spec::{Bound, CharClass, RangeKind, Spec};
use ls_object::{Code, Entry, Rat, UPGRADING_TABLE};
use std::alloc::{AllocError, Global};

/// The type of the objects that arrays with the element code can hold: NIL, T, a range of integers with both ends,
/// BASE-CHAR, CHARACTER or the opaque objects of one kind (15.1.2.1). None of these takes memory today.
pub fn of_code(_alloc: Global, code: Code) -> Result<Spec, AllocError>
    ensures { IfOk result (λ s. specifier s ≡ code_specifier code.index) }
{
    Ok(of_entry(UPGRADING_TABLE[usize::from(code.index)]))
}

/// The type that an entry of the table is.
fn of_entry(entry: Entry) -> Spec
    requires { HasHeldWidth entry }
    ensures { specifier result ≡ entry_specifier entry }
{
    match entry {
        Entry::Nil => Spec::Nothing,
        Entry::Bit => integers(0, 1),
        Entry::UnsignedByte(bits) => integers(0, power(bits) - 1),
        Entry::SignedByte(bits) => integers(-power(bits - 1), power(bits - 1) - 1),
        Entry::BaseChar => Spec::Chars(CharClass::Base),
        Entry::Character => Spec::Chars(CharClass::Any),
        Entry::OfKind(kind) => Spec::Kind(kind),
        Entry::T => Spec::All,
    }
}

/// 2 to the power of `bits`.
fn power(bits: u32) -> i128
    requires { bits ≤ 64 }
    ensures { result ≡ pos (2 ^ bits) }
{
    2u128.pow(bits) as i128
}

/// The integers from `lo` to `hi`.
fn integers(lo: i128, hi: i128) -> Spec
    requires lo { unsigned_abs lo < numerator_limit }
    requires hi { unsigned_abs hi < numerator_limit }
    ensures { specifier result ≡ integers_within lo hi }
{
    Spec::Range {
        kind: RangeKind::Integer,
        lo: Bound::Incl(Rat::integer(lo)),
        hi: Bound::Incl(Rat::integer(hi)),
    }
}
