// The entry of what two entries of the upgrading table hold.

ghost use Rattle.std.specs.Prelude.{◌≡◌, int_le, nat_le, if◌then◌else◌};
ghost use Rattle.std.specs.List.{AllByRecursion, position_or_len};
ghost use Rattle.ls_object.specs.Table.{extent};
ghost use Rattle.ls_tables.specs.Table.{IsMeeting};
ghost use Rattle.ls_tables.specs.steps.Meeting.{extent_held, same_kind, integers_between, meeting, same_extent};
ghost use Rattle.ls_tables.specs.steps.Widths.{HasHeldWidth};

use crate::extent::{Held, held_at, held_by};
use ls_object::{Code, Entry, Kind, UPGRADING_TABLE};

/// Whether the kinds are the same.
fn is_same_kind(j: Kind, k: Kind) -> bool
    ensures { result ≡ same_kind j k }
{
    j.text() == k.text()
}

/// The integers from `lo` to `hi`, if there are any.
fn between(lo: i128, hi: i128) -> Held
    ensures { extent_held result ≡ integers_between lo hi }
{
    if lo <= hi {
        Held::Integers(lo, hi)
    } else {
        Held::Nothing
    }
}

/// The greater of two integers.
fn greater(m: i128, n: i128) -> i128
    ensures { result ≡ (if int_le m n then n else m) }
{
    if m <= n { n } else { m }
}

/// The lesser of two integers.
fn lesser(m: i128, n: i128) -> i128
    ensures { result ≡ (if int_le m n then m else n) }
{
    if m <= n { m } else { n }
}

/// The characters with a code below both numbers.
fn characters_below(m: u32, n: u32) -> Held
    ensures { extent_held result ≡ extent_held (Held.Characters (if nat_le m n then m else n)) }
{
    Held::Characters(if m <= n { m } else { n })
}

/// The opaque objects of both kinds.
fn of_both_kinds(j: Kind, k: Kind) -> Held
    ensures { extent_held result ≡ (if same_kind j k then extent_held (Held.OneKind j) else extent_held Held.Nothing) }
{
    if is_same_kind(j, k) {
        Held::OneKind(j)
    } else {
        Held::Nothing
    }
}

/// What both hold.
#[tactic(auto, unfolding(crate::specs::steps::Meeting::meeting))]
fn meet(a: Held, b: Held) -> Held
    ensures { extent_held result ≡ meeting (extent_held a) (extent_held b) }
{
    match (a, b) {
        (Held::Everything, _) => b,
        (_, Held::Everything) => a,
        (Held::Integers(lo, hi), Held::Integers(floor, ceiling)) => {
            between(greater(lo, floor), lesser(hi, ceiling))
        }
        (Held::Characters(m), Held::Characters(n)) => characters_below(m, n),
        (Held::OneKind(j), Held::OneKind(k)) => of_both_kinds(j, k),
        _ => Held::Nothing,
    }
}

/// Whether both are the same.
fn is_same(a: Held, b: Held) -> bool
    ensures { result ≡ same_extent (extent_held a) (extent_held b) }
{
    match (a, b) {
        (Held::Nothing, Held::Nothing) => true,
        (Held::Everything, Held::Everything) => true,
        (Held::Integers(lo, hi), Held::Integers(floor, ceiling)) => lo == floor && hi == ceiling,
        (Held::Characters(m), Held::Characters(n)) => m == n,
        (Held::OneKind(j), Held::OneKind(k)) => is_same_kind(j, k),
        _ => false,
    }
}

/// The place of the first entry of a table that holds exactly the wanted objects, or the table's length.
fn place_of(wanted: Held, table: &[Entry]) -> usize
    requires { AllByRecursion HasHeldWidth table.now }
    ensures { result ≡ position_or_len (λ entry. same_extent (extent entry) (extent_held wanted)) table.now }
{
    for (place, entry) in table.iter().enumerate() {
        if is_same(held_by(*entry), wanted) {
            return place;
        }
    }
    table.len()
}

/// The element code of the arrays that can hold exactly what those of both codes can hold. The table has such an
/// entry for any two. It takes no memory.
pub fn code_meet(a: Code, b: Code) -> Code
    ensures { IsMeeting a.index b.index result.index }
{
    let both = meet(held_at(a), held_at(b));
    Code {
        index: place_of(both, &UPGRADING_TABLE) as u8,
    }
}
