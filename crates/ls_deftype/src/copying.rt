// Copies of data, however deep they are nested: the constructs that are begun stand in a list, and not on the stack.

ghost use Rattle.std.specs.Prelude.{ℕ, ◌≡◌, ◌+◌, ◌++◌, [], ◌∷◌, length};
ghost use Rattle.ls_reader.specs.Sizes.{size, size_all};
ghost use Rattle.ls_deftype.specs.steps.Room.{Takes};
ghost use Rattle.ls_deftype.specs.steps.Begun.{left, left_in, ended, ended_with, plugged};
ghost use Rattle.ls_deftype.specs.steps.Turns.{Turned};
ghost use Rattle.ls_deftype.specs.steps.Filling.{Puts};

use crate::begun::{Begun, Start, begin};
use crate::room::{Stop, take_one};
use ls_reader::Datum;
use sqlite_items::Items;
use std::alloc::Global;

/// What a turn gives: the construct at which to go on, or the whole copy.
#[derive(Drop)]
pub(crate) enum Turn<'a> {
    On(Begun<'a>),
    Ended(Datum),
}

/// Copies a part of the innermost construct, or begins its copy.
#[tactic(auto, using(crate::proofs::CopyLemmas::plugged_last, crate::proofs::CopyLemmas::left_last, crate::proofs::CopyLemmas::made_more, crate::proofs::SizeLemmas::size_cons))]
fn turn_in<'a>(
    alloc: Global,
    datum: &'a Datum,
    top: Begun<'a>,
    below: &mut Items<Begun<'a>>,
    room: &mut u64,
) -> Result<Turn<'a>, Stop>
    ensures { Turned
        (plugged below.old (ended_with top.entry (top.entry.made ++ datum.now ∷ left top.entry)))
        (left_in below.old + size_all (datum.now ∷ left top.entry))
        (length below.old) room.old below.new room.new result }
{
    take_one(room)?;
    let mut top = top;
    match begin(alloc, datum)? {
        Start::Whole(copy) => {
            top.made.push(copy)?;
            Ok(Turn::On(top))
        }
        Start::Begun(inner) => {
            below.push(top)?;
            Ok(Turn::On(inner))
        }
    }
}

/// Ends the innermost construct.
#[tactic(auto, using(crate::proofs::CopyLemmas::plugged_last, crate::proofs::CopyLemmas::left_last, crate::proofs::CopyLemmas::made_more))]
fn turn_out<'a>(
    alloc: Global,
    top: Begun<'a>,
    below: &mut Items<Begun<'a>>,
) -> Result<Turn<'a>, Stop>
    requires { left top ≡ [] }
    ensures { (n : ℕ) → Turned (plugged below.old (ended top.entry)) (left_in below.old) (length below.old)
        n below.new n result }
{
    let datum = top.end(alloc)?;
    match below.pop() {
        Some(outer) => {
            let mut outer = outer;
            outer.made.push(datum)?;
            Ok(Turn::On(outer))
        }
        None => Ok(Turn::Ended(datum)),
    }
}

/// One turn.
#[tactic(auto, using(crate::proofs::CopyLemmas::next_parts, crate::proofs::SizeLemmas::size_cons))]
fn take_turn<'a>(
    alloc: Global,
    top: Begun<'a>,
    below: &mut Items<Begun<'a>>,
    room: &mut u64,
) -> Result<Turn<'a>, Stop>
    ensures { Turned (plugged below.old (ended top.entry)) (left_in below.old + size_all (left top.entry))
        (length below.old) room.old below.new room.new result }
{
    let mut top = top;
    match top.next() {
        Some(datum) => turn_in(alloc, datum, top, below, room),
        None => turn_out(alloc, top, below),
    }
}

/// The copy of a datum whose copy is begun.
fn copy_from(alloc: Global, begun: Begun<'_>, room: &mut u64) -> Result<Datum, Stop>
    ensures { Takes (λ d. d ≡ ended begun.entry) (size_all (left begun.entry)) room.old room.new result }
{
    let mut below = Items::new(alloc);
    let mut top = begun;
    'turns: loop {
        match take_turn(alloc, top, &mut below, room)? {
            Turn::On(next) => top = next,
            Turn::Ended(datum) => return Ok(datum),
        }
    }
}

/// An equal datum, whose size is taken from the room.
pub(crate) fn copy_within(alloc: Global, datum: &Datum, room: &mut u64) -> Result<Datum, Stop>
    ensures { Takes (λ d. d ≡ datum.now) (size datum.now) room.old room.new result }
{
    take_one(room)?;
    match begin(alloc, datum)? {
        Start::Whole(copy) => Ok(copy),
        Start::Begun(begun) => copy_from(alloc, begun, room),
    }
}

/// Puts copies of the data behind others.
#[tactic(auto, using(crate::proofs::SizeLemmas::sizes_drop))]
pub(crate) fn copy_all_onto(
    alloc: Global,
    data: &[Datum],
    out: &mut Items<Datum>,
    room: &mut u64,
) -> Result<(), Stop>
    ensures { Puts data.now out.old out.new room.old room.new result }
{
    for datum in data {
        out.push(copy_within(alloc, datum, room)?)?;
    }
    Ok(())
}
