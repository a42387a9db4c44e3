// The numbers.

ghost use Rattle.std.specs.Prelude.{pos, unsigned_abs, ◌≡◌, ◌≤◌, ◌^◌, ◌+◌, ◌*◌, ◌+ℤ◌, ◌*ℤ◌, ◌≤ℤ◌, [], ◌∷◌, ◌++◌, map, length, IfOk, OnOk, MatchOption};
ghost use Rattle.std.specs.List.Sorted.{IsPermutation, IsSortedBy};
ghost use Rattle.ls_object.specs.Ratio.{IsLessRatio, HasNoIntegerBetween};
ghost use Rattle.ls_object.specs.Universe.{node, number};
ghost use Rattle.ls_object.specs.Meaning.{lisp_object};
ghost use Rattle.ls_spec.specs.Fits.{IsSmall};
ghost use Rattle.ls_spec.specs.Meaning.{specifier};
ghost use Rattle.ls_points.specs.Classes.{IsNumber};
ghost use Rattle.ls_points.specs.Members as members;
ghost use Rattle.ls_points.specs.steps.Numbers.{bound_end, named_ends, ends_of, is_less, AreRising, AreRisingFrom, AreStandIns, IsLess, gap_numbers, IsIntegerBetween, AreBetween, AreBelow, AreAbove, GoesUpTo};

use crate::object::push_unmarked;
use ls_object::{Items, Object, Rat, Shape};
use ls_spec::{Bound, Point, Regions, Spec, belongs_unmarked};
use std::alloc::{AllocError, Global};
use std::cmp::Ordering;

/// The numbers.
pub struct NumberRegions;

impl Regions for NumberRegions {
    type Atom = Spec;

    ghost IsOver = { λ _ structures. members.IsOverEvery structures };

    ghost IsOfClass = { λ _ o. IsNumber o };

    ghost IsFit = { λ _ a. members.IsFit a };

    ghost IsIn = { members.IsIn };

    ghost limit = { members.number_limit };

    fn covers(&self, object: &Object) -> bool {
        match object.shape {
            Shape::Number(_) => true,
            _ => false,
        }
    }

    fn holds(&self, atom: &Spec, object: &Object) -> bool {
        belongs_unmarked(atom, &object.shape)
    }

    /// The ends that atoms name, for each gap between two neighbouring ends a ratio that is no integer and an
    /// integer, if there is one, and such a pair below the least end and above the greatest.
    fn reps(&self, alloc: Global, atoms: &Items<Spec>) -> Result<Items<Object>, AllocError> {
        let mut ends = Vec::new(alloc);
        push_ends(atoms.as_slice(), &mut ends)?;
        sort(&mut ends)?;
        let numbers = stand_ins(alloc, ends.as_slice())?;
        let mut out = Items::new(alloc);
        push_numbers(alloc, numbers.as_slice(), &mut out)?;
        Ok(out)
    }
}

/// Appends the ends that the atoms name.
fn push_ends(atoms: &[Spec], ends: &mut Vec<Rat>) -> Result<(), AllocError>
    ensures { OnOk result (ends.new.items ≡ ends.old.items ++ ends_of atoms.now) }
{
    for atom in atoms {
        push_ends_by(atom, ends)?;
    }
    Ok(())
}

/// Appends the ends that an atom names.
fn push_ends_by(atom: &Spec, ends: &mut Vec<Rat>) -> Result<(), AllocError>
    ensures { OnOk result (ends.new.items ≡ ends.old.items ++ named_ends (specifier atom.now)) }
{
    match atom {
        Spec::Eql(Point::Number(r)) => push_end(*r, ends),
        Spec::Range { lo, hi, .. } => push_bounds(*lo, *hi, ends),
        _ => Ok(()),
    }
}

/// Appends the ends of two bounds.
fn push_bounds(lo: Bound, hi: Bound, ends: &mut Vec<Rat>) -> Result<(), AllocError>
    ensures { OnOk result (ends.new.items ≡ ends.old.items ++ (bound_end lo ++ bound_end hi)) }
{
    push_bound(lo, ends)?;
    push_bound(hi, ends)?;
    Ok(())
}

/// Appends the end of a bound, if it has one.
fn push_bound(bound: Bound, ends: &mut Vec<Rat>) -> Result<(), AllocError>
    ensures { OnOk result (ends.new.items ≡ ends.old.items ++ bound_end bound) }
{
    match bound {
        Bound::Free => Ok(()),
        Bound::Incl(r) | Bound::Excl(r) => push_end(r, ends),
    }
}

/// Appends an end.
fn push_end(end: Rat, ends: &mut Vec<Rat>) -> Result<(), AllocError>
    ensures { OnOk result (ends.new.items ≡ ends.old.items ++ end ∷ []) }
{
    ends.push(end)?;
    Ok(())
}

/// Sorts the ends.
fn sort(ends: &mut Vec<Rat>) -> Result<(), AllocError>
    ensures same { OnOk result (IsPermutation ends.old.items ends.new.items) }
    ensures sorted { OnOk result (IsSortedBy is_less ends.new.items) }
{
    ends.sort_by(|a, b| a.cmp(b))?;
    Ok(())
}

/// Numbers that stand for all numbers before the ends, which are sorted.
fn stand_ins(alloc: Global, ends: &[Rat]) -> Result<Vec<Rat>, AllocError>
    requires { AreRising ends.now }
    ensures law { IfOk result (λ v. AreStandIns ends.now v.items) }
    ensures count { IfOk result (λ v. length v.items ≤ 2 + 3 * length ends.now) }
{
    match ends.split_first() {
        Some((least, rest)) => stand_ins_from(alloc, *least, rest),
        None => stand_ins_of_none(alloc),
    }
}

/// The same without ends: a ratio and an integer.
fn stand_ins_of_none(alloc: Global) -> Result<Vec<Rat>, AllocError>
    ensures law { IfOk result (λ v. AreStandIns [] v.items) }
    ensures count { IfOk result (λ v. length v.items ≤ 2) }
{
    let mut out = Vec::new(alloc);
    push_gap(numbers_above(Rat::integer(0)), &mut out)?;
    Ok(out)
}

/// The same for the least end and the rest of the ends.
fn stand_ins_from(alloc: Global, least: Rat, rest: &[Rat]) -> Result<Vec<Rat>, AllocError>
    requires least { IsSmall least }
    requires rest { AreRisingFrom least rest.now }
    ensures law { IfOk result (λ v. AreStandIns (least ∷ rest.now) v.items) }
    ensures count { IfOk result (λ v. length v.items ≤ 5 + 3 * length rest.now) }
{
    let mut out = Vec::new(alloc);
    push_gap(numbers_below(least), &mut out)?;
    push_end(least, &mut out)?;
    let mut last = least;
    for end in rest {
        push_up_to(last, *end, &mut out)?;
        last = *end;
    }
    push_gap(numbers_above(last), &mut out)?;
    Ok(out)
}

/// Appends the numbers of the gap between two ends and the upper end, unless they are equal.
fn push_up_to(last: Rat, end: Rat, out: &mut Vec<Rat>) -> Result<(), AllocError>
    requires last { IsSmall last }
    requires end { IsSmall end }
    ensures { OnOk result (GoesUpTo last end out.old.items out.new.items) }
{
    match last.cmp(&end) {
        Ordering::Less => push_gap_and_end(last, end, out),
        _ => Ok(()),
    }
}

/// Appends the numbers of the gap between two ends and the upper end.
fn push_gap_and_end(last: Rat, end: Rat, out: &mut Vec<Rat>) -> Result<(), AllocError>
    requires less { IsLess last end }
    requires last { IsSmall last }
    requires end { IsSmall end }
    ensures { OnOk result (GoesUpTo last end out.old.items out.new.items) }
{
    push_gap(numbers_between(last, end), out)?;
    push_end(end, out)?;
    Ok(())
}

/// Numbers that stand for those of a gap: a ratio that is no integer, and an integer, if there is one.
#[derive(Clone, Copy)]
struct GapNumbers {
    ratio: Rat,
    integer: Option<Rat>,
}

/// Appends the numbers.
fn push_gap(gap: GapNumbers, out: &mut Vec<Rat>) -> Result<(), AllocError>
    ensures { OnOk result (out.new.items ≡ out.old.items ++ gap_numbers gap) }
{
    push_end(gap.ratio, out)?;
    if let Some(integer) = gap.integer {
        push_end(integer, out)?;
    }
    Ok(())
}

/// Numbers between the two.
fn numbers_between(lo: Rat, hi: Rat) -> GapNumbers
    requires less { IsLess lo hi }
    requires lo { IsSmall lo }
    requires hi { IsSmall hi }
    ensures { AreBetween lo hi result }
{
    GapNumbers {
        ratio: Rat::between(&lo, &hi),
        integer: integer_between(&lo, &hi),
    }
}

/// Numbers below the end.
fn numbers_below(end: Rat) -> GapNumbers
    requires { IsSmall end }
    ensures { AreBelow end result }
{
    let integer = integer_below(&end);
    GapNumbers {
        ratio: Rat::between(&integer, &end),
        integer: Some(integer),
    }
}

/// Numbers above the end.
fn numbers_above(end: Rat) -> GapNumbers
    requires { IsSmall end }
    ensures { AreAbove end result }
{
    let integer = integer_above(&end);
    GapNumbers {
        ratio: Rat::between(&end, &integer),
        integer: Some(integer),
    }
}

/// The least integer between the two, or `None` where there is none.
fn integer_between(lo: &Rat, hi: &Rat) -> Option<Rat>
    requires { IsSmall lo.now }
    ensures { MatchOption result (HasNoIntegerBetween lo.now.num lo.now.den hi.now.num hi.now.den) (IsIntegerBetween lo.now hi.now) }
{
    let next = integer_above(lo);
    match next.cmp(hi) {
        Ordering::Less => Some(next),
        _ => None,
    }
}

/// The least integer above `r`.
fn integer_above(r: &Rat) -> Rat
    requires { IsSmall r.now }
    ensures integer { result.den ≡ 1 }
    ensures above { IsLessRatio r.now.num r.now.den result.num 1 }
    ensures least { (result.num *ℤ pos r.now.den) ≤ℤ (r.now.num +ℤ pos r.now.den) }
    ensures size { unsigned_abs result.num ≤ 2 ^ 64 + 1 }
{
    Rat::integer(r.num.div_euclid(r.den as i128) + 1)
}

/// An integer below `r`.
fn integer_below(r: &Rat) -> Rat
    requires { IsSmall r.now }
    ensures integer { result.den ≡ 1 }
    ensures below { IsLessRatio result.num 1 r.now.num r.now.den }
    ensures size { unsigned_abs result.num ≤ 2 ^ 64 + 1 }
{
    Rat::integer(r.num.div_euclid(r.den as i128) - 1)
}

/// Appends the numbers, as objects.
fn push_numbers(alloc: Global, numbers: &[Rat], out: &mut Items<Object>) -> Result<(), AllocError>
    ensures { OnOk result (map lisp_object out.new ≡ map lisp_object out.old ++ map (λ r. node [] (number r.num r.den)) numbers.now) }
{
    for r in numbers {
        push_unmarked(alloc, Shape::Number(*r), out)?;
    }
    Ok(())
}
