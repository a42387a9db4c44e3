// The element codes that stand for all.

ghost use Rattle.std.specs.Prelude.{ℕ, ◌≡◌, ◌<◌, ◌&&◌, ◌||◌, ◌++◌, ◌∷◌, [], map, not, if◌then◌else◌, IfOk, OnOk};
ghost use Rattle.ls_object.specs.declared.table.TheConstants.{TABLE_LEN as table_length};
ghost use Rattle.ls_tables.specs.Sets.{is_in};
ghost use Rattle.ls_arrays.specs.Arrays.{is_whole as is_whole_set, is_named, codes_that};
ghost use Rattle.ls_arrays.specs.steps.Representatives.{first_of, code_stand_ins};

use crate::atom::ArrayAtom;
use ls_object::{Code, Items, TABLE_LEN};
use ls_tables::TagSet;
use std::alloc::{AllocError, Global};

/// Whether the set is the whole table.
fn is_whole(codes: TagSet<TABLE_LEN>) -> bool
    ensures { result ≡ is_whole_set codes.bits }
{
    match codes.complement().least() {
        None => true,
        Some(_) => false,
    }
}

/// The codes, and those of the other set unless it is the whole table.
fn with_codes(found: TagSet<TABLE_LEN>, codes: TagSet<TABLE_LEN>) -> TagSet<TABLE_LEN>
    ensures { (k : ℕ) → is_in result.bits k ≡ (is_in found.bits k || (not (is_whole_set codes.bits) && is_in codes.bits k)) }
{
    if is_whole(codes) {
        found
    } else {
        found.union(codes)
    }
}

/// The codes that are in the set of an atom other than the whole table.
fn named(atoms: &[ArrayAtom]) -> TagSet<TABLE_LEN>
    ensures { (k : ℕ) → is_in result.bits k ≡ is_named atoms.now k }
{
    let mut found = TagSet::empty();
    for atom in atoms {
        found = with_codes(found, atom.codes);
    }
    found
}

/// Appends the code of a place.
fn push_code(k: usize, out: &mut Items<Code>) -> Result<(), AllocError>
    requires { k < table_length }
    ensures { OnOk result (map (λ c. c.index) out.new ≡ map (λ c. c.index) out.old ++ k ∷ []) }
{
    out.push(Code { index: k as u8 })
}

/// Appends the code of a place that is in the set.
fn push_if(set: TagSet<TABLE_LEN>, k: usize, out: &mut Items<Code>) -> Result<(), AllocError>
    requires { k < table_length }
    ensures { OnOk result (map (λ c. c.index) out.new ≡ map (λ c. c.index) out.old ++ (if is_in set.bits k then k ∷ [] else [])) }
{
    if set.has(k) {
        push_code(k, out)?;
    }
    Ok(())
}

/// Appends the codes of the set.
fn push_all(set: TagSet<TABLE_LEN>, out: &mut Items<Code>) -> Result<(), AllocError>
    ensures { OnOk result (map (λ c. c.index) out.new ≡ map (λ c. c.index) out.old ++ codes_that (λ k. is_in set.bits k)) }
{
    for k in 0..TABLE_LEN {
        push_if(set, k, out)?;
    }
    Ok(())
}

/// Appends the first code of the set, if it has one.
fn push_least(set: TagSet<TABLE_LEN>, out: &mut Items<Code>) -> Result<(), AllocError>
    ensures { OnOk result (map (λ c. c.index) out.new ≡ map (λ c. c.index) out.old ++ first_of (codes_that (λ k. is_in set.bits k))) }
{
    match set.least() {
        None => Ok(()),
        Some(k) => {
            push_code(k, out)?;
            Ok(())
        }
    }
}

/// The codes that are named, and the first one that isn't.
pub(crate) fn stand_ins(alloc: Global, atoms: &[ArrayAtom]) -> Result<Items<Code>, AllocError>
    ensures { IfOk result (λ codes. map (λ c. c.index) codes ≡ code_stand_ins atoms.now) }
{
    let mut out = Items::new(alloc);
    let set = named(atoms);
    push_all(set, &mut out)?;
    push_least(set.complement(), &mut out)?;
    Ok(out)
}
