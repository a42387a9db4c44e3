// The rows of arrays.

ghost use Rattle.std.specs.Prelude.{ℕ, ◌≡◌, ◌≤◌, ◌<◌, ◌+◌, ◌==◌, true, List, map, length, All, IfOk, OnOk};
ghost use Rattle.std.specs.List.{AllByRecursion};
ghost use Rattle.ls_object.specs.declared.table.TheConstants.{TABLE_LEN as table_length};
ghost use Rattle.ls_object.specs.Universe.{Structures, IsObject, IsPlain};
ghost use Rattle.ls_object.specs.Meaning.{lisp_object};
ghost use Rattle.ls_tables.specs.Sets.{is_in};
ghost use Rattle.ls_spec.specs.Meaning.{specifier};
ghost use Rattle.ls_spec.specs.Specifier.{Specifier};
ghost use Rattle.ls_spec.specs.Membership.{UpgradesTo};
ghost use Rattle.ls_spec.specs.Truth.{Learnt, IsLearnt, is_string_code};
ghost use Rattle.ls_points.specs.Members as members;
ghost use Rattle.ls_lists.specs.Candidates.{arrays as arrays_of};
ghost use Rattle.ls_intern.specs.Places.{at, specifiers_at, AllBelow};
ghost use Rattle.ls_arrays.specs.Arrays.{IsArray};
ghost use Rattle.ls_cells.specs.Cells.{AddsRows};
ghost use Rattle.ls_cells.specs.Codes.{codes_of, AreCodes, IsKnown, HasCodes, IsKeyBelow};
ghost use Rattle.ls_cells.specs.Rows.{AreLong};
ghost use Rattle.ls_cells.specs.steps.Asking.{IsNotAsked, IsAskedBy, AreAskedBy, asked_signs, AreSigns};
ghost use Rattle.ls_cells.specs.steps.Classes.{IsItself};

use crate::idle::{Class, is_idle, push_idle};
use crate::origin::Origin;
use crate::rows::{Row, Rows};
use crate::signs::Signs;
use ls_arrays::{ArrayAtom, ArrayRegions};
use ls_intern::{Id, Node, Table};
use ls_memo::{Memo, Steps};
use ls_object::{Code, Items, Object, TABLE_LEN};
use ls_spec::{DimPattern, Regions, Spec};
use ls_tables::TagSet;
use std::alloc::{AllocError, Global};
use std::sync::ledger::Ledger;

/// All codes of the table.
fn all_codes() -> TagSet<TABLE_LEN>
    ensures { (k : ℕ) → k < table_length → is_in result.bits k ≡ true }
{
    TagSet::empty().complement()
}

/// The one code.
fn one_code(code: Code) -> TagSet<TABLE_LEN>
    ensures { (k : ℕ) → is_in result.bits k ≡ (k == code.index) }
{
    TagSet::empty().insert(usize::from(code.index))
}

/// The codes of strings.
fn string_codes() -> TagSet<TABLE_LEN>
    ensures { (k : ℕ) → is_in result.bits k ≡ is_string_code k }
{
    let others = one_code(Code::BASE_CHAR).union(one_code(Code::CHARACTER));
    one_code(Code::NIL).union(others)
}

/// The code of an element type, which was learnt.
fn code_of_element(table: &Table, codes: &Memo<Code>, element: Id) -> Code
    requires within { element < length table.now }
    requires keys { AllByRecursion (λ e. IsKeyBelow (length table.now) e.0) codes.now }
    requires learnt { IsKnown (codes_of table.now codes.now) (at table.now element) }
    ensures { (structures : Structures) → AreCodes structures table.now codes.now
        → UpgradesTo structures (at table.now element) result.index }
{
    // Its contract says that no specifier stands twice.
    let _distinct = table.len();
    match codes.get(&[element]) {
        Some(code) => *code,
        None => unreachable!(),
    }
}

/// What an atom of other objects asks of an array: no code at all.
fn no_array() -> ArrayAtom
    ensures { IsNotAsked result }
{
    ArrayAtom {
        codes: TagSet::empty(),
        simple: false,
        dims: DimPattern::Any,
    }
}

/// What the atom asks of an array. The codes of the element types that it names were learnt.
fn array_atom(
    alloc: Global,
    table: &Table,
    codes: &Memo<Code>,
    id: Id,
) -> Result<ArrayAtom, AllocError>
    requires below { id < length table.now }
    requires keys { AllByRecursion (λ e. IsKeyBelow (length table.now) e.0) codes.now }
    requires learnt { HasCodes (codes_of table.now codes.now) (at table.now id) }
    ensures { IfOk result (λ asked. (structures : Structures) → AreCodes structures table.now codes.now
        → IsAskedBy structures (at table.now id) asked) }
{
    match table.node(id) {
        Node::ArrayOf { elem, simple, dims } => {
            let dims = dims.copy(alloc)?;
            match elem {
                None => Ok(ArrayAtom {
                    codes: all_codes(),
                    simple: *simple,
                    dims,
                }),
                Some(element) => Ok(ArrayAtom {
                    codes: one_code(code_of_element(table, codes, *element)),
                    simple: *simple,
                    dims,
                }),
            }
        }
        Node::StringOf { simple, dim } => Ok(ArrayAtom {
            codes: string_codes(),
            simple: *simple,
            dims: DimPattern::Places(Items::from_slice(alloc, &[*dim])?),
        }),
        Node::All => Ok(no_array()),
        Node::Nothing => Ok(no_array()),
        Node::And(_) => Ok(no_array()),
        Node::Or(_) => Ok(no_array()),
        Node::Not(_) => Ok(no_array()),
        Node::Eql(_) => Ok(no_array()),
        Node::Range {
            kind: _,
            lo: _,
            hi: _,
        } => Ok(no_array()),
        Node::Chars(_) => Ok(no_array()),
        Node::Symbols(_) => Ok(no_array()),
        Node::Kind(_) => Ok(no_array()),
        Node::StructIs(_) => Ok(no_array()),
        Node::StructAny => Ok(no_array()),
        Node::ConsOf(_, _) => Ok(no_array()),
        Node::Satisfies(_) => Ok(no_array()),
    }
}

/// What each of the atoms asks of an array. The codes of the element types that they name were learnt.
pub(crate) fn array_atoms(
    alloc: Global,
    table: &Table,
    codes: &Memo<Code>,
    atoms: &[Id],
) -> Result<Items<ArrayAtom>, AllocError>
    requires below { AllBelow (length table.now) atoms.now }
    requires keys { AllByRecursion (λ e. IsKeyBelow (length table.now) e.0) codes.now }
    requires learnt { All (HasCodes (codes_of table.now codes.now)) (specifiers_at table.now atoms.now) }
    ensures { IfOk result (λ asked. (structures : Structures) → AreCodes structures table.now codes.now
        → AreAskedBy structures (specifiers_at table.now atoms.now) asked) }
{
    let mut asked = Items::new(alloc);
    for atom in atoms {
        asked.push(array_atom(alloc, table, codes, *atom)?)?;
    }
    Ok(asked)
}

/// Whether the array is as each of the atoms asks.
fn signs_of_array(alloc: Global, asked: &[ArrayAtom], object: &Object) -> Result<Signs, AllocError>
    requires { IsArray (lisp_object object.now) }
    ensures { IfOk result (λ signs. signs ≡ asked_signs asked.now (lisp_object object.now)) }
{
    let mut signs = Signs::new(alloc);
    for atom in asked {
        signs.push(ArrayRegions.holds(atom, object))?;
    }
    Ok(signs)
}

/// Adds the row of one array, which has no marks. It makes at most one step.
fn push_array<L: Ledger>(
    alloc: Global,
    asked: &[ArrayAtom],
    object: Object,
    rows: &mut Rows,
    steps: &mut Steps<L>,
) -> Result<(), AllocError>
    requires class { IsArray (lisp_object object) }
    requires plain { IsPlain (lisp_object object) }
    ensures rises { steps.old ≤ steps.new }
    ensures most { steps.new ≤ steps.old + 1 }
    ensures fewer { length rows.new + steps.old ≤ length rows.old + steps.new }
    ensures long { AreLong (length asked.now) rows.old → AreLong (length asked.now) rows.new }
    ensures rows { OnOk result ((structures : Structures) (learnt : Learnt) (atoms : List Specifier)
        → AreSigns structures learnt atoms asked.now
        → IsObject structures (lisp_object object)
        → AddsRows structures learnt atoms (IsItself (lisp_object object)) rows.old rows.new) }
{
    let signs = signs_of_array(alloc, asked, &object)?;
    if let Some(_) = rows.find(&signs) {
        return Ok(());
    }
    let origin = Origin::of_object(alloc, object)?;
    rows.add(Row { signs, origin }, steps)?;
    Ok(())
}

/// Adds the rows of the arrays. What the atoms ask of one is handed in.
pub(crate) fn push_arrays<L: Ledger>(
    alloc: Global,
    atoms: &Items<Spec>,
    asked: &Items<ArrayAtom>,
    rows: &mut Rows,
    steps: &mut Steps<L>,
) -> Result<(), AllocError>
    requires asked { (structures : Structures) × AllByRecursion (members.IsFitIn structures) atoms.now
        × AreAskedBy structures (map specifier atoms.now) asked.now }
    ensures rises { steps.old ≤ steps.new }
    ensures fewer { length rows.new + steps.old ≤ length rows.old + steps.new }
    ensures long { AreLong (length atoms.now) rows.old → AreLong (length atoms.now) rows.new }
    ensures most { (structures : Structures) → AreAskedBy structures (map specifier atoms.now) asked.now
        → steps.new ≤ steps.old + arrays_of (map specifier atoms.now) }
    ensures rows { OnOk result ((structures : Structures) (learnt : Learnt)
        → AreAskedBy structures (map specifier atoms.now) asked.now
        → All (IsLearnt structures learnt) (map specifier atoms.now)
        → AddsRows structures learnt (map specifier atoms.now) IsArray rows.old rows.new) }
{
    if is_idle(Class::Arrays, atoms.as_slice()) {
        return push_idle(alloc, Class::Arrays, atoms, rows, steps);
    }
    let mut reps = ArrayRegions.reps(alloc, asked)?;
    let each = asked.as_slice();
    while let Some(object) = reps.pop() {
        push_array(alloc, each, object, rows, steps)?;
    }
    Ok(())
}
