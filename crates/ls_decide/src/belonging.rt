// Whether one object belongs to a type, over what a store keeps.

ghost use Rattle.std.specs.Prelude.{◌≡◌, ◌≤◌, ◌<◌, ◌+◌, ◌^◌, ◌==◌, [], length, IfOk};
ghost use Rattle.ls_object.specs.Universe.{node as bare};
ghost use Rattle.ls_object.specs.Meaning.{lisp_object, lisp_shape};
ghost use Rattle.ls_object.specs.Inclusion.{under_in};
ghost use Rattle.ls_spec.specs.Specifier.{and_of, or_of, cons_of};
ghost use Rattle.ls_spec.specs.Meaning.{specifier, specifiers_of};
ghost use Rattle.ls_spec.specs.Membership.{UpgradesTo};
ghost use Rattle.ls_spec.specs.Fits.{Fits};
ghost use Rattle.ls_spec.specs.Truth as truth;
ghost use Rattle.ls_lists.specs.Costs.{type_cost, type_lists};
ghost use Rattle.ls_intern.specs.Places.{at, specifiers_at, AllBelow};
ghost use Rattle.ls_cells.specs.Codes.{IsKnown, HasCodes};
ghost use Rattle.ls_cells.specs.Kept.{structures_in, specifiers_in, codes_in, entries_in};
ghost use Rattle.ls_decide.specs.Answers.{IsRightMembership};
ghost use Rattle.ls_decide.specs.Sessions.{Works, HasAsked, IsPaid};
ghost use Rattle.ls_decide.specs.steps.Belonging.{Tells, IsRightAsked};

use crate::answer::Belongs;
use crate::cost::elements_of;
use crate::learn::learn_within;
use ls_cells::Store;
use ls_intern::{Id, Node, Table};
use ls_memo::Steps;
use ls_object::{Code, Object, Parents, Shape, Symbol};
use ls_spec::{DimPattern, Spec, are_dims_matched, belongs_unmarked};
use std::alloc::{AllocError, Global};
use std::sync::ledger::Ledger;

/// Whether an object of the shape is a structure of the type, or of one that includes it.
fn is_structure_under(parents: &Parents, name: &Symbol, shape: &Shape) -> bool
    ensures { result ≡ truth.is_structure_under (under_in parents.now) name.now (lisp_shape shape.now) }
{
    match shape {
        Shape::Structure(own) => parents.is_under(own, name),
        _ => false,
    }
}

/// Whether an object of the shape is an array with this element code and with dimensions as asked.
fn is_array_of(code: Code, simple: bool, dims: &DimPattern, shape: &Shape) -> bool
    ensures { result ≡ truth.is_array_with (λ c. c == code.index) simple (truth.matches_dimensions dims.now) (lisp_shape shape.now) }
{
    let Shape::Array {
        elem,
        simple: is_simple,
        dims: has,
    } = shape
    else {
        return false;
    };
    elem.index == code.index && ((!simple || *is_simple) && are_dims_matched(dims, has))
}

/// The code of an element type, which was learnt.
fn code_of(store: &Store, element: Id) -> Code
    requires within { element < length (specifiers_in store.now) }
    requires known { IsKnown (codes_in store.now) (at (specifiers_in store.now) element) }
    ensures { UpgradesTo (structures_in store.now) (at (specifiers_in store.now) element) result.index }
{
    match store.code(element) {
        Some(code) => code,
        None => unreachable!(),
    }
}

/// Whether an object of the shape that has no marks belongs to the specifier, where no structure name and no element
/// type is asked for.
fn is_in_leaf(table: &Table, id: Id, shape: &Shape) -> Result<bool, AllocError>
    requires { id < length table.now }
    ensures { IfOk result (λ yes. yes ≡ truth.holds truth.nothing_learnt (at table.now id) (bare [] (lisp_shape shape.now))) }
{
    let leaf = table.tree(id)?;
    Ok(belongs_unmarked(&leaf, shape))
}

/// Whether the object belongs to an approximation of the specifier, the upper or the lower one. The codes of the element
/// types of its arrays were learnt.
#[cycle(is_inside)]
fn is_inside(
    parents: &Parents,
    store: &Store,
    id: Id,
    object: &Object,
    upper: bool,
) -> Result<bool, AllocError>
    requires structures { parents.now ≡ structures_in store.now }
    requires id { id < length (specifiers_in store.now) }
    requires codes { HasCodes (codes_in store.now) (at (specifiers_in store.now) id) }
    ensures { IfOk result (Tells (structures_in store.now) upper (at (specifiers_in store.now) id) (lisp_object object.now)) }
{
    let table = store.table();
    let shape = &object.shape;
    match table.node(id) {
        Node::And(parts) => all_inside(parents, store, parts.as_slice(), object, upper),
        Node::Or(parts) => some_inside(parents, store, parts.as_slice(), object, upper),
        Node::Not(part) => Ok(!is_inside(parents, store, *part, object, !upper)?),
        Node::ConsOf(car, cdr) => is_pair_inside(parents, store, *car, *cdr, object, upper),
        Node::Satisfies(_) => Ok(upper),
        Node::StructIs(name) => Ok(is_structure_under(parents, name, shape)),
        Node::ArrayOf { elem, simple, dims } => match elem {
            Some(element) => Ok(is_array_of(code_of(store, *element), *simple, dims, shape)),
            None => is_in_leaf(table, id, shape),
        },
        Node::All => is_in_leaf(table, id, shape),
        Node::Nothing => is_in_leaf(table, id, shape),
        Node::Eql(_) => is_in_leaf(table, id, shape),
        Node::Range {
            kind: _,
            lo: _,
            hi: _,
        } => is_in_leaf(table, id, shape),
        Node::Chars(_) => is_in_leaf(table, id, shape),
        Node::Symbols(_) => is_in_leaf(table, id, shape),
        Node::Kind(_) => is_in_leaf(table, id, shape),
        Node::StructAny => is_in_leaf(table, id, shape),
        Node::StringOf { simple: _, dim: _ } => is_in_leaf(table, id, shape),
    }
}

/// The same of an AND.
#[cycle(is_inside)]
fn all_inside(
    parents: &Parents,
    store: &Store,
    parts: &[Id],
    object: &Object,
    upper: bool,
) -> Result<bool, AllocError>
    requires structures { parents.now ≡ structures_in store.now }
    requires parts { AllBelow (length (specifiers_in store.now)) parts.now }
    requires codes { HasCodes (codes_in store.now) (and_of (specifiers_of (specifiers_at (specifiers_in store.now) parts.now))) }
    ensures { IfOk result (Tells (structures_in store.now) upper
        (and_of (specifiers_of (specifiers_at (specifiers_in store.now) parts.now))) (lisp_object object.now)) }
{
    for part in parts {
        if !is_inside(parents, store, *part, object, upper)? {
            return Ok(false);
        }
    }
    Ok(true)
}

/// The same of an OR.
#[cycle(is_inside)]
fn some_inside(
    parents: &Parents,
    store: &Store,
    parts: &[Id],
    object: &Object,
    upper: bool,
) -> Result<bool, AllocError>
    requires structures { parents.now ≡ structures_in store.now }
    requires parts { AllBelow (length (specifiers_in store.now)) parts.now }
    requires codes { HasCodes (codes_in store.now) (or_of (specifiers_of (specifiers_at (specifiers_in store.now) parts.now))) }
    ensures { IfOk result (Tells (structures_in store.now) upper
        (or_of (specifiers_of (specifiers_at (specifiers_in store.now) parts.now))) (lisp_object object.now)) }
{
    for part in parts {
        if is_inside(parents, store, *part, object, upper)? {
            return Ok(true);
        }
    }
    Ok(false)
}

/// The same of a CONS.
#[cycle(is_inside)]
fn is_pair_inside(
    parents: &Parents,
    store: &Store,
    car: Id,
    cdr: Id,
    object: &Object,
    upper: bool,
) -> Result<bool, AllocError>
    requires structures { parents.now ≡ structures_in store.now }
    requires car { car < length (specifiers_in store.now) }
    requires cdr { cdr < length (specifiers_in store.now) }
    requires car_codes { HasCodes (codes_in store.now) (at (specifiers_in store.now) car) }
    requires cdr_codes { HasCodes (codes_in store.now) (at (specifiers_in store.now) cdr) }
    ensures { IfOk result (Tells (structures_in store.now) upper
        (cons_of (at (specifiers_in store.now) car) (at (specifiers_in store.now) cdr)) (lisp_object object.now)) }
{
    let Shape::Pair(first, second) = &object.shape else {
        return Ok(false);
    };
    if !is_inside(parents, store, car, first.get(), upper)? {
        return Ok(false);
    }
    is_inside(parents, store, cdr, second.get(), upper)
}

/// Whether the object belongs to the specifier. The codes of the element types of its arrays were learnt.
fn ask(parents: &Parents, store: &Store, id: Id, object: &Object) -> Result<Belongs, AllocError>
    requires structures { parents.now ≡ structures_in store.now }
    requires id { id < length (specifiers_in store.now) }
    requires codes { HasCodes (codes_in store.now) (at (specifiers_in store.now) id) }
    ensures { IfOk result (IsRightAsked (structures_in store.now) (lisp_object object.now) (at (specifiers_in store.now) id)) }
{
    if is_inside(parents, store, id, object, false)? {
        return Ok(Belongs::Inside);
    }
    if is_inside(parents, store, id, object, true)? {
        return Ok(Belongs::Depends);
    }
    Ok(Belongs::Outside)
}

/// Whether the object belongs to the type, or TooLarge where that costs more than the budget. The codes of the element
/// types in the type are learnt first, which is all that it costs.
pub(crate) fn typep<L: Ledger>(
    alloc: Global,
    parents: &Parents,
    store: &mut Store,
    object: &Object,
    s: &Spec,
    budget: u64,
    steps: &mut Steps<L>,
) -> Result<Belongs, AllocError>
    requires structures { parents.now ≡ structures_in store.old }
    requires fits { Fits (structures_in store.old) (specifier s.now) }
    requires budget { budget ≤ 2 ^ 30 }
    ensures structures { structures_in store.new ≡ structures_in store.old }
    ensures right { IfOk result (IsRightMembership (structures_in store.old) (lisp_object object.now) (specifier s.now) budget) }
    ensures works { Works (type_lists (specifier s.now))
        (entries_in store.old) (entries_in store.new) steps.old steps.new }
    ensures cost { steps.new ≤ steps.old + type_cost (specifier s.now) }
    ensures done { IfOk result (HasAsked (type_lists (specifier s.now))
        (entries_in store.old) (entries_in store.new) steps.old steps.new) }
    ensures paid { IfOk result (λ answer. IsPaid (entries_in store.old) (entries_in store.new) steps.old steps.new) }
{
    // Its contract says that where a list is kept, so are those that it reaches.
    let _closed = store.table();
    let id = store.intern(s)?;
    let elements = elements_of(alloc, store.table(), &[id])?;
    if !learn_within(alloc, store, elements.as_slice(), budget, steps)? {
        return Ok(Belongs::TooLarge);
    }
    Ok(ask(parents, store, id, object)?)
}
