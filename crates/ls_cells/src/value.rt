// Specifiers by number as formulas over a list of atoms.

ghost use Rattle.std.specs.Prelude.{◌≡◌, ◌<◌, length, IfOk, None};
ghost use Rattle.ls_intern.specs.Places.{at, specifiers_at, node_specifier, AllBelow};
ghost use Rattle.ls_sides.specs.Nodes.{node_branches};
ghost use Rattle.ls_cells.specs.Values.{IsFormulaOf, AreFormulasOf};

use crate::formula::Formula;
use ls_intern::{Id, Node, Table};
use ls_object::{Boxed, Items};
use ls_sides::Ids;
use std::alloc::{AllocError, Global};

/// A specifier as a formula over the atoms: each of its leaves by its place among them. A leaf that is not among them
/// is NIL. An error comes for want of memory.
#[cycle(formula_of)]
pub(crate) fn formula_of(
    alloc: Global,
    table: &Table,
    atoms: &Ids,
    id: Id,
) -> Result<Formula, AllocError>
    requires { id < length table.now }
    ensures { IfOk result (IsFormulaOf (specifiers_at table.now atoms.now) (at table.now id)) }
{
    let node = table.node(id);
    match node {
        Node::All => Ok(Formula::All),
        Node::Nothing => Ok(Formula::Nothing),
        Node::And(parts) => {
            let parts = formulas_of(alloc, table, atoms, parts.as_slice())?;
            Ok(Formula::And(parts))
        }
        Node::Or(parts) => {
            let parts = formulas_of(alloc, table, atoms, parts.as_slice())?;
            Ok(Formula::Or(parts))
        }
        Node::Not(part) => {
            let part = formula_of(alloc, table, atoms, *part)?;
            Ok(Formula::Not(Boxed::new(alloc, part)?))
        }
        Node::Eql(_) => Ok(formula_of_atom(table, atoms, id, node)),
        Node::Range {
            kind: _,
            lo: _,
            hi: _,
        } => Ok(formula_of_atom(table, atoms, id, node)),
        Node::Chars(_) => Ok(formula_of_atom(table, atoms, id, node)),
        Node::Symbols(_) => Ok(formula_of_atom(table, atoms, id, node)),
        Node::Kind(_) => Ok(formula_of_atom(table, atoms, id, node)),
        Node::StructIs(_) => Ok(formula_of_atom(table, atoms, id, node)),
        Node::StructAny => Ok(formula_of_atom(table, atoms, id, node)),
        Node::ArrayOf {
            elem: _,
            simple: _,
            dims: _,
        } => Ok(formula_of_atom(table, atoms, id, node)),
        Node::StringOf { simple: _, dim: _ } => Ok(formula_of_atom(table, atoms, id, node)),
        Node::ConsOf(_, _) => Ok(formula_of_atom(table, atoms, id, node)),
        Node::Satisfies(_) => Ok(formula_of_atom(table, atoms, id, node)),
    }
}

// The formulas of several specifiers, in order.
#[cycle(formula_of)]
fn formulas_of(
    alloc: Global,
    table: &Table,
    atoms: &Ids,
    ids: &[Id],
) -> Result<Items<Formula>, AllocError>
    requires { AllBelow (length table.now) ids.now }
    ensures { IfOk result (AreFormulasOf (specifiers_at table.now atoms.now) (specifiers_at table.now ids.now)) }
{
    let mut formulas = Items::new(alloc);
    for id in ids {
        let formula = formula_of(alloc, table, atoms, *id)?;
        formulas.push(formula)?;
    }
    Ok(formulas)
}

// The formula of an atom: its place.
fn formula_of_atom(table: &Table, atoms: &Ids, id: Id, node: &Node) -> Formula
    requires id { id < length table.now }
    requires says { node_specifier table.now node.now ≡ at table.now id }
    requires atom { node_branches node.now ≡ None }
    ensures { IsFormulaOf (specifiers_at table.now atoms.now) (at table.now id) result }
{
    // Its contract says that no specifier stands twice, so an atom is found by its number.
    let _distinct = table.len();
    match atoms.place(id) {
        None => Formula::Nothing,
        Some(place) => Formula::Atom(place),
    }
}
