// The atoms of a list of specifiers by number, and the cars and cdrs of its conses.

ghost use Rattle.std.specs.Prelude.{◌≡◌, ◌<◌, [], ◌∷◌, length, IfOk, OnOk};
ghost use Rattle.ls_spec.specs.Atoms.{leaves, atoms_of as atoms_of_list};
ghost use Rattle.ls_spec.specs.Distinct.{distinct};
ghost use Rattle.ls_lists.specs.Sides.{car_of, cdr_of};
ghost use Rattle.ls_intern.specs.Places.{at, specifiers_at, AllBelow};
ghost use Rattle.ls_sides.specs.Gathering.{Gathers, AreSides};

use crate::ids::Ids;
use crate::node::{branches, cons_sides};
use ls_intern::{Id, Table};
use std::alloc::{AllocError, Global};

/// The distinct atoms of a list, and the distinct cars and cdrs of its conses.
#[derive(Drop)]
pub struct Sides {
    pub atoms: Ids,
    pub cars: Ids,
    pub cdrs: Ids,
}

/// Puts a specifier in, if it isn't there.
pub fn add(table: &Table, id: Id, out: &mut Ids) -> Result<(), AllocError>
    requires id { id < length table.now }
    requires out { AllBelow (length table.now) out.old }
    ensures { OnOk result (Gathers table.now out.old out.new (at table.now id ∷ [])) }
{
    let _distinct = table.len();
    out.push(id)
}

/// The first specifier and the others, each once.
pub fn distinct_of(
    alloc: Global,
    table: &Table,
    first: Id,
    others: &[Id],
) -> Result<Ids, AllocError>
    requires first { first < length table.now }
    requires others { AllBelow (length table.now) others.now }
    ensures below { IfOk result (λ ids. AllBelow (length table.now) ids) }
    ensures are { IfOk result (λ ids. specifiers_at table.now ids ≡ distinct (at table.now first ∷ specifiers_at table.now others.now)) }
{
    let mut out = Ids::new(alloc);
    add(table, first, &mut out)?;
    for id in others {
        add(table, *id, &mut out)?;
    }
    Ok(out)
}

/// Puts in the leaves of a specifier that are not there.
fn add_leaves(table: &Table, id: Id, out: &mut Ids) -> Result<(), AllocError>
    requires id { id < length table.now }
    requires out { AllBelow (length table.now) out.old }
    ensures { OnOk result (Gathers table.now out.old out.new (leaves (at table.now id))) }
{
    match branches(table.node(id)) {
        None => add(table, id, out),
        Some(parts) => {
            for part in parts {
                add_leaves(table, *part, out)?;
            }
            Ok(())
        }
    }
}

/// The atoms of a list.
fn atoms_of(alloc: Global, table: &Table, list: &[Id]) -> Result<Ids, AllocError>
    requires { AllBelow (length table.now) list.now }
    ensures below { IfOk result (λ ids. AllBelow (length table.now) ids) }
    ensures are { IfOk result (λ ids. specifiers_at table.now ids ≡ atoms_of_list (specifiers_at table.now list.now)) }
{
    let mut out = Ids::new(alloc);
    for id in list {
        add_leaves(table, *id, &mut out)?;
    }
    Ok(out)
}

/// Puts in the car and the cdr of a CONS that are not there.
fn add_sides(table: &Table, id: Id, cars: &mut Ids, cdrs: &mut Ids) -> Result<(), AllocError>
    requires id { id < length table.now }
    requires cars { AllBelow (length table.now) cars.old }
    requires cdrs { AllBelow (length table.now) cdrs.old }
    ensures cars { OnOk result (Gathers table.now cars.old cars.new (car_of (at table.now id))) }
    ensures cdrs { OnOk result (Gathers table.now cdrs.old cdrs.new (cdr_of (at table.now id))) }
{
    match cons_sides(table.node(id)) {
        None => Ok(()),
        Some((car, cdr)) => {
            add(table, car, cars)?;
            add(table, cdr, cdrs)
        }
    }
}

/// The atoms, cars and cdrs of a list.
pub fn sides_of(alloc: Global, table: &Table, list: &[Id]) -> Result<Sides, AllocError>
    requires { AllBelow (length table.now) list.now }
    ensures { IfOk result (λ s. AreSides table.now (specifiers_at table.now list.now) s.atoms s.cars s.cdrs) }
{
    let atoms = atoms_of(alloc, table, list)?;
    let mut cars = Ids::new(alloc);
    let mut cdrs = Ids::new(alloc);
    for id in atoms.as_slice() {
        add_sides(table, *id, &mut cars, &mut cdrs)?;
    }
    Ok(Sides { atoms, cars, cdrs })
}
