ghost use Rattle.std.specs.Prelude.{◌≡◌, All, length, IfOk, MatchOption};
ghost use Rattle.std.specs.List.{list_all, list_any};
ghost use Rattle.ls_cells.specs.Signs.{tabulate};
ghost use Rattle.ls_cells.specs.Formulas.{holds_at, row_at, NoneOutside, IsOutside};

use crate::signs::Signs;
use ls_object::{Boxed, Items};
use std::alloc::{AllocError, Global};

/// A specifier over a list of atoms. An atom is named by its place in the list, so that no atom is looked for at
/// each row.
#[derive(Drop)]
pub enum Formula {
    /// T.
    All,
    /// NIL.
    Nothing,
    /// AND: each part holds.
    And(Items<Formula>),
    /// OR: some part holds.
    Or(Items<Formula>),
    /// NOT: the part does not hold.
    Not(Boxed<Formula>),
    /// The atom at a place.
    Atom(usize),
}

/// The value of a formula at each of `count` rows. Column i has the value of atom i at each row; an atom past the
/// columns holds nowhere. An error comes for want of memory.
#[cycle(evaluate)]
pub fn evaluate(
    alloc: Global,
    formula: &Formula,
    columns: &[Signs],
    count: usize,
) -> Result<Signs, AllocError>
    requires { All (λ c. length c ≡ count) columns.now }
    ensures { IfOk result (λ out. out ≡ tabulate count (λ j. holds_at formula.now (row_at columns.now j))) }
{
    match formula {
        Formula::All => Signs::interval(alloc, count, 0, count),
        Formula::Nothing => Signs::interval(alloc, count, 0, 0),
        Formula::And(parts) => evaluate_all(alloc, parts.as_slice(), columns, count),
        Formula::Or(parts) => evaluate_any(alloc, parts.as_slice(), columns, count),
        Formula::Not(part) => {
            let mut out = evaluate(alloc, part.get(), columns, count)?;
            out.negate();
            Ok(out)
        }
        Formula::Atom(i) => {
            if *i < columns.len() {
                return columns[*i].copy();
            }
            Signs::interval(alloc, count, 0, 0)
        }
    }
}

/// A row at which the first formula holds and the second does not. None exactly where the second holds at each row
/// at which the first does. An error comes for want of memory.
pub fn row_outside(
    alloc: Global,
    a: &Formula,
    b: &Formula,
    columns: &[Signs],
    count: usize,
) -> Result<Option<usize>, AllocError>
    requires { All (λ c. length c ≡ count) columns.now }
    ensures { IfOk result (λ place. MatchOption place
        (NoneOutside a.now b.now columns.now count)
        (IsOutside a.now b.now columns.now count)) }
{
    let inside = evaluate(alloc, a, columns, count)?;
    let allowed = evaluate(alloc, b, columns, count)?;
    Ok(inside.place_outside(&allowed))
}

// The rows at which each part holds.
#[cycle(evaluate)]
fn evaluate_all(
    alloc: Global,
    parts: &[Formula],
    columns: &[Signs],
    count: usize,
) -> Result<Signs, AllocError>
    requires { All (λ c. length c ≡ count) columns.now }
    ensures { IfOk result
        (λ out. out ≡ tabulate count (λ j. list_all (λ p. holds_at p (row_at columns.now j)) parts.now)) }
{
    let mut out = Signs::interval(alloc, count, 0, count)?;
    for part in parts {
        let column = evaluate(alloc, part, columns, count)?;
        out.and_with(&column);
    }
    Ok(out)
}

// The rows at which some part holds.
#[cycle(evaluate)]
fn evaluate_any(
    alloc: Global,
    parts: &[Formula],
    columns: &[Signs],
    count: usize,
) -> Result<Signs, AllocError>
    requires { All (λ c. length c ≡ count) columns.now }
    ensures { IfOk result
        (λ out. out ≡ tabulate count (λ j. list_any (λ p. holds_at p (row_at columns.now j)) parts.now)) }
{
    let mut out = Signs::interval(alloc, count, 0, 0)?;
    for part in parts {
        let column = evaluate(alloc, part, columns, count)?;
        out.or_with(&column);
    }
    Ok(out)
}
