// Dimensions that stand for all dimensions of a rank: every choice of a number of each column, or of one that no
// pattern names.

ghost use Rattle.std.specs.Prelude.{◌≡◌, ◌++◌, ◌∷◌, [], map, OnOk, IfOk};
ghost use Rattle.std.specs.List.{flat_map};
ghost use Rattle.ls_spec.specs.Limits.{dimension_limit};
ghost use Rattle.ls_arrays.specs.steps.Representatives.{tuples as tuples_of};

use ls_object::Items;
use ls_spec::DIMENSION_LIMIT;
use std::alloc::{AllocError, Global};

/// The number, and behind it the others.
fn before(alloc: Global, n: u64, rest: &[u64]) -> Result<Items<u64>, AllocError>
    ensures { IfOk result (λ t. t ≡ n ∷ rest.now) }
{
    let mut out = Items::new(alloc);
    out.push(n)?;
    for m in rest {
        out.push(*m)?;
    }
    Ok(out)
}

/// Appends each of the lists with the number before it.
fn push_each(
    alloc: Global,
    n: u64,
    rest: &[Items<u64>],
    out: &mut Items<Items<u64>>,
) -> Result<(), AllocError>
    ensures { OnOk result (out.new ≡ out.old ++ map (λ t. n ∷ t) rest.now) }
{
    for t in rest {
        out.push(before(alloc, n, t.as_slice())?)?;
    }
    Ok(())
}

/// Appends each of the lists with each of the numbers before it, and with one that no pattern names.
fn push_all(
    alloc: Global,
    numbers: &[u64],
    rest: &[Items<u64>],
    out: &mut Items<Items<u64>>,
) -> Result<(), AllocError>
    ensures { OnOk result (out.new ≡ out.old ++ flat_map (λ n. map (λ t. n ∷ t) rest.now) (numbers.now ++ dimension_limit ∷ [])) }
{
    for n in numbers {
        push_each(alloc, *n, rest, out)?;
    }
    push_each(alloc, DIMENSION_LIMIT, rest, out)?;
    Ok(())
}

/// Every choice of a number of each column, or of one that no pattern names.
pub(crate) fn tuples(alloc: Global, columns: &[Items<u64>]) -> Result<Items<Items<u64>>, AllocError>
    ensures { IfOk result (λ ts. ts ≡ tuples_of dimension_limit columns.now) }
{
    let mut out = Items::new(alloc);
    match columns {
        [] => {
            out.push(Items::new(alloc))?;
        }
        [numbers, rest @ ..] => {
            let behind = tuples(alloc, rest)?;
            push_all(alloc, numbers.as_slice(), behind.as_slice(), &mut out)?;
        }
    }
    Ok(out)
}
