// Lists of distinct numbers.

ghost use Rattle.std.specs.Prelude.{◌≡◌, OnOk};
ghost use Rattle.ls_lists.specs.Candidates.{with_number};
ghost use Rattle.ls_arrays.specs.steps.Representatives.{has, with_name};

use ls_object::Items;
use std::alloc::AllocError;

/// Whether the number is in the list.
fn is_in(list: &[u64], n: u64) -> bool
    ensures { result ≡ has list.now n }
{
    list.iter().any(|m| n == *m)
}

/// Adds a number behind the others, unless it is there.
pub(crate) fn push_new(list: &mut Items<u64>, n: u64) -> Result<(), AllocError>
    ensures { OnOk result (list.new ≡ with_number list.old n) }
{
    if is_in(list.as_slice(), n) {
        return Ok(());
    }
    list.push(n)
}

/// Adds the number, if there is one, behind the others, unless it is there.
pub(crate) fn push_named(list: &mut Items<u64>, name: Option<u64>) -> Result<(), AllocError>
    ensures { OnOk result (list.new ≡ with_name list.old name) }
{
    match name {
        None => Ok(()),
        Some(n) => push_new(list, n),
    }
}
