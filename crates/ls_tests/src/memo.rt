// Kept results: keys are lists of numbers, and their order counts.

use ls_memo::Memo;
use ls_object::Items;
use std::alloc::{AllocError, Global};

/// The numbers as a list.
fn list(alloc: Global, numbers: &[usize]) -> Result<Items<usize>, AllocError> {
    let mut out = Items::new(alloc);
    for number in numbers {
        out.push(*number)?;
    }
    Ok(out)
}

/// Keeps a value for the numbers, if none is kept for them yet.
fn keep(
    alloc: Global,
    memo: &mut Memo<u64>,
    numbers: &[usize],
    value: u64,
) -> Result<(), AllocError> {
    let key = list(alloc, numbers)?;
    if memo.get(key.as_slice()).is_none() {
        memo.put(key, value)?;
    }
    Ok(())
}

/// A memo of some lists, the last of which is there already.
fn some_lists(alloc: Global) -> Result<Memo<u64>, AllocError> {
    let mut memo = Memo::new(alloc);
    keep(alloc, &mut memo, &[1, 2], 12)?;
    keep(alloc, &mut memo, &[2, 1], 21)?;
    keep(alloc, &mut memo, &[], 0)?;
    keep(alloc, &mut memo, &[1], 1)?;
    keep(alloc, &mut memo, &[1, 2], 99)?;
    Ok(memo)
}

/// A memo of the lists of n and its double, for each n below the count.
fn many_lists(alloc: Global, count: u32) -> Result<Memo<u64>, AllocError> {
    let mut memo = Memo::new(alloc);
    for n in 0..count {
        keep(
            alloc,
            &mut memo,
            &[n as usize, 2 * n as usize],
            u64::from(n),
        )?;
    }
    Ok(memo)
}

/// Lists of numbers, and what is kept for them.
const KEPT: [(&[usize], Option<u64>); 7] = [
    (&[1, 2], Some(12)),
    (&[2, 1], Some(21)),
    (&[], Some(0)),
    (&[1], Some(1)),
    (&[2], None),
    (&[1, 2, 1], None),
    (&[0], None),
];

#[test]
fn values_are_kept_by_lists(rt: HostRuntime) -> Result<(), std::test::Fail> {
    let memo = some_lists(rt.alloc())?;
    assert_eq!(rt; memo.len(), 4);
    for (key, want) in KEPT {
        assert_eq!(rt; memo.get(key).copied(), want, "at {key:?}");
    }
    let memo = many_lists(rt.alloc(), 5000)?;
    assert_eq!(rt; memo.len(), 5000);
    assert_eq!(rt; memo.get(&[4999, 9998]).copied(), Some(4999));
    assert_eq!(rt; memo.get(&[9998, 4999]).copied(), None);
    Ok(())
}
