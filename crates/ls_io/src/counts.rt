ghost use Rattle.std.specs.Prelude.{◌≡◌};
ghost use Rattle.ls_io.specs.Causes.{raised};
ghost use Rattle.ls_io.specs.Mem.{is_next_failing};

/// Whether the call after so many calls is one that is to fail, where calls are numbered from 1.
pub(crate) fn is_next_failing(failing: &[u64], calls: u64) -> bool
    ensures { result ≡ is_next_failing failing.now calls }
{
    match calls.checked_add(1) {
        Some(number) => failing.contains(&number),
        None => false,
    }
}

/// The count raised by one. It stands still at its greatest value.
pub(crate) fn raised(count: u64) -> u64
    ensures { result ≡ raised count }
{
    count.saturating_add(1)
}
