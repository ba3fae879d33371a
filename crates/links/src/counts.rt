//! Counts that rise, and calls that are told to fail.
ghost use Rattle.std.specs.Prelude.{◌≡◌, ◌≤◌};
ghost use Rattle.links.specs.Counts.{is_failing, raised};

/// Counts one more; a full count stays.
pub fn raise(count: &mut u64)
    ensures risen { count.new ≡ raised count.old }
    ensures later { count.old ≤ count.new }
{
    let now = *count;
    *count = now.saturating_add(1);
}

/// Whether this call is one of those that fail. It is counted.
pub fn fails_now(calls: &mut u64, fails: &[u64]) -> bool
    ensures failing { result ≡ is_failing fails.now calls.old }
    ensures counted { calls.new ≡ raised calls.old }
{
    let now = *calls;
    raise(calls);
    fails.contains(&now)
}
