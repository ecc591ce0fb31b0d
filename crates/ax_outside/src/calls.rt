//! The numbers of the calls of a form in memory.
ghost use Rattle.std.specs.Prelude.{◌≡◌};
ghost use Rattle.ax_outside.specs.Memory.{is_listed};

/// Whether the call is one of those.
pub fn is_listed(calls: &[u64], call: u64) -> bool
    ensures { result ≡ is_listed calls.now call }
{
    calls.contains(&call)
}
