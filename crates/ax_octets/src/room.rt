//! Room for octets that are written at a place, as it grows.
ghost use Rattle.std.specs.Prelude.{◌≡◌, ◌+◌, ◌*◌, ◌≤◌, ◌⊎◌, length, take, max, OnOk};

use std::alloc::AllocError;

/// The least room that is made at once.
const LEAST_ROOM: usize = 256;

/// Sees to room for `more` octets after the first `filled`, which stay. Room that is enough stays as it is. Room that is made
/// is at most twice what is needed, and 256 octets. Err is want of memory.
#[inline(always)]
pub fn make_room(area: &mut Vec<u8>, filled: usize, more: usize) -> Result<(), AllocError>
    requires { filled ≤ length area.old.items }
    ensures enough { OnOk result (filled + more ≤ length area.new.items) }
    ensures stays { take filled area.new.items ≡ take filled area.old.items }
    ensures within { filled ≤ length area.new.items }
    ensures kept { filled + more ≤ length area.old.items → length area.new.items ≡ length area.old.items }
    ensures room { OnOk result ((length area.new.items ≡ length area.old.items) ⊎ (length area.new.items ≤ 2 * (filled + more) + 256)) }
{
    if area.len() - filled >= more {
        return Ok(());
    }
    lengthen(area, more)
}

/// Makes room for `more` octets or for as many again as there were, whichever is more, but for 256 at least.
#[cold]
#[inline(never)]
pub(crate) fn lengthen(area: &mut Vec<u8>, more: usize) -> Result<(), AllocError>
    ensures longer { OnOk result (length area.old.items + more ≤ length area.new.items) }
    ensures stays { take (length area.old.items) area.new.items ≡ area.old.items }
    ensures within { length area.old.items ≤ length area.new.items }
    ensures room { OnOk result (length area.new.items ≡ length area.old.items + max more (max (length area.old.items) 256)) }
{
    let length = area.len();
    let more = more.max(length).max(LEAST_ROOM);
    if more > usize::MAX - length {
        return Err(AllocError);
    }
    area.resize(length + more, 0)
}
