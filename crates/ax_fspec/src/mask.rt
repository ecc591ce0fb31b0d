//! The slots that a specification defines.

ghost use Rattle.std.specs.Prelude.{◌≤◌, IsTrue, drop};
ghost use Rattle.ax_format.specs.Presence.{none_marked};

use crate::set::Presence;

/// The slots of a presence field: those from 1 to the count, of which some are defined and the others spare.
#[derive(Clone, Copy)]
pub struct SlotMask {
    /// How many slots there are, 1 to 126.
    pub count: u32,
    /// The slots that aren't spare.
    pub defined: Presence,
    ghost some: { 1 ≤ count },
    ghost few: { count ≤ 126 },
    ghost within: { IsTrue (none_marked (drop count defined)) },
}
