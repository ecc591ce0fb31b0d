use ax_lists::Sequence;

/// The steps from an item down to a place inside it. A step is a slot number from 1 in a compound, a member
/// number from 0 in a group, and a part number from 0 followed by a member number in an extended item, closed or not.
/// No step leads into an occurrence or into an explicit item.
pub type Steps = Sequence<u32>;

/// Where a named datum stands in a specification: its item's field reference number, and the steps inside it.
pub struct Place {
    pub frn: u32,
    pub steps: Steps,
}

impl Drop for Place {
    fn drop(self) {
        let Place {
            frn: _frn,
            steps: _steps,
        } = self;
    }
}
