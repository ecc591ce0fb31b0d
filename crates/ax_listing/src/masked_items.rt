//! The items of records, with the mask that their presence fields are read by.
use ax_fspec::SlotMask;
use ax_held_kinds::HeldItems;

/// What is held of the items of a specification, and the mask of the slots of its UAP.
#[derive(Clone, Copy)]
pub(crate) struct MaskedItems<'u, 'c> {
    pub(crate) items: &'u HeldItems<'c>,
    pub(crate) mask: &'u SlotMask,
}
