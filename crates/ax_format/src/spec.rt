use crate::kind::Kind;
use crate::name::Name;
use crate::text::Text;
use ax_lists::Sequence;

/// An item of a category: its name, its title, which may be empty, and its kind.
pub struct Item {
    pub name: Name,
    pub title: Text,
    pub kind: Kind,
}

impl Drop for Item {
    fn drop(self) {
        let Item {
            name: _name,
            title: _title,
            kind: _kind,
        } = self;
    }
}

/// The items of a category, in the file's order.
pub type Items = Sequence<Item>;

/// A slot of the user application profile.
#[derive(Drop)]
pub enum UapSlot {
    Spare,
    Item(Name),
}

/// The slots of the user application profile, in order; the first has the field reference number 1.
pub type UapSlots = Sequence<UapSlot>;

/// The specification of one category, as its file gives it.
pub struct Spec {
    pub category: u8,
    pub edition: Text,
    pub items: Items,
    pub uap: UapSlots,
}

impl Drop for Spec {
    fn drop(self) {
        let Spec {
            category: _category,
            edition: _edition,
            items: _items,
            uap: _uap,
        } = self;
    }
}
