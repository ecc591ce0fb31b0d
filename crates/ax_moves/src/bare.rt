//! Which subitems a compound has, by its presence field alone.
ghost use Rattle.std.specs.Prelude.{IsTrue, IfSome};
ghost use Rattle.ax_moves.specs.Bare.{HasNoneOf, HasOnly, IsBare};

use ax_codec::Node;
use ax_fspec::{Presence, read_presence};
use ax_walk::ItemView;

/// The slots of a compound's subitems, without a walk over these; None for another kind.
#[inline]
pub fn subitem_slots(item: &ItemView<'_, '_>) -> Option<Presence>
    ensures { IfSome result (HasOnly item.now) }
{
    let Node::Compound { mask, .. } = item.node() else {
        return None;
    };
    let mut marked = Presence::empty();
    match read_presence(mask, item.octets(), 0, &mut marked) {
        Ok(_) => Some(marked),
        Err(_) => None,
    }
}

/// Whether an item is a compound without subitems. Its canonical octets are one octet of 0 then, whatever moves.
#[inline]
pub fn is_bare(item: &ItemView<'_, '_>) -> bool
    ensures { IsTrue result → IsBare item.now }
{
    match subitem_slots(item) {
        Some(mut marked) => marked.take_first().is_none(),
        None => false,
    }
}

/// Whether an item is sure to be a compound without subitems in these slots.
#[inline]
pub fn has_none_of(item: &ItemView<'_, '_>, slots: &Presence) -> bool
    ensures { IsTrue result → HasNoneOf item.now slots.now }
{
    match subitem_slots(item) {
        Some(marked) => marked.common(slots).take_first().is_none(),
        None => false,
    }
}
