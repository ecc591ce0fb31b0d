//! Canonical spellings of single values.
ghost use Rattle.std.specs.Prelude.{◌≡◌, ◌*◌, ◌≤◌, false, length};
ghost use Rattle.ax_bits.specs.Out.{room, Appends};
ghost use Rattle.ax_format.specs.Canonical.{canon};
ghost use Rattle.ax_walk.specs.Shown.{item_kind, item_value};

use crate::rewrite::{CompoundSlots, CountedKind, rewrite_compound, rewrite_counted};
use ax_bits::Out;
use ax_codec::{Codec, Node};
use ax_walk::ItemView;

/// Appends the canonical spelling of the value of an item, which was found under that codec. An occurrence by FX is no such
/// item.
pub fn canonical_item(codec: &Codec, item: &ItemView<'_, '_>, out: &mut Out<'_>)
    requires codec { item.now.codec.now ≡ codec.now }
    requires whole { item.now.by_fx ≡ false }
    requires room { 8 * length item.now.body.now ≤ room out.old }
    ensures { Appends out.old out.new (canon (item_kind item.now) (item_value item.now)) }
{
    let nodes = codec.nodes.as_slice();
    match item.node() {
        Node::Counted { counter, inner } => {
            let kind = CountedKind {
                counter: *counter,
                inner: *inner,
            };
            rewrite_counted(nodes, kind, item.octets(), 0, out);
        }
        Node::Compound { mask, slots } => {
            let links = slots.as_slice();
            let slots = CompoundSlots { mask, links };
            rewrite_compound(nodes, slots, item.octets(), 0, out);
        }
        _ => out.push_octets(item.octets()),
    }
}
