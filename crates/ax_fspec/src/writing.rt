//! The least presence field of a set of slots.

ghost use Rattle.std.specs.Prelude.{◌≤◌, length};
ghost use Rattle.ax_bits.specs.Out.{room, Appends};
ghost use Rattle.ax_fspec.specs.Fields.{least_field};

use crate::set::Presence;
use ax_bits::Out;

/// Appends the least presence field of a set: it ends with the octet of the last slot in the set, and has one octet for
/// the empty set.
pub fn write_presence(marked: &Presence, out: &mut Out<'_>)
    requires { length (least_field marked.now) ≤ room out.old }
    ensures { Appends out.old out.new (least_field marked.now) }
{
    let mut octet = 0;
    while marked.goes_on_after(octet) {
        out.push_octet(marked.octet(octet) << 1 | 1);
        octet += 1;
    }
    out.push_octet(marked.octet(octet) << 1);
}
