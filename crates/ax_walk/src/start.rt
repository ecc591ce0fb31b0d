//! Where a value begins in a body.
ghost use Rattle.std.specs.Prelude.{◌+◌, ◌≤◌, length};
ghost use Rattle.ax_bits.specs.Bits.{AreOctets};
ghost use Rattle.ax_format.specs.Sizes.{longest_body};

/// A body, and the octet in it at which a value is to begin, from 0; at the body's end no octet is left for one.
#[derive(Clone, Copy)]
pub(crate) struct Start<'a> {
    pub(crate) body: &'a [u8],
    pub(crate) at: u32,
    ghost few: { length body.now ≤ longest_body },
    ghost within: { at ≤ length body.now },
}

/// The octets of a presence field, so many, from its start on.
#[derive(Clone, Copy)]
pub(crate) struct Field<'a> {
    pub(crate) start: Start<'a>,
    pub(crate) octets: u32,
    ghost there: { start.at + octets ≤ length start.body.now },
}

/// Does nothing: it says that a body's items are octets, where a proof has the body in a struct alone.
#[inline(always)]
pub(crate) fn are_octets(octets: &[u8])
    ensures { AreOctets octets.now }
{}
