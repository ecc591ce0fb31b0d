//! Positions in a body, at which what is shown begins.
ghost use Rattle.std.specs.Prelude.{◌*◌, ◌≤◌, length};
ghost use Rattle.ax_format.specs.Sizes.{longest_body};

/// An octet of a body, told from 0, or its end.
#[derive(Clone, Copy)]
pub(crate) struct OctetPosition<'b> {
    pub(crate) body: &'b [u8],
    pub(crate) at: u32,
    pub(crate) ghost short: { length body.now ≤ longest_body },
    pub(crate) ghost within: { at ≤ length body.now },
}

/// A bit of a body, told from 0, the highest of the first octet first, or its end.
#[derive(Clone, Copy)]
pub(crate) struct BitPosition<'b> {
    pub(crate) body: &'b [u8],
    pub(crate) at: u32,
    pub(crate) ghost short: { length body.now ≤ longest_body },
    pub(crate) ghost within: { at ≤ 8 * length body.now },
}
