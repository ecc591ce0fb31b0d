//! Runs of bits of a body.
ghost use Rattle.std.specs.Prelude.{◌+◌, ◌*◌, ◌≤◌, length};
ghost use Rattle.ax_format.specs.Sizes.{longest_body};

/// Some bits of a body: `width` of them, from bit `at` on, told from 0.
#[derive(Clone, Copy)]
pub(crate) struct BitRun<'b> {
    pub(crate) body: &'b [u8],
    pub(crate) at: u32,
    pub(crate) width: u32,
    pub(crate) ghost short: { length body.now ≤ longest_body },
    pub(crate) ghost within: { at + width ≤ 8 * length body.now },
}
