//! Octets of a known room, so that they are copied quickly.
ghost use Rattle.std.specs.Prelude.{◌≡◌, ◌≤◌, length};

/// The octets that there is room for.
pub(crate) const LITERAL_ROOM: usize = 32;

/// Octets that are printed as they are, at most 32.
#[derive(Clone, Copy)]
pub struct TemplateLiteral {
    /// The octets, and any others after them: a copy of a known length is quick.
    pub octets: [u8; 32],
    /// How many of them count.
    pub count: usize,
    ghost whole: { length octets ≡ 32 },
    ghost fits: { count ≤ 32 },
}
