//! The form of a presence field.

/// The form of the presence field of a content.
#[derive(Clone, Copy, Debug, PartialEq, Eq)]
pub enum Form {
    /// Seven marks in each octet, and an FX bit that is 1 where another octet follows: as a compound's.
    Fx,
    /// That many octets of eight marks each. A file has 1 to 15 of them.
    Fixed(u32),
}
