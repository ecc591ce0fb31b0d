/// Why a body spells no records. The first fault of a body is its only one.
#[derive(Clone, Copy, Debug, PartialEq, Eq)]
pub enum BodyCause {
    /// A presence octet, a counter, a length octet, a fixed run, a part or an occurrence with its FX, or an
    /// explicit content doesn't fit in what is left.
    RunsOut,
    /// A presence bit is set whose slot is spare or past the last.
    UndefinedSlot,
    /// FX is set in the last presence octet that the slots need.
    PresenceTooLong,
    /// FX is set in the last part that the specification has.
    ExtensionPastEnd,
    /// A length octet, which counts itself, is 0.
    BadExplicitLength,
}

/// The first fault of a body: its cause, and its bit counted from 0 at the body's first bit.
#[derive(Clone, Copy, Debug, PartialEq, Eq)]
pub struct BodyFault {
    pub cause: BodyCause,
    pub bit: u32,
}
