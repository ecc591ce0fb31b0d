//! What may stand after a verb.

/// The shape of the words after a verb. Rules, counts and what is read go by it alone.
#[derive(Clone, Copy)]
pub(crate) enum Shape {
    /// `SPEC`
    OneFile,
    /// One or more SPEC.
    Catalogue,
    /// `EXPR` and one or more SPEC.
    Expression,
    /// `OLD NEW`
    Editions,
    /// `SPEC EXPANSION`
    Expansion,
    /// `SPEC SEED COUNT`
    Numbers,
}
