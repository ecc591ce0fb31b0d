//! Expressions as they are written.
use ax_format::Path;
use ax_lists::Sequence;

/// How two numbers compare.
#[derive(Clone, Copy)]
pub enum Op {
    Equal,
    Unequal,
    Less,
    LessOrEqual,
    Greater,
    GreaterOrEqual,
}

/// A path with its category, as `048/010/SAC`.
pub struct FullPath {
    pub category: u8,
    pub names: Path,
}

impl Drop for FullPath {
    fn drop(self) {
        let FullPath {
            category: _category,
            names: _names,
        } = self;
    }
}

/// Expressions in order.
pub type Exprs = Sequence<Expr>;

/// An expression, which holds or doesn't hold of a record.
#[derive(Drop)]
pub enum Expr {
    /// Each of them holds.
    All(Exprs),
    /// Some of them holds.
    Any(Exprs),
    /// It doesn't hold.
    Not(Box<Expr>),
    /// Something stands at the path.
    Present {
        path: FullPath,
    },
    /// The number that stands at the path compares so with this one.
    Is {
        path: FullPath,
        op: Op,
        number: i128,
    },
}
