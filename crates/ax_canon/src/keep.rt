//! What decides which records are kept.
ghost use Rattle.std.specs.Prelude.{◌≡◌, Bool, true};
ghost use Rattle.std.specs.Borrow.{Bor};
ghost use Rattle.std.specs.Fn.{FnReturnsAt};
ghost use Rattle.ax_walk.specs.declared.record.RecordView.{RecordView};

use ax_walk::RecordView;

/// What decides of each record whether it is kept. It may remember what it found of those before.
pub trait Keep {
    // Which views it may be asked about.
    ghost may: { Self → Bor RecordView → Type 0 };

    // Its answer to a view.
    ghost says: { Self → RecordView → Bool → Type 0 };

    /// Whether a record is kept.
    fn keeps(&mut self, one: &RecordView<'_, '_>) -> bool
        requires may { may self.old one }
        ensures says { says self.old one.now result }
        ensures still_may { (another : Bor RecordView) → may self.old another → may self.new another }
        ensures still_says { (another : RecordView) (answer : Bool) → says self.new another answer → says self.old another answer };
}

/// Keeps the records for which a call answers true.
#[derive(Drop)]
pub(crate) struct ByCall<F: Fn(&RecordView<'_, '_>) -> bool> {
    pub(crate) call: F,
}

impl<F: Fn(&RecordView<'_, '_>) -> bool> Keep for ByCall<F> {
    ghost may = { λ s one. F.pre s.call one };

    ghost says = { λ s one answer. FnReturnsAt F.Fn s.call one answer };

    #[inline(always)]
    fn keeps(&mut self, one: &RecordView<'_, '_>) -> bool {
        (self.call)(one)
    }
}

/// Keeps each record.
#[derive(Drop)]
pub(crate) struct Each;

impl Keep for Each {
    ghost may = { λ s one. Unit {0} };

    ghost says = { λ s one answer. answer ≡ true };

    #[inline(always)]
    fn keeps(&mut self, _one: &RecordView<'_, '_>) -> bool {
        true
    }
}
