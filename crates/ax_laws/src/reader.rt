//! That the reader and the definitions say the same. Each function stands for what its contract says.
ghost use Rattle.std.specs.Prelude.{ℕ, List};
ghost use Rattle.ax_format.specs.InBounds.{InBounds};
ghost use Rattle.ax_format.specs.Tree.{KindTree, ValueTree};
ghost use Rattle.ax_format.specs.declared.fault.BodyFault.{BodyFault};
ghost use Rattle.ax_fspec.specs.Reading.{Gets, FailsAt, kind_read, IsSpelledAt, IsFaultAt};

/// A value is read between two octets exactly where these octets spell it.
pub fn reads_what_is_spelled()
    ensures spelled { (k : KindTree) (body : List ℕ) (at end : ℕ) (v : ValueTree) → InBounds k
        → Gets (kind_read k body at) body at end v → IsSpelledAt k body at end v }
    ensures read { (k : KindTree) (body : List ℕ) (at end : ℕ) (v : ValueTree) → IsSpelledAt k body at end v
        → Gets (kind_read k body at) body at end v }
{}

/// Reading meets a fault exactly where what is left of the body fails with it.
pub fn fails_where_nothing_is_spelled()
    ensures fails { (k : KindTree) (body : List ℕ) (at : ℕ) (fault : BodyFault) → InBounds k
        → FailsAt (kind_read k body at) at fault → IsFaultAt k body at fault }
    ensures read { (k : KindTree) (body : List ℕ) (at : ℕ) (fault : BodyFault) → IsFaultAt k body at fault
        → FailsAt (kind_read k body at) at fault }
{}
