//! When octets only run out. The functions stand for what their contracts say.
ghost use Rattle.std.specs.Prelude.{◌≡◌, ℕ, ◌↔◌, List, ◌++◌};
ghost use Rattle.ax_bits.specs.Bits.{bits, AreOctets};
ghost use Rattle.ax_format.specs.Bodies.{FailsBody, FailsRecord};
ghost use Rattle.ax_format.specs.Failing.{Fails};
ghost use Rattle.ax_format.specs.Flaws.{NoFlaw};
ghost use Rattle.ax_format.specs.InBounds.{InBounds};
ghost use Rattle.ax_format.specs.Specification.{SpecTree};
ghost use Rattle.ax_format.specs.Tree.{KindTree};
ghost use Rattle.ax_format.specs.declared.fault.BodyCause.{BodyCause};
ghost use Rattle.ax_format.specs.declared.fault.BodyCause.TheVariants.{RunsOut};
ghost use Rattle.ax_fspec.specs.Honest.{SpellRecords, BeginWithValue, BeginWithRecord};

/// Octets that fail fail with RunsOut exactly where some octets can be put after them so that all of them are spelled: as records of
/// a body, as octets that begin with a record, and as octets that begin with a value of a kind.
pub fn octets_run_out_where_more_complete_them()
    ensures of_body { (spec : SpecTree) (octets : List ℕ) (p : ℕ) (c : BodyCause) → NoFlaw spec → FailsBody spec (bits octets) p c
        → c ≡ RunsOut ↔ ((more : List ℕ) × AreOctets more × SpellRecords spec (bits (octets ++ more))) }
    ensures of_record { (spec : SpecTree) (octets : List ℕ) (p : ℕ) (c : BodyCause) → NoFlaw spec
        → FailsRecord spec (bits octets) p c
        → c ≡ RunsOut ↔ ((more : List ℕ) × AreOctets more × BeginWithRecord spec (bits (octets ++ more))) }
    ensures of_kind { (k : KindTree) (octets : List ℕ) (p : ℕ) (c : BodyCause) → InBounds k → Fails k (bits octets) p c
        → c ≡ RunsOut ↔ ((more : List ℕ) × AreOctets more × BeginWithValue k (bits (octets ++ more))) }
{}
