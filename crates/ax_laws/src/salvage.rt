//! The laws of salvage. Each function stands for what its contract says.
ghost use Rattle.std.specs.Prelude.{◌≡◌, ℕ, ◌+◌, ◌<◌, List, length};
ghost use Rattle.std.specs.List.{AllByRecursion};
ghost use Rattle.ax_bits.specs.Bits.{AreOctets};
ghost use Rattle.ax_format.specs.Blocks.{IsFramed};
ghost use Rattle.ax_format.specs.Flaws.{NoFlaw};
ghost use Rattle.ax_format.specs.Framing.{RawTree};
ghost use Rattle.ax_format.specs.Specification.{SpecTree};
ghost use Rattle.ax_salvage.specs.Salvaged.{HasOneSalvage, WrittenOrReported};
ghost use Rattle.ax_salvage.specs.Tallying.{blocks_of, refused_of, written_of};
ghost use Rattle.ax_salvage.specs.Verdicts.{IsVerdict, Judged, Verdict, verdict_of};

/// Under specifications without flaw each input has exactly one salvage within a limit: one end, and one text on each output.
pub fn each_input_has_one_salvage()
    ensures { (catalogue : List SpecTree) (octets : List ℕ) (limit : ℕ) → AreOctets octets → AllByRecursion NoFlaw catalogue
        → HasOneSalvage catalogue octets limit }
{}

/// Under specifications without flaw each framed block whose body isn't empty has exactly one verdict: the one that is computed.
pub fn each_body_has_one_verdict()
    ensures some { (catalogue : List SpecTree) (raw : RawTree) (octets : List ℕ) → AllByRecursion NoFlaw catalogue
        → IsFramed raw.category raw.body octets → 0 < length raw.body → IsVerdict catalogue raw (verdict_of catalogue raw) }
    ensures one { (catalogue : List SpecTree) (raw : RawTree) (octets : List ℕ) (verdict : Verdict)
        → AllByRecursion NoFlaw catalogue → IsFramed raw.category raw.body octets → 0 < length raw.body
        → IsVerdict catalogue raw verdict → verdict ≡ verdict_of catalogue raw }
{}

/// A block is sound or has one fault, and not both. It is written as it came, or it is reported with its fault, exactly once:
/// the tallies of a category count each of its blocks, once.
pub fn each_block_is_written_or_reported()
    ensures verdict { (catalogue : List SpecTree) (raw : RawTree) (one other : Verdict) → IsVerdict catalogue raw one
        → IsVerdict catalogue raw other → one ≡ other }
    ensures once { (number : ℕ) (one : Judged) → WrittenOrReported number one }
    ensures counted { (category : ℕ) (blocks : List Judged)
        → written_of category blocks + refused_of category blocks ≡ blocks_of category blocks }
{}
