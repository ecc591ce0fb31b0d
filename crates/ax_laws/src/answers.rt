//! The laws of answers. Each function stands for what its contract says.

ghost use Rattle.std.specs.Prelude.{◌≡◌, ℕ, List};
ghost use Rattle.ax_bits.specs.Bits.{AreOctets};
ghost use Rattle.ax_command.specs.declared.outcome.Outcome.{Outcome};
ghost use Rattle.ax_endpoints.specs.Files.{File};
ghost use Rattle.ax_app.specs.Answer.{Answer};

/// The words, the files and the input determine the outcome, what is written and what is reported.
pub fn one_answer()
    ensures { (words : List (List ℕ)) (files : List File) (input : List ℕ) (outcome other : Outcome) (written others reported more : List ℕ) →
        Answer words files input outcome written reported → Answer words files input other others more
        → (outcome ≡ other) × (written ≡ others) × (reported ≡ more) }
{}

/// Any words, any files and any input of octets have an outcome, with what is written and what is reported.
pub fn some_answer()
    ensures { (words : List (List ℕ)) (files : List File) (input : List ℕ) → AreOctets input
        → (outcome : Outcome) × (written : List ℕ) × (reported : List ℕ) × Answer words files input outcome written reported }
{}
