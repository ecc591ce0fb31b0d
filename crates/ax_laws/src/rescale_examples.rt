//! Worked examples of conversion. Each function stands for what its contract says.
ghost use Rattle.std.specs.Prelude.{◌≡◌, true, false, codes};
ghost use Rattle.ax_format.specs.declared.content.Sign.TheVariants.{Unsigned, Signed};
ghost use Rattle.ax_rescale.specs.Missed.{missed_line};
ghost use Rattle.ax_rescale.specs.Rescaled.{IsConverted};
ghost use Rattle.ax_laws.specs.AlikeExamples.{steps_of};

/// A number below zero, one step of 1/4 as two of 1/8; and 256 steps of 1/128 as 512 of 1/256.
#[tactic(auto, using(crate::proofs::WorkedScales::worked))]
pub fn converted_numbers()
    ensures below_zero { IsConverted 16 (steps_of Signed 4) 65535 32 (steps_of Signed 8) 4294967294 }
    ensures finer { IsConverted 16 (steps_of Unsigned 128) 256 24 (steps_of Unsigned 256) 512 }
{}

/// The lines of an entry whose number has no converted number, and of one that the new edition lacks.
pub fn lines_of_misses()
    ensures unconverted { missed_line 12 (record { record_at = 1; path = codes "209/010"; unconverted = true })
        ≡ codes "unconverted block 12 record 1 209/010\n" }
    ensures lost { missed_line 0 (record { record_at = 0; path = codes "209/010"; unconverted = false }) ≡ codes "lost block 0 record 0 209/010\n" }
{}
