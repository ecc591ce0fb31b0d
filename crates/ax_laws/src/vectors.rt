//! What holds of the definition of what is made. Each function stands for what its contract says.
ghost use Rattle.std.specs.Prelude.{◌≡◌, ℕ, List, [], ◌∷◌};
ghost use Rattle.ax_format.specs.Flaws.{NoFlaw};
ghost use Rattle.ax_format.specs.Specification.{SpecTree};
ghost use Rattle.ax_vectors.specs.Draws.{drawn};
ghost use Rattle.ax_vectors.specs.Made.{block_made, Made, IsSpelledBlock};

/// What is made over a specification without flaw, from any state, is a data block that spells records of it.
#[tactic(auto, using(ax_vectors::proofs::RecordDraws::made_spelled))]
pub fn made_blocks_are_spelled()
    ensures { (spec : SpecTree) (state : ℕ) → NoFlaw spec → IsSpelledBlock spec (block_made spec state).0 }
{}

/// The first draw from the seed 0.
#[tactic(auto, unfolding(ax_vectors::specs::Draws::drawn, ax_vectors::specs::Draws::next_state))]
pub fn first_draw()
    ensures { drawn 0 ≡ 335903614 }
{}
