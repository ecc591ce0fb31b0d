//! The law of the lines. It stands for what its contract says.
ghost use Rattle.std.specs.Prelude.{ℕ, List};
ghost use Rattle.ax_expand.specs.Expansion.{ExpansionTree, NoExpansionFlaw};
ghost use Rattle.ax_expand_work.specs.Judging.{IsJudged, judge};

/// What a content is judged to be is what it is: the value that its octets spell, or the first fault that they have.
#[tactic(auto, using(crate::proofs::JudgedContents::judged))]
pub fn contents_are_judged()
    ensures { (x : ExpansionTree) (content : List ℕ) → NoExpansionFlaw x → IsJudged x content (judge x content) }
{}
