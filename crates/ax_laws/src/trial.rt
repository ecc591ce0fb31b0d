//! The laws of the line. Each function stands for what its contract says.
ghost use Rattle.std.specs.Prelude.{◌≡◌, ℕ, ◌<◌, ◌≤◌, List};
ghost use Rattle.ax_format.specs.Flaws.{NoFlaw};
ghost use Rattle.ax_format.specs.Specification.{SpecTree};
ghost use Rattle.ax_trial.specs.Trial.{IsTrial};

/// A specification, a seed and a count have one line at most.
pub fn line_once()
    ensures { (spec : SpecTree) (seed count : ℕ) (line other : List ℕ) → IsTrial spec seed count line
        → IsTrial spec seed count other → line ≡ other }
{}

/// A specification without flaw of a category below 256, as each that a file spells, has a line for each seed and up to a million
/// blocks, which is the most that words ask for.
pub fn line_there()
    ensures { (spec : SpecTree) → NoFlaw spec → spec.category < 256 → (seed count : ℕ) → count ≤ 1000000
        → (line : List ℕ) × IsTrial spec seed count line }
{}
