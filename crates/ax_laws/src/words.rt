//! The laws of the shapes. Each function stands for what its contract says.
ghost use Rattle.std.specs.Prelude.{◌≡◌, ℕ, ◌⊎◌, List};
ghost use Rattle.ax_words.specs.Words.{HasNoShape, HasShape};
ghost use Rattle.ax_words.specs.declared.line.Line.{Line};

/// Words ask for one line at most.
pub fn line_once()
    ensures { (words : List (List ℕ)) (line other : Line) → HasShape words line → HasShape words other → line ≡ other }
{}

/// Any words ask for a line, or for none.
pub fn line_or_none()
    ensures { (words : List (List ℕ)) → ((line : Line) × HasShape words line) ⊎ HasNoShape words }
{}
