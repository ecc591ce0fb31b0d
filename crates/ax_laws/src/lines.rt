//! The laws of lines. Each function stands for what its contract says.
ghost use Rattle.std.specs.Prelude.{◌≡◌, ℕ, List};
ghost use Rattle.ax_lines.specs.Lined.{Lined, LinedEnd};

/// Octets are cut into lines in one way, and that ends in one way.
pub fn lines_once()
    ensures { (line_limit limit : ℕ) (input : List ℕ) (lines others : List (List ℕ)) (end other : LinedEnd)
        → Lined line_limit limit 0 input lines end → Lined line_limit limit 0 input others other
        → (lines ≡ others) × (end ≡ other) }
{}

/// Octets are cut into lines, up to some end.
pub fn lines_there()
    ensures { (line_limit limit : ℕ) (input : List ℕ)
        → (lines : List (List ℕ)) × (end : LinedEnd) × Lined line_limit limit 0 input lines end }
{}
