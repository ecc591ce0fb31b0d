//! Numbers drawn from a seed.
ghost use Rattle.std.specs.Prelude.{◌≡◌};
ghost use Rattle.ax_vectors.specs.Draws.{drawn, next_state};

use std::marker::Model;

/// The generator of numbers. Contracts see it as its state.
#[derive(Drop)]
pub struct Draws {
    state: u64,
}

impl Model for Draws {
    ghost use Rattle.std.specs.Prelude.{ℕ};

    ghost Value = { ℕ };

    ghost view = { λ d. d.state };
}

impl Draws {
    /// The generator whose state is the seed.
    pub fn new(seed: u64) -> Draws
        ensures { result ≡ seed }
    {
        Draws { state: seed }
    }

    /// A number of 32 bits: the high half of the next state.
    #[tactic(auto, unfolding(crate::specs::Draws::drawn, crate::specs::Draws::next_state))]
    pub fn draw(&mut self) -> u32
        ensures drawn { result ≡ drawn self.old }
        ensures state { self.new ≡ next_state self.old }
    {
        self.state = self
            .state
            .wrapping_mul(6_364_136_223_846_793_005)
            .wrapping_add(1_442_695_040_888_963_407);
        (self.state >> 32) as u32
    }
}
