//! Octets that are known before they are appended.
ghost use Rattle.std.specs.Prelude.{◌≡◌, IfSome};

use crate::place::place_text;
use std::marker::Model;

/// At most 64 octets that are appended again and again, by a copy of a known length. Contracts see them.
#[derive(Drop)]
pub struct Literal {
    pub(crate) octets: [u8; 64],
    /// How many octets of the array count.
    pub(crate) count: usize,
}

impl Model for Literal {
    ghost use Rattle.std.specs.Prelude.{List, ℕ, ◌≤◌, ◌≡◌, length, take};

    ghost Value = { List ℕ };

    ghost view = { λ literal. take literal.count literal.octets };

    ghost invariant = { λ literal. (literal.count ≤ 64) × (length literal.octets ≡ 64) };
}

impl Literal {
    /// Those octets. None comes only where they are more than 64.
    pub fn of(octets: &[u8]) -> Option<Literal>
        ensures { IfSome result (λ literal. literal ≡ octets.now) }
    {
        if octets.len() > 64 {
            return None;
        }
        let mut front = [0; 64];
        let count = place_text(&mut front, 0, octets);
        Some(Literal {
            octets: front,
            count,
        })
    }
}
