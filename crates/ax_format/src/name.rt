ghost use Rattle.std.specs.Prelude.{◌≡◌, ◌↔◌, ◌≤◌, ◌-◌, ◌++◌, length, take, replicate, IsTrue, MatchOption};
ghost use Rattle.std.specs.List.{list_all};
ghost use Rattle.std.specs.Hash as fed;
ghost use Rattle.std.specs.Str.{bytes_eq};
ghost use Rattle.std.specs.Cmp.Rules.{comparing, hashing};
ghost use Rattle.std.proofs.Common.{rules};
ghost use Rattle.ax_format.specs.Characters.{IsName, is_name_octet};

use std::hash::{Hash, Hasher};
use std::marker::Model;

/// A name: 1 to 16 octets, each `A` to `Z` or `0` to `9`. Contracts see it as the list of its octets. It
/// takes no memory.
#[derive(Clone, Copy)]
pub struct Name {
    octets: [u8; 16],
    count: usize,
}

impl Model for Name {
    ghost use Rattle.std.specs.Prelude.{List, ℕ, length, take, drop, ◌≤◌, ◌≡◌, ◌++◌, ◌-◌, replicate};
    ghost use Rattle.ax_format.specs.Characters.{IsName};
    ghost use Rattle.ax_format.specs.Names.{counted, restored};

    ghost Value = { List ℕ };

    ghost view = { λ n. take n.count n.octets };

    ghost invariant = { λ n. (n.count ≤ 16) × (length n.octets ≡ 16) × IsName (take n.count n.octets) × (drop n.count n.octets ≡ replicate (16 - n.count) 0) };

    ghost inverse = { λ text. record { octets = text ++ replicate (16 - length text) 0; count = length text } };

    ghost inverse_ok = { λ a h. λ i. record { octets = restored a.count a.octets h.0 h.1 h.3 i; count = counted a.count a.octets h.0 h.1 i } };
}

/// Whether each octet is a capital letter or a digit.
fn all_in_names(text: &[u8]) -> bool
    ensures { result ≡ list_all is_name_octet text.now }
{
    text.iter()
        .all(|x| (65 <= *x && *x <= 90) || (48 <= *x && *x <= 57))
}

/// Whether the octets are a name.
fn is_name(text: &[u8]) -> bool
    ensures { IsTrue result ↔ IsName text.now }
{
    if text.is_empty() || text.len() > 16 {
        return false;
    }
    all_in_names(text)
}

/// The octets, and zeros after them.
fn padded(text: &[u8]) -> [u8; 16]
    requires { length text.now ≤ 16 }
    ensures { result ≡ text.now ++ replicate (16 - length text.now) 0 }
{
    let mut octets = [0u8; 16];
    octets[..text.len()].copy_from_slice(text);
    octets
}

impl Name {
    /// The name that these octets are. None comes exactly where they are no name.
    pub fn of(text: &[u8]) -> Option<Name>
        ensures { MatchOption result (IsName text.now → ⊥) (λ name. IsName text.now × (name ≡ text.now)) }
    {
        if !is_name(text) {
            return None;
        }
        Some(Name {
            octets: padded(text),
            count: text.len(),
        })
    }

    /// The octets, 1 to 16 of them.
    pub fn octets(&self) -> &[u8]
        ensures octets { result.now ≡ self.now }
        ensures name { IsName self.now }
    {
        &self.octets[..self.count]
    }

    /// The octets and zeros after them, 16 in all: a copy of a known length is quick.
    #[inline(always)]
    pub fn padded(&self) -> &[u8]
        ensures front { take (length self.now) result.now ≡ self.now }
        ensures whole { length result.now ≡ 16 }
        ensures fits { length self.now ≤ 16 }
    {
        &self.octets
    }

    /// Whether the two names are one.
    pub fn is(&self, other: &Name) -> bool
        ensures { IsTrue result ↔ (self.now ≡ other.now) }
    {
        *self == *other
    }
}

/// Two names are equal where their octets are.
impl PartialEq for Name {
    ghost eq = { λ a b. bytes_eq a b };

    ghost laws = { Prim.search (comparing, rules) };

    fn eq(&self, other: &Name) -> bool {
        self.octets() == other.octets()
    }
}

impl Eq for Name {
    ghost laws = { Prim.search (comparing, rules) };
}

/// A name feeds its octets.
impl Hash for Name {
    ghost hash_input = { λ a. fed.slice fed.u8 a };

    ghost respects_eq = { Prim.search (hashing, rules) };

    fn hash<H: Hasher>(&self, state: &mut H) {
        self.octets().hash(state);
    }
}
