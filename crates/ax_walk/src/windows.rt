//! Fronts and rests of octets.
ghost use Rattle.std.specs.Prelude.{◌≡◌, ◌≤◌, length, take, drop};

/// The first octets.
#[inline]
#[tactic(auto, using(crate::proofs::Fronts::windows))]
pub(crate) fn first_octets(octets: &[u8], count: u32) -> &[u8]
    requires { count ≤ length octets.now }
    ensures { result.now ≡ take count octets.now }
{
    &octets[..count as usize]
}

/// The octets from octet `at` on.
#[inline]
#[tactic(auto, using(crate::proofs::Fronts::windows))]
pub(crate) fn octets_from(octets: &[u8], at: u32) -> &[u8]
    requires { at ≤ length octets.now }
    ensures { result.now ≡ drop at octets.now }
{
    &octets[at as usize..]
}
