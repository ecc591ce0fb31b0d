//! Units of a body: where a run of whole octets ends, what a counter spells, and whether an FX bit is set.
ghost use Rattle.std.specs.Prelude.{◌≡◌, ◌↔◌, ◌+◌, ◌-◌, ◌*◌, ◌%◌, ◌<◌, ◌≤◌, [], ◌∷◌, length, get_or, take, drop, IfSome, IfNone, IsTrue};
ghost use Rattle.ax_bits.specs.Bits.{bits};
ghost use Rattle.ax_format.specs.Sizes.{longest_body};
ghost use Rattle.ax_format.specs.Widths.{counter_octets};
ghost use Rattle.ax_format.specs.declared.kind.Counter.TheVariants.{One, Two};
ghost use Rattle.ax_fspec.specs.Reading.{IsCount, fx_bit};

use ax_format::Counter;

/// The octet after a unit of `width` bits, whole octets, that begins at octet `at`. None comes exactly where the body ends
/// before it.
#[inline(always)]
pub fn run_end(body: &[u8], at: u32, width: u32) -> Option<u32>
    requires width { (width % 8 ≡ 0) × (width ≤ 524264) }
    requires body { length body.now ≤ longest_body }
    requires at { at ≤ length body.now }
    ensures end { IfSome result (λ end. (at ≤ end) × (end ≤ length body.now) × (width ≡ 8 * (end - at))) }
    ensures short { IfNone result (8 * (length body.now - at) < width) }
{
    let end = at + width / 8;
    if end as usize > body.len() {
        return None;
    }
    Some(end)
}

/// The octet `at` of the body, as a counter of one octet.
#[inline(always)]
#[tactic(auto, using(crate::proofs::Counting::one_is_count))]
fn one_octet_at(body: &[u8], at: u32) -> Option<u32>
    requires body { length body.now ≤ longest_body }
    requires at { at ≤ length body.now }
    ensures count { IfSome result (IsCount One body.now at) }
    ensures short { IfNone result (length body.now < at + 1) }
{
    if at as usize >= body.len() {
        return None;
    }
    Some(u32::from(body[at as usize]))
}

/// Two octets of the body from octet `at` on, as a counter: the first is the most significant.
#[inline(always)]
fn two_octets_at(body: &[u8], at: u32) -> Option<u32>
    requires body { length body.now ≤ longest_body }
    requires at { at ≤ length body.now }
    ensures count { IfSome result (IsCount Two body.now at) }
    ensures short { IfNone result (length body.now < at + 2) }
{
    let first = at as usize;
    if body.len() < first + 2 {
        return None;
    }
    Some(u32::from(body[first]) * 256 + u32::from(body[first + 1]))
}

/// How many occurrences the counter says that begins at octet `at` of the body. None comes exactly where the body ends
/// before the counter is whole.
#[inline(always)]
pub fn count_at(body: &[u8], at: u32, size: Counter) -> Option<u32>
    requires body { length body.now ≤ longest_body }
    requires at { at ≤ length body.now }
    ensures count { IfSome result (IsCount size body.now at) }
    ensures short { IfNone result (length body.now < at + counter_octets size) }
{
    match size {
        Counter::One => one_octet_at(body, at),
        Counter::Two => two_octets_at(body, at),
    }
}

/// Whether the FX bit is set that stands at bit `at` of the body.
#[inline(always)]
#[tactic(auto, using(crate::proofs::AtOctets::fx_here))]
pub fn has_fx(body: &[u8], at: u32) -> bool
    requires { at < 8 * length body.now }
    ensures { take 1 (drop at (bits body.now)) ≡ fx_bit result ∷ [] }
{
    body[(at / 8) as usize] >> (7 - at % 8) & 1 == 1
}

/// Whether the FX bit is set that is the last bit of an octet of the body.
#[inline(always)]
pub fn ends_with_fx(body: &[u8], octet: u32) -> bool
    requires { octet < length body.now }
    ensures { IsTrue result ↔ (get_or body.now octet 0 % 2 ≡ 1) }
{
    body[octet as usize] % 2 == 1
}
