//! What stands between tokens: separators. A comment isn't passed here.
ghost use Rattle.std.specs.Prelude.{◌≡◌, length, IfSome};
ghost use Rattle.ax_tokens.specs.Octets.{is_separator, is_word_octet};
ghost use Rattle.ax_tokens.specs.Lexing.{MayFollow};
ghost use Rattle.ax_tokens.specs.declared.token.TokenKind.TheVariants.{Word};
ghost use Rattle.ax_printed_lines.specs.Printed.{AfterGap, IsAfterOctet, Stands};

/// Space, tab, carriage return or line feed.
#[inline(always)]
#[tactic(auto, unfolding(ax_tokens::specs::Octets::is_separator))]
fn separates(octet: u8) -> bool
    ensures { result ≡ is_separator octet }
{
    matches!(octet, b' ' | b'\t' | b'\r' | b'\n')
}

/// An octet of a Word.
#[inline(always)]
#[tactic(auto, unfolding(ax_tokens::specs::Octets::is_word_octet))]
fn is_of_word(octet: u8) -> bool
    ensures { result ≡ is_word_octet octet }
{
    matches!(octet, b'$'..=b'z') || matches!(octet, b'!' | b'|' | b'~')
}

/// What comes after one space in front, where a token follows it, as mostly between tokens.
#[inline(always)]
#[tactic(auto, using(crate::proofs::Separators::spaces))]
pub fn after_space(octets: &[u8]) -> Option<&[u8]>
    ensures gap { IfSome result (λ left. AfterGap octets.now left.now) }
    ensures ended { IfSome result (λ left. MayFollow Word octets.now) }
{
    let (first, following) = octets.split_first()?;
    let next = following.first()?;
    // Each separator is a space or below.
    if *first != b' ' || *next <= b' ' {
        return None;
    }
    Some(following)
}

/// What comes after that octet in front and one space behind it, where a token follows, as mostly behind braces.
#[inline(always)]
pub fn after_spaced(octets: &[u8], octet: u8) -> Option<&[u8]>
    ensures { IfSome result (λ left. IsAfterOctet octet octets.now left.now) }
{
    if octets.len() < 3 || octets[0] != octet || octets[1] != b' ' || octets[2] <= b' ' {
        return None;
    }
    Some(&octets[2..])
}

/// What comes after the separators in front.
#[inline(always)]
pub fn after_gap(octets: &[u8]) -> &[u8]
    ensures { AfterGap octets.now result.now }
{
    match after_space(octets) {
        Some(left) => left,
        None => after_separators(octets),
    }
}

/// The same, separator by separator.
#[inline(never)]
#[tactic(auto, using(crate::proofs::Separators::gaps))]
pub fn after_separators(octets: &[u8]) -> &[u8]
    ensures { AfterGap octets.now result.now }
{
    let mut left = octets;
    while let Some((octet, later)) = left.split_first() {
        if !separates(*octet) {
            return left;
        }
        left = later;
    }
    left
}

/// What comes after a Word and the separators behind it, where it ends in front of these octets. None comes where it doesn't.
#[inline(always)]
pub fn after_word(octets: &[u8]) -> Option<&[u8]>
    ensures gap { IfSome result (λ left. AfterGap octets.now left.now) }
    ensures ended { IfSome result (λ left. MayFollow Word octets.now) }
{
    if let Some(left) = after_space(octets) {
        return Some(left);
    }
    after_ended_word(octets)
}

/// The same, whatever stands behind the Word.
#[tactic(auto, using(crate::proofs::Separators::ends))]
fn after_ended_word(octets: &[u8]) -> Option<&[u8]>
    ensures gap { IfSome result (λ left. AfterGap octets.now left.now) }
    ensures ended { IfSome result (λ left. MayFollow Word octets.now) }
{
    if let Some(octet) = octets.first()
        && is_of_word(*octet)
    {
        return None;
    }
    Some(after_separators(octets))
}

/// The first octets, that many, where no octet of a Word follows, and what comes after them and the separators behind them.
#[inline(always)]
#[tactic(auto, using(crate::proofs::Separators::stands))]
pub fn split_word(octets: &[u8], count: usize) -> Option<(&[u8], &[u8])>
    ensures stands { IfSome result (λ found. Stands Word found.0.now octets.now found.1.now) }
    ensures count { IfSome result (λ found. length found.0.now ≡ count) }
{
    if octets.len() < count {
        return None;
    }
    let (front, following) = octets.split_at(count);
    let left = after_word(following)?;
    Some((front, left))
}
