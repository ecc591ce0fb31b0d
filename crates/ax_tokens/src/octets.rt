//! Which octets separate, and which stand in a Word or a Str.

ghost use Rattle.std.specs.Prelude.{◌≡◌};
ghost use Rattle.ax_tokens.specs.Octets.{is_separator, is_word_octet, is_string_octet};

/// Space, tab, carriage return or line feed.
#[tactic(auto, unfolding(crate::specs::Octets::is_separator))]
pub fn is_separator(octet: u8) -> bool
    ensures { result ≡ is_separator octet }
{
    matches!(octet, b' ' | b'\t' | b'\r' | b'\n')
}

/// An octet of a Word.
#[tactic(auto, unfolding(crate::specs::Octets::is_word_octet))]
pub fn is_word_octet(octet: u8) -> bool
    ensures { result ≡ is_word_octet octet }
{
    // Most octets of a Word are of this run, so that one test is enough for them.
    matches!(octet, b'$'..=b'z') || matches!(octet, b'!' | b'|' | b'~')
}

/// An octet between the quotes of a Str.
#[tactic(auto, unfolding(crate::specs::Octets::is_string_octet))]
pub fn is_string_octet(octet: u8) -> bool
    ensures { result ≡ is_string_octet octet }
{
    matches!(octet, 0x20..=0x7E) && octet != b'"'
}
