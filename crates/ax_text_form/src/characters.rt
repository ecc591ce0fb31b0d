//! Characters of a few bits each.
ghost use Rattle.std.specs.Prelude.{◌≡◌, ◌/◌, ◌%◌, ◌^◌, ◌<◌, ◌≤◌};
ghost use Rattle.ax_text_form.specs.Remarks.{piece_size, character, ascii_character, icao_character};

/// The alphabet of an element that is read as characters.
#[derive(Clone, Copy)]
pub(crate) enum Alphabet {
    /// ASCII, eight bits each.
    Eight,
    /// The letters, digits and the space of an aircraft identification, six bits each.
    Six,
    /// Octal digits, three bits each.
    Three,
}

impl Alphabet {
    /// The bits of a character.
    pub(crate) fn size(self) -> u32
        ensures size { result ≡ piece_size self }
        ensures bounds { (0 < result) × (result ≤ 8) }
    {
        match self {
            Alphabet::Eight => 8,
            Alphabet::Six => 6,
            Alphabet::Three => 3,
        }
    }

    /// The character of a number's piece above its `below` lowest bits.
    pub(crate) fn character(self, number: u128, below: u32) -> u8
        requires { below < 128 }
        ensures { result ≡ character self (number / 2 ^ below % 2 ^ piece_size self) }
    {
        let shifted = number >> below;
        match self {
            Alphabet::Eight => ascii((shifted % 256) as u8),
            Alphabet::Six => icao((shifted % 64) as u8),
            Alphabet::Three => b'0' + (shifted % 8) as u8,
        }
    }
}

/// A printing octet other than the quote, or a dot.
fn ascii(piece: u8) -> u8
    ensures { result ≡ ascii_character piece }
{
    if 32 <= piece && piece <= 126 && piece != b'"' {
        piece
    } else {
        b'.'
    }
}

/// The characters of the pieces of six bits, by these: a capital letter, a space, a digit, or a dot.
static SIX_BITS: [u8; 64] = *b".ABCDEFGHIJKLMNOPQRSTUVWXYZ..... ...............0123456789......";

/// A capital letter, a space, a digit, or a dot. It is looked up, since no branch foresees the letters of a name.
#[inline(always)]
fn icao(piece: u8) -> u8
    requires { piece < 64 }
    ensures { result ≡ icao_character piece }
{
    SIX_BITS[piece as usize]
}
