//! The tokens that stand for themselves.

ghost use Rattle.std.specs.Prelude.{◌≡◌, bytes_eq, find};
ghost use Rattle.std.specs.Option.{option_copied};
ghost use Rattle.ax_grammar.specs.Keywords.{keyword_text, keyword_of};

/// A token of a specification or of an expansion file that stands for itself.
#[derive(Clone, Copy)]
pub enum Keyword {
    Category,
    Edition,
    Items,
    Uap,
    Item,
    Element,
    Group,
    Extended,
    Closed,
    Counted,
    Wide,
    ByFx,
    Explicit,
    Compound,
    Part,
    Spare,
    /// `-`, a spare slot.
    Dash,
    Raw,
    Table,
    Ascii,
    Icao,
    Octal,
    Integer,
    Quantity,
    Unsigned,
    Signed,
    /// The first token of an expansion file.
    Expansion,
    /// A presence field continued by FX bits.
    Fx,
    /// A presence field of a fixed number of octets.
    Fixed,
    Open,
    Close,
}

/// Each of them.
const KEYWORDS: [Keyword; 31] = [
    Keyword::Category,
    Keyword::Edition,
    Keyword::Items,
    Keyword::Uap,
    Keyword::Item,
    Keyword::Element,
    Keyword::Group,
    Keyword::Extended,
    Keyword::Closed,
    Keyword::Counted,
    Keyword::Wide,
    Keyword::ByFx,
    Keyword::Explicit,
    Keyword::Compound,
    Keyword::Part,
    Keyword::Spare,
    Keyword::Dash,
    Keyword::Raw,
    Keyword::Table,
    Keyword::Ascii,
    Keyword::Icao,
    Keyword::Octal,
    Keyword::Integer,
    Keyword::Quantity,
    Keyword::Unsigned,
    Keyword::Signed,
    Keyword::Expansion,
    Keyword::Fx,
    Keyword::Fixed,
    Keyword::Open,
    Keyword::Close,
];

impl Keyword {
    /// Its octets.
    pub fn text(self) -> &'static [u8]
        ensures { result.now ≡ keyword_text self }
    {
        match self {
            Keyword::Category => b"category",
            Keyword::Edition => b"edition",
            Keyword::Items => b"items",
            Keyword::Uap => b"uap",
            Keyword::Item => b"item",
            Keyword::Element => b"element",
            Keyword::Group => b"group",
            Keyword::Extended => b"extended",
            Keyword::Closed => b"closed",
            Keyword::Counted => b"counted",
            Keyword::Wide => b"wide",
            Keyword::ByFx => b"byfx",
            Keyword::Explicit => b"explicit",
            Keyword::Compound => b"compound",
            Keyword::Part => b"part",
            Keyword::Spare => b"spare",
            Keyword::Dash => b"-",
            Keyword::Raw => b"raw",
            Keyword::Table => b"table",
            Keyword::Ascii => b"ascii",
            Keyword::Icao => b"icao",
            Keyword::Octal => b"octal",
            Keyword::Integer => b"integer",
            Keyword::Quantity => b"quantity",
            Keyword::Unsigned => b"unsigned",
            Keyword::Signed => b"signed",
            Keyword::Expansion => b"expansion",
            Keyword::Fx => b"fx",
            Keyword::Fixed => b"fixed",
            Keyword::Open => b"{",
            Keyword::Close => b"}",
        }
    }

    /// Whether these are its octets.
    pub fn is(self, text: &[u8]) -> bool
        ensures { result ≡ bytes_eq (keyword_text self) text.now }
    {
        self.text() == text
    }

    /// The one of these octets. None comes exactly where there is none.
    #[tactic(auto, unfolding(crate::specs::Keywords::keyword_of))]
    pub fn of(text: &[u8]) -> Option<Keyword>
        ensures { result ≡ keyword_of text.now }
    {
        first_of(&KEYWORDS, text).copied()
    }
}

/// The first of the words that has these octets.
fn first_of<'k>(words: &'k [Keyword], text: &[u8]) -> Option<&'k Keyword>
    ensures { option_copied result ≡ find (λ word. bytes_eq (keyword_text word) text.now) words.now }
{
    words.iter().find(|word| word.is(text))
}
