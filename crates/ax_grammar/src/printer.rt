//! The text of a specification, token by token.

ghost use Rattle.std.specs.Prelude.{◌≡◌, [], ◌∷◌, drop, map, decimal};
ghost use Rattle.std.specs.List.{flat_map};
ghost use Rattle.ax_format.specs.Plain.{fixed_tree, member_tree, members_tree, part_tree, kind_tree, slot_tree, slots_tree, item_tree, spec_tree};
ghost use Rattle.ax_grammar.specs.Keywords.{keyword_text};
ghost use Rattle.ax_grammar.specs.Prints.{Adds, Prints};
ghost use Rattle.ax_grammar.specs.Spelling.{quoted, sign_text, extended_word, counted_word, entry_texts, content_texts, fixed_texts, member_texts, members_texts, part_texts, kind_texts, slot_texts, slots_texts, item_texts, uap_slot_texts, spelled};
ghost use Rattle.ax_format.specs.Paths.{three_digits};
ghost use Rattle.ax_grammar.specs.declared.keyword.Keyword.TheVariants as Word;

use crate::keyword::Keyword;
use ax_format::{
    Content, Counter, Fixed, Item, Items, Kind, LastPart, Member, Members, Name, Part, Parts,
    Scale, Sign, Slot, Slots, Spec, TableText, TableTexts, Text, UapSlot, UapSlots,
    category_digits,
};
use itoa::Buffer;

/// The keyword of a kind of parts.
fn extended_word(last: LastPart) -> Keyword
    ensures { result ≡ extended_word last }
{
    match last {
        LastPart::WithFx => Keyword::Extended,
        LastPart::WithoutFx => Keyword::Closed,
    }
}

/// The keyword of a kind with a counter.
fn counted_word(size: Counter) -> Keyword
    ensures { result ≡ counted_word size }
{
    match size {
        Counter::One => Keyword::Counted,
        Counter::Two => Keyword::Wide,
    }
}

/// Prints tokens, each after a space. Where memory runs out, it keeps that, and adds nothing more.
#[derive(Drop)]
pub struct Printer {
    pub out: Vec<u8>,
    /// Whether memory ran out.
    pub failed: bool,
}

impl Printer {
    /// Octets as they are.
    pub fn add(&mut self, octets: &[u8])
        ensures { Adds octets.now self.old self.new }
    {
        self.failed = self.failed || self.out.extend_from_slice(octets).is_err();
    }

    fn octets(&mut self, text: &[u8])
        ensures { Prints (text.now ∷ []) self.old self.new }
    {
        self.add(b" ");
        self.add(text);
    }

    fn word(&mut self, word: Keyword)
        ensures { Prints (keyword_text word ∷ []) self.old self.new }
    {
        self.octets(word.text());
    }

    /// A keyword, and the brace after it.
    fn open(&mut self, word: Keyword)
        ensures { Prints (keyword_text word ∷ keyword_text Word.Open ∷ []) self.old self.new }
    {
        self.word(word);
        self.word(Keyword::Open);
    }

    fn name(&mut self, name: &Name)
        ensures { Prints (name.now ∷ []) self.old self.new }
    {
        self.octets(name.octets());
    }

    /// Three digits.
    fn category(&mut self, category: u8)
        ensures { Prints (three_digits category ∷ []) self.old self.new }
    {
        self.octets(&category_digits(category));
    }

    fn number(&mut self, number: u64)
        ensures { Prints (decimal number ∷ []) self.old self.new }
    {
        let mut buffer = Buffer::new();
        self.octets(buffer.format(number).as_bytes());
    }

    /// A text in quotes.
    fn text(&mut self, text: &Text)
        ensures { Prints (quoted text.now ∷ []) self.old self.new }
    {
        self.add(b" \"");
        self.add(text.as_slice());
        self.add(b"\"");
    }

    fn sign(&mut self, sign: Sign)
        ensures { Prints (sign_text sign ∷ []) self.old self.new }
    {
        match sign {
            Sign::Unsigned => self.word(Keyword::Unsigned),
            Sign::Signed => self.word(Keyword::Signed),
        }
    }

    fn scale(&mut self, scale: &Scale)
        ensures { Prints (sign_text scale.now.sign ∷ decimal scale.now.num ∷ decimal scale.now.den ∷ quoted scale.now.unit ∷ []) self.old self.new }
    {
        self.sign(scale.sign);
        self.number(scale.num);
        self.number(scale.den);
        self.text(&scale.unit);
    }

    fn entry(&mut self, entry: &TableText)
        ensures { Prints (entry_texts entry.now) self.old self.new }
    {
        self.number(entry.number);
        self.text(&entry.text);
    }

    fn entries(&mut self, entries: &TableTexts)
        ensures { Prints (flat_map entry_texts entries.now) self.old self.new }
    {
        for entry in entries.as_slice() {
            self.entry(entry);
        }
    }

    fn content(&mut self, content: &Content)
        ensures { Prints (content_texts content.now) self.old self.new }
    {
        match content {
            Content::Raw => self.word(Keyword::Raw),
            Content::Table(entries) => {
                self.open(Keyword::Table);
                self.entries(entries);
                self.word(Keyword::Close);
            }
            Content::Ascii => self.word(Keyword::Ascii),
            Content::Icao => self.word(Keyword::Icao),
            Content::Octal => self.word(Keyword::Octal),
            Content::Integer(sign) => {
                self.word(Keyword::Integer);
                self.sign(*sign);
            }
            Content::Quantity(scale) => {
                self.word(Keyword::Quantity);
                self.scale(scale);
            }
        }
    }

    #[cycle(print_fixed)]
    fn fixed(&mut self, fixed: &Fixed)
        ensures { Prints (fixed_texts (fixed_tree fixed.now)) self.old self.new }
    {
        match fixed {
            Fixed::Element { width, content } => {
                self.word(Keyword::Element);
                self.number(u64::from(*width));
                self.content(content);
            }
            Fixed::Group(members) => {
                self.open(Keyword::Group);
                self.members(members);
                self.word(Keyword::Close);
            }
        }
    }

    #[cycle(print_fixed)]
    fn member(&mut self, member: &Member)
        ensures { Prints (member_texts (member_tree member.now)) self.old self.new }
    {
        match member {
            Member::Named { name, fixed } => {
                self.name(name);
                self.fixed(fixed);
            }
            Member::Spare { width } => {
                self.word(Keyword::Spare);
                self.number(u64::from(*width));
            }
        }
    }

    #[cycle(print_fixed)]
    fn members(&mut self, members: &Members)
        ensures { Prints (members_texts (members_tree members.now)) self.old self.new }
    {
        for member in members.as_slice() {
            self.member(member);
        }
    }

    fn part(&mut self, part: &Part)
        ensures { Prints (part_texts (part_tree part.now)) self.old self.new }
    {
        self.open(Keyword::Part);
        self.members(&part.members);
        self.word(Keyword::Close);
    }

    fn parts(&mut self, parts: &Parts)
        ensures { Prints (flat_map part_texts (map part_tree parts.now)) self.old self.new }
    {
        for part in parts.as_slice() {
            self.part(part);
        }
    }

    #[cycle(print_kind)]
    fn kind(&mut self, kind: &Kind)
        ensures { Prints (kind_texts (kind_tree kind.now)) self.old self.new }
    {
        match kind {
            Kind::Fixed(fixed) => self.fixed(fixed),
            Kind::Extended { last, parts } => {
                self.open(extended_word(*last));
                self.parts(parts);
                self.word(Keyword::Close);
            }
            Kind::Counted {
                counter: size,
                inner,
            } => {
                self.open(counted_word(*size));
                self.kind(inner);
                self.word(Keyword::Close);
            }
            Kind::ByFx(fixed) => {
                self.word(Keyword::ByFx);
                self.fixed(fixed);
            }
            Kind::Explicit => self.word(Keyword::Explicit),
            Kind::Compound(slots) => {
                self.open(Keyword::Compound);
                self.slots(slots);
                self.word(Keyword::Close);
            }
        }
    }

    #[cycle(print_kind)]
    fn slot(&mut self, slot: &Slot)
        ensures { Prints (slot_texts (slot_tree slot.now)) self.old self.new }
    {
        match slot {
            Slot::Spare => self.word(Keyword::Dash),
            Slot::Sub { name, kind } => {
                self.name(name);
                self.kind(kind);
            }
        }
    }

    #[cycle(print_kind)]
    fn slots(&mut self, slots: &Slots)
        ensures { Prints (slots_texts (slots_tree slots.now)) self.old self.new }
    {
        for slot in slots.as_slice() {
            self.slot(slot);
        }
    }

    fn item(&mut self, item: &Item)
        ensures { Prints (item_texts (item_tree item.now)) self.old self.new }
    {
        self.word(Keyword::Item);
        self.name(&item.name);
        self.text(&item.title);
        self.kind(&item.kind);
    }

    fn items(&mut self, items: &Items)
        ensures { Prints (flat_map item_texts (map item_tree items.now)) self.old self.new }
    {
        for item in items.as_slice() {
            self.item(item);
        }
    }

    fn uap_slot(&mut self, slot: &UapSlot)
        ensures { Prints (uap_slot_texts slot.now) self.old self.new }
    {
        match slot {
            UapSlot::Spare => self.word(Keyword::Dash),
            UapSlot::Item(name) => self.name(name),
        }
    }

    fn uap(&mut self, slots: &UapSlots)
        ensures { Prints (flat_map uap_slot_texts slots.now) self.old self.new }
    {
        for slot in slots.as_slice() {
            self.uap_slot(slot);
        }
    }

    /// What follows the first keyword of a specification.
    pub fn spec(&mut self, spec: &Spec)
        ensures { Prints (drop 1 (spelled (spec_tree spec.now))) self.old self.new }
    {
        self.category(spec.category);
        self.word(Keyword::Edition);
        self.text(&spec.edition);
        self.open(Keyword::Items);
        self.items(&spec.items);
        self.word(Keyword::Close);
        self.open(Keyword::Uap);
        self.uap(&spec.uap);
        self.word(Keyword::Close);
    }
}
