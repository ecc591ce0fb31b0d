//! A method for each rule of the grammar. Each reads from the next token on, and stops in front of the first token that
//! doesn't fit.

ghost use Rattle.std.specs.Prelude.{◌≡◌, map};
ghost use Rattle.ax_format.specs.Plain.{fixed_tree, member_tree, part_tree, kind_tree, slot_tree, item_tree, spec_tree};
ghost use Rattle.ax_grammar.specs.Gives.{Gives};
ghost use Rattle.ax_format.specs.Specification.{ItemTree};
ghost use Rattle.ax_format.specs.Tree.{MembersTree};
ghost use Rattle.ax_format.specs.declared.content.TableText as Table;
ghost use Rattle.ax_format.specs.declared.spec.UapSlot as Uap;
ghost use Rattle.ax_grammar.specs.Parsing.{Texts, Parsed, LeavesLess, braced_at, list_at};
ghost use Rattle.ax_grammar.specs.Rules.{sign_at, entry_at, scale_at, content_at, member_at, fixed_at, part_at, extended_at, counted_at, kind_at, slot_at, item_at, uap_slot_at, spec_at};

use crate::keyword::Keyword;
use crate::reader::SpecReader;
use ax_format::{
    Content, Counter, Fixed, Item, Kind, LastPart, Member, Members, Part, Scale, Sequence, Sign,
    Slot, Slots, Spec, TableText, UapSlot,
};
use ax_tokens::Stopped;
use std::alloc::Global;

/// What a rule reads several times in braces.
trait Braced: Sized + Drop {
    /// What contracts see of it.
    ghost Tree: { Type 0 };

    ghost tree: { Self → Tree };

    /// The rule that reads it.
    ghost rule: { Texts → Parsed Tree };

    /// Reads the next one.
    fn read(reader: &mut SpecReader<'_, '_>, alloc: Global) -> Result<Self, Stopped>
        ensures { Gives tree result reader.new (rule reader.old) };
}

impl<'r, 't> SpecReader<'r, 't> {
    #[tactic(auto, unfolding(crate::specs::Rules::sign_at))]
    fn sign(&mut self) -> Result<Sign, Stopped>
        ensures { Gives (λ sign. sign) result self.new (sign_at self.old) }
    {
        match self.keyword()? {
            Keyword::Unsigned => {
                self.skip();
                Ok(Sign::Unsigned)
            }
            Keyword::Signed => {
                self.skip();
                Ok(Sign::Signed)
            }
            _ => Err(Stopped::Bad),
        }
    }

    #[tactic(auto, unfolding(crate::specs::Rules::scale_at))]
    fn scale(&mut self, alloc: Global) -> Result<Scale, Stopped>
        ensures { Gives (λ scale. scale) result self.new (scale_at self.old) }
    {
        let sign = self.sign()?;
        let num = self.number()?;
        let den = self.number()?;
        let unit = self.text(alloc)?;
        Ok(Scale {
            sign,
            num,
            den,
            unit,
        })
    }

    /// Elements in braces.
    fn braced<E: Braced>(&mut self, alloc: Global) -> Result<Sequence<E>, Stopped>
        requires { LeavesLess E.rule }
        ensures { Gives (λ elements. map E.tree elements) result self.new (braced_at E.rule self.old) }
    {
        self.expect(Keyword::Open)?;
        let mut elements = Sequence::new(alloc);
        while !self.takes(Keyword::Close)? {
            let element = E::read(self, alloc)?;
            elements.push(element)?;
        }
        Ok(elements)
    }

    #[tactic(auto, unfolding(crate::specs::Rules::content_at))]
    fn content(&mut self, alloc: Global) -> Result<Content, Stopped>
        ensures { Gives (λ content. content) result self.new (content_at self.old) }
    {
        match self.keyword()? {
            Keyword::Raw => {
                self.skip();
                Ok(Content::Raw)
            }
            Keyword::Table => {
                self.skip();
                self.braced(alloc).map(Content::Table)
            }
            Keyword::Ascii => {
                self.skip();
                Ok(Content::Ascii)
            }
            Keyword::Icao => {
                self.skip();
                Ok(Content::Icao)
            }
            Keyword::Octal => {
                self.skip();
                Ok(Content::Octal)
            }
            Keyword::Integer => {
                self.skip();
                self.sign().map(Content::Integer)
            }
            Keyword::Quantity => {
                self.skip();
                self.scale(alloc).map(Content::Quantity)
            }
            _ => Err(Stopped::Bad),
        }
    }

    #[cycle(read_fixed)]
    #[tactic(auto, using(crate::proofs::Recursive::fixed_is), unfolding(crate::specs::Rules::fixed_step))]
    fn fixed(&mut self, alloc: Global) -> Result<Fixed, Stopped>
        ensures { Gives fixed_tree result self.new (fixed_at self.old) }
    {
        match self.keyword()? {
            Keyword::Element => {
                self.skip();
                let width = self.width()?;
                let content = self.content(alloc)?;
                Ok(Fixed::Element { width, content })
            }
            Keyword::Group => {
                self.skip();
                self.members(alloc).map(Fixed::Group)
            }
            _ => Err(Stopped::Bad),
        }
    }

    /// Members in braces.
    #[cycle(read_fixed)]
    fn members(&mut self, alloc: Global) -> Result<Members, Stopped>
        ensures { Gives (λ members. map member_tree members) result self.new (braced_at member_at self.old) }
    {
        self.expect(Keyword::Open)?;
        let mut members = Members::new(alloc);
        while !self.takes(Keyword::Close)? {
            let member = self.member(alloc)?;
            members.push(member)?;
        }
        Ok(members)
    }

    #[cycle(read_fixed)]
    #[tactic(auto, unfolding(crate::specs::Rules::member_at, crate::specs::Rules::member_step))]
    fn member(&mut self, alloc: Global) -> Result<Member, Stopped>
        ensures { Gives member_tree result self.new (member_at self.old) }
    {
        if self.takes(Keyword::Spare)? {
            let width = self.width()?;
            return Ok(Member::Spare { width });
        }
        let name = self.name()?;
        let fixed = self.fixed(alloc)?;
        Ok(Member::Named { name, fixed })
    }

    /// What follows `extended` or `closed`: parts in braces.
    fn extended(&mut self, alloc: Global, last: LastPart) -> Result<Kind, Stopped>
        ensures { Gives kind_tree result self.new (extended_at last self.old) }
    {
        let parts = self.braced(alloc)?;
        Ok(Kind::Extended { last, parts })
    }

    #[cycle(read_kind)]
    #[tactic(auto, using(crate::proofs::Recursive::kind_is), unfolding(crate::specs::Rules::kind_step))]
    fn kind(&mut self, alloc: Global) -> Result<Kind, Stopped>
        ensures { Gives kind_tree result self.new (kind_at self.old) }
    {
        match self.keyword()? {
            Keyword::Extended => {
                self.skip();
                self.extended(alloc, LastPart::WithFx)
            }
            Keyword::Closed => {
                self.skip();
                self.extended(alloc, LastPart::WithoutFx)
            }
            Keyword::Counted => {
                self.skip();
                self.counted(alloc, Counter::One)
            }
            Keyword::Wide => {
                self.skip();
                self.counted(alloc, Counter::Two)
            }
            Keyword::ByFx => {
                self.skip();
                self.fixed(alloc).map(Kind::ByFx)
            }
            Keyword::Explicit => {
                self.skip();
                Ok(Kind::Explicit)
            }
            Keyword::Compound => {
                self.skip();
                self.slots(alloc).map(Kind::Compound)
            }
            _ => self.fixed(alloc).map(Kind::Fixed),
        }
    }

    /// What follows `counted` or `wide`: a kind in braces.
    #[cycle(read_kind)]
    fn counted(&mut self, alloc: Global, size: Counter) -> Result<Kind, Stopped>
        ensures { Gives kind_tree result self.new (counted_at size self.old) }
    {
        self.expect(Keyword::Open)?;
        let inner = self.kind(alloc)?;
        self.expect(Keyword::Close)?;
        let inner = Box::new(alloc, inner)?;
        Ok(Kind::Counted {
            counter: size,
            inner,
        })
    }

    /// Slots in braces.
    #[cycle(read_kind)]
    pub fn slots(&mut self, alloc: Global) -> Result<Slots, Stopped>
        ensures { Gives (λ slots. map slot_tree slots) result self.new (braced_at slot_at self.old) }
    {
        self.expect(Keyword::Open)?;
        self.closed_slots(alloc)
    }

    /// Slots up to the brace that closes them, which is read too.
    #[cycle(read_kind)]
    pub fn closed_slots(&mut self, alloc: Global) -> Result<Slots, Stopped>
        ensures { Gives (λ slots. map slot_tree slots) result self.new (list_at slot_at self.old) }
    {
        let mut slots = Slots::new(alloc);
        while !self.takes(Keyword::Close)? {
            let slot = self.slot(alloc)?;
            slots.push(slot)?;
        }
        Ok(slots)
    }

    #[cycle(read_kind)]
    #[tactic(auto, unfolding(crate::specs::Rules::slot_at, crate::specs::Rules::slot_step))]
    fn slot(&mut self, alloc: Global) -> Result<Slot, Stopped>
        ensures { Gives slot_tree result self.new (slot_at self.old) }
    {
        if self.takes(Keyword::Dash)? {
            return Ok(Slot::Spare);
        }
        let name = self.name()?;
        let kind = self.kind(alloc)?;
        Ok(Slot::Sub { name, kind })
    }

    /// A specification. Tokens may follow it.
    #[tactic(auto, unfolding(crate::specs::Rules::spec_at))]
    pub fn spec(&mut self, alloc: Global) -> Result<Spec, Stopped>
        ensures { Gives spec_tree result self.new (spec_at self.old) }
    {
        self.expect(Keyword::Category)?;
        let category = self.category()?;
        self.expect(Keyword::Edition)?;
        let edition = self.text(alloc)?;
        self.expect(Keyword::Items)?;
        let items = self.braced(alloc)?;
        self.expect(Keyword::Uap)?;
        let uap = self.braced(alloc)?;
        Ok(Spec {
            category,
            edition,
            items,
            uap,
        })
    }
}

impl Braced for TableText {
    ghost Tree = { Table.TableText };

    ghost tree = { λ entry. entry };

    ghost rule = { entry_at };

    #[tactic(auto, unfolding(crate::specs::Rules::entry_at))]
    fn read(reader: &mut SpecReader<'_, '_>, alloc: Global) -> Result<Self, Stopped> {
        let number = reader.number()?;
        let text = reader.text(alloc)?;
        Ok(TableText { number, text })
    }
}

impl Braced for Part {
    ghost Tree = { MembersTree };

    ghost tree = { part_tree };

    ghost rule = { part_at };

    #[tactic(auto, unfolding(crate::specs::Rules::part_at))]
    fn read(reader: &mut SpecReader<'_, '_>, alloc: Global) -> Result<Self, Stopped> {
        reader.expect(Keyword::Part)?;
        let members = reader.members(alloc)?;
        Ok(Part { members })
    }
}

impl Braced for Item {
    ghost Tree = { ItemTree };

    ghost tree = { item_tree };

    ghost rule = { item_at };

    #[tactic(auto, unfolding(crate::specs::Rules::item_at))]
    fn read(reader: &mut SpecReader<'_, '_>, alloc: Global) -> Result<Self, Stopped> {
        reader.expect(Keyword::Item)?;
        let name = reader.name()?;
        let title = reader.text(alloc)?;
        let kind = reader.kind(alloc)?;
        Ok(Item { name, title, kind })
    }
}

impl Braced for UapSlot {
    ghost Tree = { Uap.UapSlot };

    ghost tree = { λ slot. slot };

    ghost rule = { uap_slot_at };

    #[tactic(auto, unfolding(crate::specs::Rules::uap_slot_at))]
    fn read(reader: &mut SpecReader<'_, '_>, alloc: Global) -> Result<Self, Stopped> {
        if reader.takes(Keyword::Dash)? {
            return Ok(UapSlot::Spare);
        }
        let name = reader.name()?;
        Ok(UapSlot::Item(name))
    }
}
