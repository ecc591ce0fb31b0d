//! A line of tokens, as it is printed.
ghost use Rattle.std.specs.Prelude.{◌≡◌, ◌+◌, ◌*◌, ◌≤◌, ◌⊎◌, [], ◌∷◌, ◌++◌, length, take, drop, decimal, OnOk};
ghost use Rattle.ax_bits.specs.Bits.{bits};
ghost use Rattle.ax_format.specs.Paths.{three_digits};
ghost use Rattle.ax_format.specs.Sizes.{longest_body};
ghost use Rattle.ax_octets.specs.Buffers.{RoomIsFor};
ghost use Rattle.ax_text_form.specs.Printing.{after_spaces, Puts};
ghost use Rattle.ax_text_form.specs.ValueText.{opening, closing, one_onto, hex_text};
ghost use Rattle.ax_text_lines.specs.Templates.{TemplateInBounds, printed, template_width, whole_template};
ghost use Rattle.ax_tokens.specs.Octets.{line_feed};

use crate::bit_run::BitRun;
use crate::room::{put_name, put_number, put_octets};
use crate::step_texts::{put_template, template_room};
use crate::templates::TemplateSteps;
use ax_format::{Name, category_digits};
use ax_octets::make_room;
use itoa::Buffer;
use std::alloc::{AllocError, Global};
use std::marker::Model;

/// A line of tokens with one space between, as it is printed. Contracts see its octets so far, and how many there is room for.
/// The room is kept from line to line.
pub struct TokenLine {
    alloc: Global,
    /// The octets so far, and room for others after them.
    room: Vec<u8>,
    used: usize,
}

impl Drop for TokenLine {
    fn drop(self) {
        let TokenLine {
            alloc: _alloc,
            room: _room,
            used: _used,
        } = self;
    }
}

impl Model for TokenLine {
    ghost use Rattle.std.specs.Prelude.{◌≤◌, length, take};
    ghost use Rattle.ax_octets.specs.Buffers.{Buffered};

    ghost Value = { Buffered };

    ghost view = { λ line. record { octets = take line.used line.room.items; room = length line.room.items } };

    ghost invariant = { λ line. line.used ≤ length line.room.items };
}

impl TokenLine {
    /// A line with no octet. Takes no memory.
    pub fn new(alloc: Global) -> TokenLine
        ensures none { result.octets ≡ [] }
        ensures room { result.room ≡ 0 }
    {
        TokenLine {
            alloc,
            room: Vec::new(alloc),
            used: 0,
        }
    }

    /// The octets so far.
    pub fn octets(&self) -> &[u8]
        ensures { result.now ≡ self.now.octets }
    {
        &self.room[..self.used]
    }

    /// Octets after those so far.
    #[inline(always)]
    fn more(&mut self, octets: &[u8]) -> Result<(), AllocError>
        ensures appended { OnOk result (self.new.octets ≡ self.old.octets ++ octets.now) }
        ensures room { OnOk result (RoomIsFor self.old self.new) }
    {
        make_room(&mut self.room, self.used, octets.len())?;
        put_octets(&mut self.room, self.used, octets);
        self.used += octets.len();
        Ok(())
    }

    /// Begins another line with a token. What was printed before goes.
    pub(crate) fn begin(&mut self, text: &[u8]) -> Result<(), AllocError>
        ensures begun { OnOk result (self.new.octets ≡ text.now) }
        ensures room { OnOk result (RoomIsFor self.old self.new) }
    {
        self.used = 0;
        self.more(text)
    }

    /// Any token.
    #[inline(always)]
    #[tactic(auto, using(ax_text_form::proofs::Printed::text_put))]
    pub(crate) fn text(&mut self, text: &[u8]) -> Result<(), AllocError>
        ensures appended { OnOk result (Puts after_spaces (one_onto text.now) self.old.octets self.new.octets) }
        ensures room { OnOk result (RoomIsFor self.old self.new) }
    {
        self.more(b" ")?;
        self.more(text)
    }

    /// A token of one octet.
    #[inline(always)]
    #[tactic(auto, using(crate::proofs::Octets::octet_put))]
    fn octet(&mut self, octet: u8) -> Result<(), AllocError>
        ensures appended { OnOk result (Puts after_spaces (one_onto (octet ∷ [])) self.old.octets self.new.octets) }
        ensures room { OnOk result (RoomIsFor self.old self.new) }
    {
        self.more(&[b' ', octet])
    }

    /// An opening brace.
    pub(crate) fn open(&mut self) -> Result<(), AllocError>
        ensures appended { OnOk result (Puts after_spaces (one_onto opening) self.old.octets self.new.octets) }
        ensures room { OnOk result (RoomIsFor self.old self.new) }
    {
        self.octet(b'{')
    }

    /// A closing brace.
    pub(crate) fn close(&mut self) -> Result<(), AllocError>
        ensures appended { OnOk result (Puts after_spaces (one_onto closing) self.old.octets self.new.octets) }
        ensures room { OnOk result (RoomIsFor self.old self.new) }
    {
        self.octet(b'}')
    }

    /// A name.
    #[inline(always)]
    #[tactic(auto, using(crate::proofs::Octets::token_put))]
    pub(crate) fn name(&mut self, name: &Name) -> Result<(), AllocError>
        ensures appended { OnOk result (Puts after_spaces (one_onto name.now) self.old.octets self.new.octets) }
        ensures room { OnOk result (RoomIsFor self.old self.new) }
    {
        make_room(&mut self.room, self.used, 17)?;
        self.used = put_name(&mut self.room, self.used, name);
        Ok(())
    }

    /// A number of at most 64 bits in decimal.
    #[inline(always)]
    #[tactic(auto, using(crate::proofs::Octets::token_put))]
    pub(crate) fn number(&mut self, number: u64) -> Result<(), AllocError>
        ensures appended { OnOk result (Puts after_spaces (one_onto (decimal number)) self.old.octets self.new.octets) }
        ensures room { OnOk result (RoomIsFor self.old self.new) }
    {
        make_room(&mut self.room, self.used, 41)?;
        self.used = put_number(&mut self.room, self.used, number);
        Ok(())
    }

    /// Steps, whose numbers stand in the `width` bits from bit `at` of the body on. Room is asked for once: 72 octets for each
    /// step, and 32.
    #[inline(always)]
    pub(crate) fn steps(
        &mut self,
        steps: &TemplateSteps,
        body: &[u8],
        at: u32,
        width: u32,
    ) -> Result<(), AllocError>
        requires bounds { TemplateInBounds (whole_template steps.now) }
        requires width { template_width (whole_template steps.now) ≡ width }
        requires within { at + width ≤ 8 * length body.now }
        requires body { length body.now ≤ longest_body }
        ensures appended { OnOk result (self.new.octets ≡ self.old.octets ++ printed (whole_template steps.now) (drop at (bits body.now))) }
        ensures room { OnOk result ((self.new.room ≡ self.old.room) ⊎ (self.new.room ≤ 2 * (length self.old.octets + (72 * length steps.now.steps + 32)) + 256)) }
    {
        make_room(&mut self.room, self.used, template_room(steps))?;
        let run = BitRun { body, at, width };
        self.used = put_template(&mut self.room, self.used, steps, run);
        Ok(())
    }

    /// Any number in decimal.
    pub(crate) fn wide_number(&mut self, number: u128) -> Result<(), AllocError>
        ensures appended { OnOk result (Puts after_spaces (one_onto (decimal number)) self.old.octets self.new.octets) }
        ensures room { OnOk result (RoomIsFor self.old self.new) }
    {
        let mut buffer = Buffer::new();
        self.text(buffer.format(number).as_bytes())
    }

    /// A category in three digits.
    pub(crate) fn category(&mut self, category: u8) -> Result<(), AllocError>
        ensures appended { OnOk result (Puts after_spaces (one_onto (three_digits category)) self.old.octets self.new.octets) }
        ensures room { OnOk result (RoomIsFor self.old self.new) }
    {
        self.text(&category_digits(category))
    }

    /// Octets in hexadecimal digits, in quotes.
    #[tactic(auto, using(ax_text_form::proofs::Printed::hex_put))]
    pub(crate) fn hex(&mut self, octets: &[u8]) -> Result<(), AllocError>
        ensures appended { OnOk result (Puts after_spaces (one_onto (hex_text octets.now)) self.old.octets self.new.octets) }
        ensures room { OnOk result (RoomIsFor self.old self.new) }
    {
        self.more(b" \"")?;
        let digits = hex::encode(self.alloc, octets)?;
        self.more(digits.as_bytes())?;
        self.more(b"\"")?;
        Ok(())
    }

    /// The line feed after the last token.
    pub(crate) fn end(&mut self) -> Result<(), AllocError>
        ensures appended { OnOk result (self.new.octets ≡ self.old.octets ++ line_feed ∷ []) }
        ensures room { OnOk result (RoomIsFor self.old self.new) }
    {
        self.more(b"\n")
    }
}
