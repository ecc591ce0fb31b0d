//! Kinds as `text` holds them: each fixed kind and each part with its template.
ghost use Rattle.ax_text_lines.specs.HeldText.{text_slot};

use crate::drafting::{TextFixed, TextPart};
use crate::named::TextNamed;
use ax_format::{Counter, LastPart, Name};
use ax_held_kinds::PresenceSlot;
use ax_lists::Sequence;

/// The parts of an extended item, in order.
pub type TextParts<'s> = Sequence<TextPart<'s>>;

/// The slots of a compound or of a UAP, in order; the first is slot 1.
pub type TextSlots<'s> = Sequence<TextSlot<'s>>;

/// The kind of an item, a subitem or a counted body.
#[cycle(kind)]
#[derive(Drop)]
pub enum TextKind<'s> {
    Fixed(TextFixed<'s>),
    Extended {
        last: LastPart,
        parts: TextParts<'s>,
    },
    Counted {
        counter: Counter,
        inner: Box<TextKind<'s>>,
    },
    ByFx(TextFixed<'s>),
    Explicit,
    Compound(TextSlots<'s>),
}

/// A slot of a compound or of a UAP.
#[cycle(kind)]
#[derive(Drop)]
pub enum TextSlot<'s> {
    Spare,
    /// One of a fixed kind.
    Named(TextNamed<'s>),
    /// One of any other kind.
    Sub { name: Name, kind: TextKind<'s> },
}

impl<'s> PresenceSlot for TextSlot<'s> {
    ghost tree = { λ slot. text_slot slot };

    fn is_sub(&self) -> bool {
        match self {
            TextSlot::Spare => false,
            TextSlot::Named(_) | TextSlot::Sub { .. } => true,
        }
    }
}
