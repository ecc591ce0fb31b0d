//! Data blocks as text, printed while their octets are read: no value is made of them. `text` as the work of a block command.
#![tactic(auto)]

mod bit_run;
mod blocks;
mod build;
mod drafting;
mod fixed;
mod held;
mod items;
mod kinds;
mod line;
mod literal;
mod named;
mod nesting;
mod parts;
mod records;
mod room;
mod run_texts;
mod step_texts;
mod steps;
mod tables;
mod templates;
mod three_digits;
mod units;
mod work;

pub use blocks::{print_block, print_opaque};
pub use drafting::{StepsLeft, TextFixed, TextPart};
pub use held::{TextKind, TextParts, TextSlot, TextSlots};
pub use items::TextItems;
pub use line::TokenLine;
pub use literal::TemplateLiteral;
pub use named::TextNamed;
pub use tables::{PrintedUap, PrintedUaps, tables_of};
pub use templates::{TemplateStep, TemplateSteps};
pub use work::TextViews;
