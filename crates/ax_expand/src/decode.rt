//! Contents to values.
ghost use Rattle.std.specs.Prelude.{◌≡◌, ◌*◌, ◌≤◌, ℕ, length, IfOk, IfErr};
ghost use Rattle.ax_bits.specs.Bits.{bits};
ghost use Rattle.ax_format.specs.InBounds.{InBounds};
ghost use Rattle.ax_format.specs.Plain.{slots_tree, value_tree, entries_tree};
ghost use Rattle.ax_format.specs.Tree.{ValueTree, compound, marked};
ghost use Rattle.ax_fspec.specs.Reading.{Gets};
ghost use Rattle.ax_values.specs.SlotReading.{HasFailed};
ghost use Rattle.ax_expand.specs.Answers.{IsContentFault, ReadsValue, AnswersFault};
ghost use Rattle.ax_expand.specs.Content.{SpellsContent, FailsContent};
ghost use Rattle.ax_expand.specs.Reading.{content_read};
ghost use Rattle.ax_expand.specs.declared.fault.ContentCause.{ContentCause as Cause};

use crate::accepted::AcceptedExpansion;
use crate::fault::{ContentCause, ContentError, cause_of};
use crate::field::read_field;
use crate::form::Form;
use ax_format::{Entries, Slots, Value};
use ax_fspec::Presence;
use ax_values::{DecodeError, decode_marked};
use std::alloc::Global;

/// The entries that a front of the content spells, and the octet after them.
#[tactic(auto, using(crate::proofs::Decoded::fronts))]
fn decode_front(
    alloc: Global,
    form: Form,
    slots: &Slots,
    content: &[u8],
) -> Result<(Entries, u32), DecodeError>
    requires bounds { InBounds (compound (slots_tree slots.now)) }
    requires content { length content.now ≤ 254 }
    ensures ok { IfOk result (λ r. Gets (content_read form (slots_tree slots.now) (bits content.now)) content.now 0 r.1 (marked (entries_tree r.0))) }
    ensures err { IfErr result (λ e. HasFailed (content_read form (slots_tree slots.now) (bits content.now)) 0 e) }
{
    let mut marked = Presence::empty();
    let here = read_field(form, slots, content, &mut marked)?;
    decode_marked(alloc, slots, &marked, content, here)
}

/// The value that all of the content spells, or its first fault.
#[tactic(auto, using(crate::proofs::Decoded::wholes))]
fn decode_whole(
    alloc: Global,
    form: Form,
    slots: &Slots,
    content: &[u8],
) -> Result<Value, ContentError>
    requires bounds { InBounds (compound (slots_tree slots.now)) }
    requires content { length content.now ≤ 254 }
    ensures value { IfOk result (λ value. SpellsContent form (slots_tree slots.now) (value_tree value) (bits content.now)) }
    ensures fault { IfErr result (IsContentFault form (slots_tree slots.now) (bits content.now)) }
{
    match decode_front(alloc, form, slots, content) {
        Ok((entries, end)) => {
            if (end as usize) < content.len() {
                return Err(ContentError::Fault {
                    cause: ContentCause::TrailingOctets,
                    bit: 8 * end,
                });
            }
            Ok(Value::Compound(entries))
        }
        Err(DecodeError::Fault(fault)) => Err(ContentError::Fault {
            cause: cause_of(fault.cause),
            bit: fault.bit,
        }),
        Err(DecodeError::OutOfMemory) => Err(ContentError::OutOfMemory),
    }
}

/// The value that a content of at most 254 octets spells under the expansion, or its first fault. There is one answer: where
/// the content spells a value, it is that value, and where it fails, it is that fault.
#[tactic(auto, using(crate::proofs::ExpansionBounds::bounds))]
pub fn decode_content(
    alloc: Global,
    x: &AcceptedExpansion,
    content: &[u8],
) -> Result<Value, ContentError>
    requires { length content.now ≤ 254 }
    ensures value { IfOk result (λ value. SpellsContent x.now.form (slots_tree x.now.slots) (value_tree value) (bits content.now)) }
    ensures fault { IfErr result (IsContentFault x.now.form (slots_tree x.now.slots) (bits content.now)) }
    ensures where_spelled { (v : ValueTree) → SpellsContent x.now.form (slots_tree x.now.slots) v (bits content.now) → ReadsValue v result }
    ensures where_faulty { (p : ℕ) (c : Cause) → FailsContent x.now.form (slots_tree x.now.slots) (bits content.now) p c → AnswersFault p c result }
{
    let expansion = x.expansion();
    decode_whole(alloc, expansion.form, &expansion.slots, content)
}
