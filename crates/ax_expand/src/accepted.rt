//! Acceptance: which expansions are without flaw.
ghost use Rattle.std.specs.Prelude.{◌≡◌, ◌++◌, [], ◌∷◌, IfOk, OnOk, IfErr, map};
ghost use Rattle.ax_format.specs.OfCode.{spec_flaws};
ghost use Rattle.ax_format.specs.Plain.{slot_tree, slots_tree, spec_tree};
ghost use Rattle.ax_expand.specs.Accepting.{WhyFlawed};
ghost use Rattle.ax_expand.specs.Expansion.{re, wrapped_tree, expansion_tree, has_too_few_marks, mark_flaws, all_flaws, HasNoExpansionFlaw};

use crate::expansion::Expansion;
use crate::form::Form;
use ax_check::{CheckError, flaws};
use ax_format::{
    Flaw, FlawKind, Flaws, Item, Items, Kind, Name, Slot, Slots, Spec, Text, UapSlot, UapSlots,
    at_name, of_category,
};
use std::alloc::{AllocError, Global};
use std::marker::Model;

/// An expansion without flaw, with the specification that stands for it. Contracts see it as that expansion.
pub struct AcceptedExpansion {
    expansion: Expansion,
    wrapped: Spec,
}

impl Drop for AcceptedExpansion {
    fn drop(self) {
        let AcceptedExpansion {
            expansion: _expansion,
            wrapped: _wrapped,
        } = self;
    }
}

impl Model for AcceptedExpansion {
    ghost use Rattle.std.specs.Prelude.{◌≡◌};
    ghost use Rattle.ax_format.specs.Plain.{spec_tree};
    ghost use Rattle.ax_expand.specs.Expansion.{wrapped_tree, HasNoExpansionFlaw};
    ghost use Rattle.ax_expand.specs.contracts.expansion.Expansion as row;
    ghost use Rattle.ax_expand.specs.declared.expansion.Expansion.{Expansion};

    ghost Value = { Expansion };

    ghost coded = { row.the_row.coded };

    ghost view = { λ a. a.expansion };

    ghost invariant = { λ a. HasNoExpansionFlaw a.expansion × (spec_tree a.wrapped ≡ wrapped_tree a.expansion) };
}

impl AcceptedExpansion {
    /// The expansion. It has no flaw.
    pub fn expansion(&self) -> &Expansion
        ensures expansion { result.now ≡ self.now }
        ensures no_flaw { HasNoExpansionFlaw self.now }
    {
        &self.expansion
    }

    /// The specification of its category and edition with one item, RE, that is the compound of its slots, and a UAP of
    /// that item alone.
    pub fn wrapped(&self) -> &Spec
        ensures { spec_tree result.now ≡ wrapped_tree self.now }
    {
        &self.wrapped
    }
}

fn copy_slot(alloc: Global, slot: &Slot) -> Result<Slot, AllocError>
    ensures { IfOk result (λ made. slot_tree made ≡ slot_tree slot.now) }
{
    match slot {
        Slot::Spare => Ok(Slot::Spare),
        Slot::Sub { name, kind } => Ok(Slot::Sub {
            name: *name,
            kind: kind.copy(alloc)?,
        }),
    }
}

fn copy_slots(alloc: Global, slots: &Slots) -> Result<Slots, AllocError>
    ensures { IfOk result (λ made. map slot_tree made ≡ map slot_tree slots.now) }
{
    let mut made = Slots::new(alloc);
    for slot in slots.as_slice() {
        made.push(copy_slot(alloc, slot)?)?;
    }
    Ok(made)
}

/// The name of the reserved expansion field.
fn re() -> Name
    ensures { result ≡ re }
{
    match Name::of(b"RE") {
        Some(name) => name,
        None => unreachable!(),
    }
}

/// The specification that stands for the expansion.
fn wrap(alloc: Global, one: &Expansion) -> Result<Spec, AllocError>
    ensures { IfOk result (λ made. spec_tree made ≡ wrapped_tree one.now) }
{
    let mut items = Items::new(alloc);
    items.push(Item {
        name: re(),
        title: Text::new(alloc),
        kind: Kind::Compound(copy_slots(alloc, &one.slots)?),
    })?;
    let mut uap = UapSlots::new(alloc);
    uap.push(UapSlot::Item(re()))?;
    Ok(Spec {
        category: one.category,
        edition: one.edition.copy(alloc)?,
        items,
        uap,
    })
}

/// Whether a fixed form has fewer marks than there are slots, of which there are at most 126.
fn has_too_few_marks(form: Form, slots: u32) -> bool
    ensures { result ≡ has_too_few_marks form slots }
{
    match form {
        Form::Fx => false,
        Form::Fixed(octets) => 8 * u64::from(octets) < u64::from(slots) && slots <= 126,
    }
}

/// Appends the flaw of the form, if it has one. A list of more than 2^32 - 1 flaws is a want of memory.
#[tactic(auto, using(crate::proofs::ExpansionFlaws::slots_counted))]
fn find_in_form(alloc: Global, found: &mut Flaws, one: &Expansion) -> Result<(), AllocError>
    ensures { OnOk result (found.new ≡ found.old ++ mark_flaws (expansion_tree one.now)) }
{
    if !has_too_few_marks(one.form, one.slots.count()) {
        return Ok(());
    }
    if found.count() == u32::MAX {
        return Err(AllocError);
    }
    let path = at_name(alloc, &of_category(alloc, one.category)?, &re())?;
    found.push(Flaw {
        kind: FlawKind::TooManySlots,
        path,
    })
}

/// The flaws of the expansion, in their order, where the specification stands for it.
fn find(alloc: Global, one: &Expansion, spec: &Spec) -> Result<Flaws, AllocError>
    requires { spec_tree spec.now ≡ wrapped_tree one.now }
    ensures { IfOk result (λ made. made ≡ all_flaws one.now) }
{
    let mut found = flaws(alloc, spec)?;
    find_in_form(alloc, &mut found, one)?;
    Ok(found)
}

/// The specification that stands for the expansion, and the flaws of the expansion.
fn judge(alloc: Global, one: &Expansion) -> Result<(Spec, Flaws), AllocError>
    ensures { IfOk result (λ r. (spec_tree r.0 ≡ wrapped_tree one.now) × (r.1 ≡ all_flaws one.now)) }
{
    let wrapped = wrap(alloc, one)?;
    let found = find(alloc, one, &wrapped)?;
    Ok((wrapped, found))
}

/// Accepts an expansion without flaw. Its flaws are those of the specification that stands for it, and then TooManySlots
/// where its form has fewer marks than it has slots. Flawed comes exactly where it has flaws, with all of them in their
/// order.
pub fn accept_expansion(alloc: Global, one: Expansion) -> Result<AcceptedExpansion, CheckError>
    ensures same { IfOk result (λ accepted. accepted ≡ one) }
    ensures no_flaw { OnOk result (HasNoExpansionFlaw one) }
    ensures flawed { IfErr result (WhyFlawed one) }
{
    let (wrapped, found) = match judge(alloc, &one) {
        Ok(judged) => judged,
        Err(_) => return Err(CheckError::OutOfMemory),
    };
    if found.count() > 0 {
        return Err(CheckError::Flawed { flaws: found });
    }
    Ok(AcceptedExpansion {
        expansion: one,
        wrapped,
    })
}
