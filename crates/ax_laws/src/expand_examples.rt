//! Worked examples of the definitions. Each function stands for what its contract says.
ghost use Rattle.std.specs.Prelude.{◌≡◌, [], ◌∷◌, codes};
ghost use Rattle.ax_bits.specs.Bits.{bits};
ghost use Rattle.ax_format.specs.Tree.{number, occurrences, values_of, marked, no_entries, entry_and};
ghost use Rattle.ax_format.specs.declared.flaw.FlawKind.TheVariants.{TooManySlots};
ghost use Rattle.ax_expand.specs.Content.{SpellsContent, CanonContent, FailsContent};
ghost use Rattle.ax_expand.specs.Examples.{one_octet, two_octets, by_fx, one_octet_for};
ghost use Rattle.ax_expand.specs.Expansion.{expansion_flaws};
ghost use Rattle.ax_laws.specs.ExpandedExamples.{first_and_third};
ghost use Rattle.ax_expand.specs.Files.{form_texts};
ghost use Rattle.ax_expand.specs.declared.fault.ContentCause.TheVariants.{RunsOut, UndefinedSlot, PresenceTooLong, TrailingOctets};
ghost use Rattle.ax_expand.specs.declared.form.Form.TheVariants.{Fx, Fixed};

// ---- contents of a fixed form

/// Canonical contents of one octet of marks and of two: the first mark is the most significant bit, and octets without marks
/// stay.
pub fn fixed_contents_written()
    ensures none { CanonContent (Fixed 1) one_octet.slots (marked no_entries) ≡ bits (0x00 ∷ []) }
    ensures first { CanonContent (Fixed 1) one_octet.slots (marked (entry_and 1 (number 5) no_entries)) ≡ bits (0x80 ∷ 0x05 ∷ []) }
    ensures third { CanonContent (Fixed 1) one_octet.slots (marked (entry_and 3 (occurrences (values_of (number 0xaa ∷ number 0xbb ∷ []))) no_entries))
        ≡ bits (0x20 ∷ 0x02 ∷ 0xaa ∷ 0xbb ∷ []) }
    ensures both { CanonContent (Fixed 1) one_octet.slots (marked first_and_third)
        ≡ bits (0xa0 ∷ 0x05 ∷ 0x01 ∷ 0x07 ∷ []) }
    ensures two_octets { CanonContent (Fixed 2) two_octets.slots (marked (entry_and 1 (number 5) no_entries)) ≡ bits (0x80 ∷ 0x00 ∷ 0x05 ∷ []) }
{}

/// Contents of one octet of marks, spelled and not: without any octet, with a spare slot marked before a defined one and
/// after it, with a slot marked past the last, with an entry cut off, and with an octet behind.
pub fn fixed_contents_judged()
    ensures first { SpellsContent (Fixed 1) one_octet.slots (marked (entry_and 1 (number 5) no_entries)) (bits (0x80 ∷ 0x05 ∷ [])) }
    ensures nothing { FailsContent (Fixed 1) one_octet.slots (bits []) 0 RunsOut }
    ensures spare { FailsContent (Fixed 1) one_octet.slots (bits (0xc0 ∷ 0x05 ∷ [])) 1 UndefinedSlot }
    ensures past_the_last { FailsContent (Fixed 1) one_octet.slots (bits (0x10 ∷ 0x05 ∷ [])) 3 UndefinedSlot }
    ensures cut_off { FailsContent (Fixed 1) one_octet.slots (bits (0x20 ∷ 0x02 ∷ 0xaa ∷ [])) 24 RunsOut }
    ensures trailing { FailsContent (Fixed 1) one_octet.slots (bits (0x80 ∷ 0x05 ∷ 0x07 ∷ [])) 16 TrailingOctets }
{}

/// Two octets of marks, of which the second is missing, and of which the second marks a slot that there isn't: judged before
/// the entry of the first.
pub fn second_octet_judged()
    ensures missing { FailsContent (Fixed 2) two_octets.slots (bits (0x80 ∷ [])) 8 RunsOut }
    ensures undefined { FailsContent (Fixed 2) two_octets.slots (bits (0x80 ∷ 0x05 ∷ [])) 13 UndefinedSlot }
{}

// ---- contents by FX

/// Canonical contents by FX: without a slot, and with the first and the eighth, whose mark is in a second octet.
pub fn fx_contents_written()
    ensures none { CanonContent Fx by_fx.slots (marked no_entries) ≡ bits (0x00 ∷ []) }
    ensures first { CanonContent Fx by_fx.slots (marked (entry_and 1 (number 5) no_entries)) ≡ bits (0x80 ∷ 0x05 ∷ []) }
    ensures eighth { CanonContent Fx by_fx.slots (marked (entry_and 8 (number 5) no_entries)) ≡ bits (0x01 ∷ 0x80 ∷ 0x05 ∷ []) }
{}

/// Contents by FX: with an octet of marks that isn't needed, with a third octet announced, and with an octet behind.
pub fn fx_contents_judged()
    ensures longer { SpellsContent Fx by_fx.slots (marked (entry_and 1 (number 5) no_entries)) (bits (0x81 ∷ 0x00 ∷ 0x05 ∷ [])) }
    ensures too_long { FailsContent Fx by_fx.slots (bits (0x81 ∷ 0x01 ∷ 0x00 ∷ 0x05 ∷ [])) 15 PresenceTooLong }
    ensures trailing { FailsContent Fx by_fx.slots (bits (0x00 ∷ 0x07 ∷ [])) 8 TrailingOctets }
{}

// ---- files and flaws

/// How forms are spelled.
#[tactic(auto, using(crate::proofs::ExpansionExamples::fixed_spelled))]
pub fn forms_spelled()
    ensures fx { form_texts Fx ≡ codes "fx" ∷ [] }
    ensures fixed { form_texts (Fixed 15) ≡ codes "fixed" ∷ codes "15" ∷ [] }
{}

/// One octet has marks for eight slots. More than 126 slots are one flaw, and not two.
pub fn slots_without_marks()
    ensures eight { expansion_flaws (one_octet_for 8) ≡ [] }
    ensures nine { expansion_flaws (one_octet_for 9) ≡ record { kind = TooManySlots; path = codes "048/RE" } ∷ [] }
    ensures too_many { expansion_flaws (one_octet_for 127) ≡ record { kind = TooManySlots; path = codes "048/RE" } ∷ [] }
{}
