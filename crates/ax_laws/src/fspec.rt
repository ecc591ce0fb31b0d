//! The laws of presence fields. Each function stands for what its contract says.

ghost use Rattle.std.specs.Prelude.{◌≡◌, ℕ, ◌-◌, ◌*◌, ◌≤◌, Bool, List, ◌++◌, length, drop};
ghost use Rattle.ax_bits.specs.Bits.{bits};
ghost use Rattle.ax_format.specs.Failing.{IsPresence};
ghost use Rattle.ax_format.specs.Presence.{octets_needed, NoneUndefined};
ghost use Rattle.ax_format.specs.declared.fault.BodyFault.{BodyFault};
ghost use Rattle.ax_fspec.specs.Fields.{IsFieldOf, MarksSlots, FailsToMark, mask_slots, least_field};
ghost use Rattle.ax_fspec.specs.Marks.{AreMarks};
ghost use Rattle.ax_fspec.specs.declared.mask.SlotMask.{SlotMask};

/// A presence field over n slots is never a proper prefix of another.
pub fn presence_prefix_free()
    ensures { (n : ℕ) (defined : List Bool) (marks others b c x y : List ℕ) →
        IsPresence (octets_needed n) defined marks b → IsPresence (octets_needed n) defined others c →
        b ++ x ≡ c ++ y → (b ≡ c) × (marks ≡ others) }
{}

/// A presence field marks one set.
pub fn field_of_one_set()
    ensures { (n : ℕ) (defined : List Bool) (marked other b : List ℕ) → length marked ≡ length other →
        IsFieldOf n defined marked b → IsFieldOf n defined other b → marked ≡ other }
{}

/// The least field of a set of defined slots is a presence field of that set, and the shortest of its fields.
pub fn least_field_is_shortest()
    ensures is_field { (n : ℕ) (defined : List Bool) (marked : List ℕ) → 1 ≤ n → n ≤ 126 → length defined ≤ n →
        AreMarks marked → NoneUndefined defined marked → IsFieldOf n defined marked (least_field marked) }
    ensures shortest { (n : ℕ) (defined : List Bool) (marked b : List ℕ) → n ≤ 126 →
        IsFieldOf n defined marked b → length (least_field marked) ≤ length b }
{}

/// Where the octets from one on begin with the least field of a set of defined slots, reading there gives the set back,
/// and the octet after the field, and finds no fault.
pub fn written_field_reads_back()
    ensures reads { (mask : SlotMask) (body : List ℕ) (at end : ℕ) (marked read rest : List ℕ) →
        AreMarks marked → NoneUndefined (mask_slots mask) marked → bits (drop at body) ≡ least_field marked ++ rest →
        MarksSlots mask body at end read → (read ≡ marked) × (8 * (end - at) ≡ length (least_field marked)) }
    ensures never_fails { (mask : SlotMask) (body : List ℕ) (at : ℕ) (fault : BodyFault) (marked rest : List ℕ) →
        AreMarks marked → NoneUndefined (mask_slots mask) marked → bits (drop at body) ≡ least_field marked ++ rest →
        FailsToMark mask body at fault → ⊥ }
{}
