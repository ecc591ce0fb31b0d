//! The laws of the definitions. Each function stands for what its contract says, over all kinds at every depth.
//!
//! A law of a specification without flaw stands beside the finer one, whose premises are all that it needs:
//! that a kind is sound, which bits spell at all, and that it is whole octets.
ghost use Rattle.std.specs.Prelude.{◌≡◌, ℕ, ◌+◌, ◌*◌, ◌%◌, ◌<◌, ◌≤◌, ◌↔◌, ◌⊎◌, List, ◌++◌, length, get_or};
ghost use Rattle.std.specs.List.{AllByRecursion};
ghost use Rattle.ax_bits.specs.Bits.{bits, AreBits};
ghost use Rattle.ax_format.specs.Bodies.{RecordShape, SpellsRecord, CanonRecord, FailsRecord, SpellsBody, CanonBody, FailsBody};
ghost use Rattle.ax_format.specs.Canonical.{canon};
ghost use Rattle.ax_format.specs.Completing.{Completes};
ghost use Rattle.ax_format.specs.Failing.{Fails};
ghost use Rattle.ax_format.specs.Flaws.{NoFlaw};
ghost use Rattle.ax_format.specs.InBounds.{InBounds};
ghost use Rattle.ax_model.specs.Judging.{IsJudgedOnce, FrontSpells, FrontSpellsRecord};
ghost use Rattle.ax_format.specs.Places.{HasEntry, IsByPlaces, HasNoRedundantOctet};
ghost use Rattle.ax_format.specs.Presence.{Presence, least_presence};
ghost use Rattle.ax_format.specs.Shape.{Shape};
ghost use Rattle.ax_format.specs.Sound.{Sound};
ghost use Rattle.ax_format.specs.Specification.{SpecTree, record_kind};
ghost use Rattle.ax_format.specs.Spelling.{Spells, EntriesSpell};
ghost use Rattle.ax_format.specs.Standing.{StandsIn};
ghost use Rattle.ax_format.specs.Telling.{fault_bits, BeginAlike};
ghost use Rattle.ax_format.specs.Tree.{KindTree, SlotsTree, ValueTree, EntriesTree};
ghost use Rattle.ax_format.specs.Whole.{Whole};
ghost use Rattle.ax_format.specs.declared.fault.BodyCause.TheVariants.{RunsOut};
ghost use Rattle.ax_format.specs.declared.fault.BodyCause.{BodyCause};

// ---- spellings are prefix-free

/// Two spellings of one kind that begin one list are one, and so are their values: no spelling begins another.
/// Likewise of records.
#[tactic(auto, using(ax_format::proofs::PrefixFree::prefix_free))]
pub fn prefix_free()
    ensures kinds { (k : KindTree) (v w : ValueTree) (b c x y : List ℕ) → Spells k v b → Spells k w c → b ++ x ≡ c ++ y
        → (b ≡ c) × (v ≡ w) }
    ensures records { (spec : SpecTree) (r s : EntriesTree) (b c x y : List ℕ) → SpellsRecord spec r b → SpellsRecord spec s c
        → b ++ x ≡ c ++ y → (b ≡ c) × (r ≡ s) }
{}

// ---- spelled once or fails once

/// Octets, which may be none, begin with a spelling of exactly one value of a kind, or fail at exactly one place with
/// exactly one cause, and never both.
pub fn kind_spelled_once_or_fails_once()
    ensures without_flaw { (spec : SpecTree) (k : KindTree) (octets : List ℕ) → NoFlaw spec → StandsIn spec k
        → IsJudgedOnce (FrontSpells k octets) (Fails k (bits octets)) }
    ensures finer { (k : KindTree) (octets : List ℕ) → Sound k → Whole k
        → IsJudgedOnce (FrontSpells k octets) (Fails k (bits octets)) }
{}

/// Likewise of a record.
pub fn record_spelled_once_or_fails_once()
    ensures without_flaw { (spec : SpecTree) (octets : List ℕ) → NoFlaw spec
        → IsJudgedOnce (FrontSpellsRecord spec octets) (FailsRecord spec (bits octets)) }
    ensures finer { (spec : SpecTree) (octets : List ℕ) → Sound (record_kind spec) → Whole (record_kind spec)
        → IsJudgedOnce (FrontSpellsRecord spec octets) (FailsRecord spec (bits octets)) }
{}

/// A body of at least one octet is spelled by exactly one list of records, or fails at exactly one place with exactly
/// one cause, and never both.
#[tactic(auto, using(crate::proofs::Judged::bodies_judged))]
pub fn body_spelled_once_or_fails_once()
    ensures without_flaw { (spec : SpecTree) (octets : List ℕ) → NoFlaw spec → 0 < length octets
        → IsJudgedOnce (λ records. SpellsBody spec records (bits octets)) (FailsBody spec (bits octets)) }
    ensures finer { (spec : SpecTree) (octets : List ℕ) → Sound (record_kind spec) → 0 < length octets
        → IsJudgedOnce (λ records. SpellsBody spec records (bits octets)) (FailsBody spec (bits octets)) }
{}

/// The same of any bits, part by part, each with the premises that it needs.
#[tactic(auto, using(ax_format::proofs::Once::spelled_or_fails, ax_format::proofs::Once::never_both, ax_format::proofs::Once::fails_once))]
pub fn bits_spelled_or_fail()
    ensures some { (k : KindTree) (b : List ℕ) → Sound k → AreBits b →
        ((v : ValueTree) × (x : List ℕ) × (y : List ℕ) × (b ≡ x ++ y) × Spells k v x) ⊎ ((p : ℕ) × (c : BodyCause) × Fails k b p c) }
    ensures never_both { (k : KindTree) (v : ValueTree) (x y : List ℕ) (p : ℕ) (c : BodyCause) → Spells k v x
        → Fails k (x ++ y) p c → ⊥ }
    ensures one_fault { (k : KindTree) (b : List ℕ) (p q : ℕ) (c d : BodyCause) → Fails k b p c → Fails k b q d
        → (p ≡ q) × (c ≡ d) }
{}

// ---- the canonical spelling is least and tells values apart

/// What is spelled has the shape of its kind. Likewise of records.
#[tactic(auto, using(ax_format::proofs::CanonSpells::spells_shape))]
pub fn spelled_has_shape()
    ensures kinds { (k : KindTree) (v : ValueTree) (b : List ℕ) → Spells k v b → Shape k v }
    ensures records { (spec : SpecTree) (r : EntriesTree) (b : List ℕ) → SpellsRecord spec r b → RecordShape spec r }
{}

/// The canonical spelling of a value of the kind's shape spells it.
#[tactic(auto, using(ax_format::proofs::RecordLaws::standing_canon_spells, ax_format::proofs::RecordLaws::flawless_body_canon_spells, ax_format::proofs::CanonSpells::canon_spells))]
pub fn canon_spells()
    ensures kinds { (spec : SpecTree) (k : KindTree) (v : ValueTree) → NoFlaw spec → StandsIn spec k → Shape k v
        → Spells k v (canon k v) }
    ensures records { (spec : SpecTree) (r : EntriesTree) → NoFlaw spec → RecordShape spec r
        → SpellsRecord spec r (CanonRecord spec r) }
    ensures bodies { (spec : SpecTree) (records : List EntriesTree) → NoFlaw spec → 0 < length records
        → AllByRecursion (RecordShape spec) records → SpellsBody spec records (CanonBody spec records) }
    ensures finer { (k : KindTree) (v : ValueTree) → Sound k → Shape k v → Spells k v (canon k v) }
{}

/// No spelling is shorter than the canonical one.
#[tactic(auto, using(ax_format::proofs::CanonSpells::canon_shortest, ax_format::proofs::RecordLaws::body_canon_shortest))]
pub fn canon_is_least()
    ensures kinds { (k : KindTree) (v : ValueTree) (b : List ℕ) → Spells k v b → length (canon k v) ≤ length b }
    ensures records { (spec : SpecTree) (r : EntriesTree) (b : List ℕ) → SpellsRecord spec r b
        → length (CanonRecord spec r) ≤ length b }
    ensures bodies { (spec : SpecTree) (records : List EntriesTree) (b : List ℕ) → SpellsBody spec records b
        → length (CanonBody spec records) ≤ length b }
{}

/// Canonical spellings are equal exactly where the values are.
pub fn canon_tells_apart()
    ensures kinds { (spec : SpecTree) (k : KindTree) (v w : ValueTree) → NoFlaw spec → StandsIn spec k → Shape k v → Shape k w
        → canon k v ≡ canon k w ↔ v ≡ w }
    ensures records { (spec : SpecTree) (r s : EntriesTree) → NoFlaw spec → RecordShape spec r → RecordShape spec s
        → CanonRecord spec r ≡ CanonRecord spec s ↔ r ≡ s }
    ensures bodies { (spec : SpecTree) (rs ss : List EntriesTree) → NoFlaw spec → 0 < length rs → 0 < length ss
        → AllByRecursion (RecordShape spec) rs → AllByRecursion (RecordShape spec) ss →
        CanonBody spec rs ≡ CanonBody spec ss ↔ rs ≡ ss }
    ensures finer { (k : KindTree) (v w : ValueTree) → Sound k → Shape k v → Shape k w → canon k v ≡ canon k w ↔ v ≡ w }
{}

// ---- specifications without flaw

/// The kinds of a specification without flaw, and its records, have widths and counts in bounds; then they are sound and
/// whole octets.
#[tactic(auto, using(ax_format::proofs::Bounds::standing_bounds, ax_format::proofs::Bounds::record_bounds, ax_format::proofs::Bounds::bounds_sound, ax_format::proofs::Bounds::bounds_whole))]
pub fn without_flaw_in_bounds()
    ensures kinds { (spec : SpecTree) (k : KindTree) → NoFlaw spec → StandsIn spec k → InBounds k }
    ensures records { (spec : SpecTree) → NoFlaw spec → InBounds (record_kind spec) }
    ensures sound { (k : KindTree) → InBounds k → Sound k }
    ensures whole { (k : KindTree) → InBounds k → Whole k }
{}

/// A spelling of a kind of whole octets is whole octets, and a fault stands at a bit or at the end.
#[tactic(auto, using(ax_format::proofs::WholeOctets::spells_whole, ax_format::proofs::WholeOctets::fails_within))]
pub fn spellings_and_places()
    ensures whole { (k : KindTree) (v : ValueTree) (b : List ℕ) → Whole k → Spells k v b → length b % 8 ≡ 0 }
    ensures within { (k : KindTree) (b : List ℕ) (p : ℕ) (c : BodyCause) → Fails k b p c → p ≤ length b }
{}

// ---- presence fields by the places of their bits

/// A presence field with these marks is the field by the places of its bits. A slot is marked exactly where there is an
/// entry for it.
#[tactic(auto, using(crate::proofs::ByPlaces::presence_is_by_places, crate::proofs::ByPlaces::by_places_is_presence, ax_format::proofs::Places::marks_stand))]
pub fn presence_is_by_places()
    ensures places { (k : ℕ) (marks f : List ℕ) → Presence k marks f ↔ IsByPlaces k marks f }
    ensures entries { (s : ℕ) (ss : SlotsTree) (marks : List ℕ) (es : EntriesTree) (b : List ℕ) (t u : ℕ) → u ≡ s + t
        → EntriesSpell s ss marks es b → get_or marks t 0 ≡ 1 ↔ HasEntry u es }
{}

/// The least presence field has the marks and no others, and no redundant octet.
#[tactic(auto, using(crate::proofs::ByPlaces::least_is_field, crate::proofs::ByPlaces::least_has_no_redundant))]
pub fn least_presence_is_least()
    ensures field { (k : ℕ) (marks : List ℕ) → AreBits marks → 0 < k → length marks ≤ 7 * k →
        (same : List ℕ) × Presence k same (least_presence k marks) × ((t : ℕ) → get_or same t 0 ≡ get_or marks t 0) }
    ensures least { (k : ℕ) (marks : List ℕ) → AreBits marks → 0 < k → length marks ≤ 7 * k
        → HasNoRedundantOctet marks (least_presence k marks) }
{}

// ---- places of faults are true

/// A fault other than want of bits is told by the bits through its place: no list that begins with them begins with a
/// spelling.
pub fn told_spells_none()
    ensures { (k : KindTree) (b d x y : List ℕ) (p : ℕ) (c : BodyCause) (v : ValueTree) →
        (c ≡ RunsOut → ⊥) → BeginAlike (p + fault_bits c) b d → Fails k b p c → d ≡ x ++ y → Spells k v x → ⊥ }
{}

/// The bits before a fault begin some spelling, and where octets only run out all of them do.
pub fn completes()
    ensures { (k : KindTree) (octets : List ℕ) (p : ℕ) (c : BodyCause) → Sound k → Whole k → Fails k (bits octets) p c →
        Completes (λ w. (v : ValueTree) × Spells k v w) (bits octets) p c }
{}

/// A body's fault other than want of bits is told by the bits through its place: no body that begins with them spells
/// records.
pub fn told_spells_no_body()
    ensures { (spec : SpecTree) (b d : List ℕ) (p : ℕ) (c : BodyCause) (records : List EntriesTree) →
        (c ≡ RunsOut → ⊥) → BeginAlike (p + fault_bits c) b d → FailsBody spec b p c → SpellsBody spec records d → ⊥ }
{}

/// The bits before a body's fault begin some body, and where its octets only run out all of them do.
pub fn body_completes()
    ensures { (spec : SpecTree) (octets : List ℕ) (p : ℕ) (c : BodyCause) → Sound (record_kind spec) → Whole (record_kind spec)
        → FailsBody spec (bits octets) p c →
        Completes (λ w. (records : List EntriesTree) × SpellsBody spec records w) (bits octets) p c }
{}
