//! The laws of expansion files and of contents. Each function stands for what its contract says.
ghost use Rattle.std.specs.Prelude.{◌≡◌, ℕ, ◌<◌, ◌≤◌, ◌⊎◌, ◌↔◌, List, [], ◌++◌, length};
ghost use Rattle.ax_bits.specs.Bits.{bits, AreBits};
ghost use Rattle.ax_format.specs.Shape.{Shape};
ghost use Rattle.ax_format.specs.Sound.{Sound};
ghost use Rattle.ax_format.specs.Spelling.{Spells};
ghost use Rattle.ax_format.specs.Failing.{Fails};
ghost use Rattle.ax_format.specs.Reader.{got, failed};
ghost use Rattle.ax_format.specs.Tree.{SlotsTree, ValueTree, compound};
ghost use Rattle.ax_format.specs.declared.fault.BodyCause.{BodyCause};
ghost use Rattle.ax_expand.specs.Answers.{IsJudgedOnce};
ghost use Rattle.ax_expand.specs.Content.{SpellsContent, CanonContent, StopsIn, FailsContent, content_cause};
ghost use Rattle.ax_expand.specs.Expansion.{ExpansionTree, NoExpansionFlaw};
ghost use Rattle.ax_expand.specs.Fields.{HasMarks};
ghost use Rattle.ax_expand.specs.Files.{ExpansionInRange, expansion_texts, NamesBadExpansionToken, SpellsExpansion};
ghost use Rattle.ax_expand.specs.Reading.{content_read};
ghost use Rattle.ax_expand.specs.declared.fault.ContentCause.TheVariants.{TrailingOctets};
ghost use Rattle.ax_expand.specs.declared.form.Form.{Form};
ghost use Rattle.ax_expand.specs.declared.form.Form.TheVariants.{Fx};
ghost use Rattle.ax_tokens.specs.PlainToken.{PlainToken};

/// A spelling determines its expansion.
pub fn expansion_spelled_once()
    ensures { (x y : ExpansionTree) → ExpansionInRange x → ExpansionInRange y → expansion_texts x ≡ expansion_texts y → x ≡ y }
{}

/// Any tokens spell an expansion, or one of them is the first bad one.
pub fn expansion_spelled_or_bad()
    ensures { (tokens : List PlainToken) → ((x : ExpansionTree) × SpellsExpansion tokens x)
        ⊎ ((token : ℕ) × NamesBadExpansionToken tokens token) }
{}

/// No spelling of a content begins another, and a spelling determines its value.
pub fn contents_prefix_free()
    ensures { (form : Form) (ss : SlotsTree) (v w : ValueTree) (b c x y : List ℕ) → SpellsContent form ss v b
        → SpellsContent form ss w c → b ++ x ≡ c ++ y → (b ≡ c) × (v ≡ w) }
{}

/// A content is spelled by exactly one value, or fails at exactly one place with exactly one cause, and never both.
pub fn content_judged_once()
    ensures { (form : Form) (ss : SlotsTree) (octets : List ℕ) → Sound (compound ss) → IsJudgedOnce form ss (bits octets) }
{}

/// The canonical content of a value of the compound's shape spells it; no spelling is shorter; canonical contents are equal
/// exactly where the values are.
pub fn canonical_content()
    ensures spells { (form : Form) (ss : SlotsTree) (v : ValueTree) → Sound (compound ss) → HasMarks form ss
        → Shape (compound ss) v → SpellsContent form ss v (CanonContent form ss v) }
    ensures least { (form : Form) (ss : SlotsTree) (v : ValueTree) (b : List ℕ) → SpellsContent form ss v b
        → length (CanonContent form ss v) ≤ length b }
    ensures apart { (form : Form) (ss : SlotsTree) (v w : ValueTree) → Sound (compound ss) → HasMarks form ss
        → Shape (compound ss) v → Shape (compound ss) w → CanonContent form ss v ≡ CanonContent form ss w ↔ v ≡ w }
{}

/// The kind of an expansion without flaw is sound, and its form has a mark for each slot: what the other laws ask for.
pub fn unflawed_is_sound()
    ensures sound { (x : ExpansionTree) → NoExpansionFlaw x → Sound (compound x.slots) }
    ensures marks { (x : ExpansionTree) → NoExpansionFlaw x → HasMarks x.form x.slots }
{}

/// What is read of a content decides what it is: a value with nothing left is spelled; where octets are left, they are the
/// fault; and a fault of the reading is the content's.
pub fn reading_decides()
    ensures spelled { (x : ExpansionTree) (octets : List ℕ) (v : ValueTree) (n : ℕ) → NoExpansionFlaw x
        → content_read x.form x.slots (bits octets) ≡ got v n [] → SpellsContent x.form x.slots v (bits octets) }
    ensures trails { (x : ExpansionTree) (octets : List ℕ) (v : ValueTree) (n : ℕ) (rest : List ℕ) → NoExpansionFlaw x
        → 0 < length rest → content_read x.form x.slots (bits octets) ≡ got v n rest
        → FailsContent x.form x.slots (bits octets) n TrailingOctets }
    ensures fails { (x : ExpansionTree) (octets : List ℕ) (p : ℕ) (c : BodyCause) → NoExpansionFlaw x
        → content_read x.form x.slots (bits octets) ≡ failed p c → FailsContent x.form x.slots (bits octets) p (content_cause c) }
{}

/// By FX a content is a compound's spelling, and its faults but for octets behind it are a compound's. In either form what is spelled has the compound's shape.
pub fn content_as_compound()
    ensures spelled { (ss : SlotsTree) (v : ValueTree) (b : List ℕ) → SpellsContent Fx ss v b ↔ Spells (compound ss) v b }
    ensures fails { (ss : SlotsTree) (b : List ℕ) (p : ℕ) (c : BodyCause) → StopsIn Fx ss b p c ↔ Fails (compound ss) b p c }
    ensures shape { (form : Form) (ss : SlotsTree) (v : ValueTree) (b : List ℕ) → SpellsContent form ss v b
        → Shape (compound ss) v }
{}
