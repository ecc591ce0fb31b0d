//! Records split into data blocks: worked examples, and the laws. Each function stands for what its contract says.
ghost use Rattle.std.specs.Prelude.{◌≡◌, ℕ, ◌<◌, ◌≤◌, List, [], ◌∷◌, length, take, drop, None, Some};
ghost use Rattle.ax_format.specs.LongestFronts.{AllFit, AreLongestFronts, IsLongestFront, joined_lists};
ghost use Rattle.ax_format.specs.Specification.{SpecTree};
ghost use Rattle.ax_format.specs.Split.{EachFits, fit_within, records_length, split_within, too_long_within};
ghost use Rattle.ax_format.specs.Tree.{EntriesTree, no_entries};
ghost use Rattle.ax_model.specs.ExampleValues.{of_octet, one_octet};

/// Records of two octets, and of one that has no item: the first blocks are full, though a later record would fit in them.
pub fn records_in_small_blocks()
    ensures length { records_length one_octet (of_octet 5 ∷ no_entries ∷ []) ≡ 6 }
    ensures whole { split_within 6 one_octet (of_octet 5 ∷ no_entries ∷ [])
        ≡ (of_octet 5 ∷ no_entries ∷ []) ∷ [] }
    ensures long { split_within 6 one_octet (of_octet 5 ∷ of_octet 6 ∷ no_entries ∷ no_entries ∷ [])
        ≡ (of_octet 5 ∷ []) ∷ (of_octet 6 ∷ no_entries ∷ []) ∷ (no_entries ∷ []) ∷ [] }
    ensures fit { fit_within 6 one_octet (of_octet 5 ∷ of_octet 6 ∷ [])
        ≡ 1 }
    ensures none { split_within 6 one_octet [] ≡ [] }
{}

/// The first record that has too many octets for a block of its own.
pub fn records_that_are_too_long()
    ensures long { too_long_within 4 one_octet (no_entries ∷ of_octet 5 ∷ []) ≡ Some 5 }
    ensures none { too_long_within 4 one_octet (no_entries ∷ no_entries ∷ []) ≡ None }
    ensures fit { fit_within 4 one_octet (of_octet 5 ∷ no_entries ∷ []) ≡ 0 }
{}

/// As many records as fit are the longest front of the records that does, where a block of none does.
pub fn fit_is_the_longest_front()
    ensures front { (room : ℕ) (spec : SpecTree) (records : List EntriesTree) → 3 ≤ room
        → IsLongestFront room spec records (take (fit_within room spec records) records) (drop (fit_within room spec records) records) }
    ensures within { (room : ℕ) (spec : SpecTree) (records : List EntriesTree) → fit_within room spec records ≤ length records }
    ensures none { (room : ℕ) (spec : SpecTree) (r : EntriesTree) (rs : List EntriesTree) → fit_within room spec (r ∷ rs) ≡ 0
        → room < records_length spec (r ∷ []) }
{}

/// Records of which none alone is too long are split into the longest fronts, one after another, and no other way is so. The
/// blocks have the records in order, each has one at least, and none has too many octets.
pub fn split_is_by_longest_fronts()
    ensures fronts { (room : ℕ) (spec : SpecTree) (records : List EntriesTree) → 3 ≤ room → EachFits room spec records
        → AreLongestFronts room spec records (split_within room spec records) }
    ensures one { (room : ℕ) (spec : SpecTree) (records : List EntriesTree) (lists : List (List EntriesTree)) → 3 ≤ room
        → EachFits room spec records → AreLongestFronts room spec records lists → lists ≡ split_within room spec records }
    ensures joined { (room : ℕ) (spec : SpecTree) (records : List EntriesTree)
        → joined_lists (split_within room spec records) ≡ records }
    ensures fit { (room : ℕ) (spec : SpecTree) (records : List EntriesTree) → EachFits room spec records
        → AllFit room spec (split_within room spec records) }
{}

/// The first block takes as many records as fit, and the others are split from those that are left.
pub fn split_by_fit()
    ensures { (room : ℕ) (spec : SpecTree) (records : List EntriesTree) (n : ℕ) → fit_within room spec records ≡ n → 0 < n
        → split_within room spec records ≡ take n records ∷ split_within room spec (drop n records) }
{}

/// A record that is too long for a block of its own is found exactly where there is one.
pub fn long_records_are_found()
    ensures none { (room : ℕ) (spec : SpecTree) (records : List EntriesTree) → too_long_within room spec records ≡ None
        → EachFits room spec records }
    ensures some { (room : ℕ) (spec : SpecTree) (records : List EntriesTree) (count : ℕ)
        → too_long_within room spec records ≡ Some count → (EachFits room spec records → ⊥) × (room < count) }
{}
