//! The laws of migration. Each function stands for what its contract says.
ghost use Rattle.std.specs.Prelude.{◌≡◌, ℕ, ◌<◌, ◌≤◌, ◌↔◌, List, ◌∷◌, length, map, take, Option, Some, None, true, is_some};
ghost use Rattle.std.specs.List.{AllByRecursion};
ghost use Rattle.ax_check.specs.Places.{place_of};
ghost use Rattle.ax_relation.specs.CutParts.{cut_after, first_bits};
ghost use Rattle.ax_relation.specs.Fates.{KeptOrLost, times};
ghost use Rattle.ax_format.specs.Blocks.{BlockTree, Fits};
ghost use Rattle.ax_format.specs.Bodies.{RecordShape};
ghost use Rattle.ax_format.specs.Canonical.{parts_canon};
ghost use Rattle.ax_format.specs.CanonicalOctets.{canon_length};
ghost use Rattle.ax_format.specs.Fitting.{list_count};
ghost use Rattle.ax_format.specs.Flaws.{NoFlaw};
ghost use Rattle.ax_format.specs.Migrated.{MigratedBlock, Migrated, Lost};
ghost use Rattle.ax_relation.specs.Moved.{first_lists};
ghost use Rattle.ax_format.specs.Named.{Key, NamedEntry, Named, named_paths};
ghost use Rattle.ax_format.specs.Placed.{is_present_part, place_from, named_place, placed_paths};
ghost use Rattle.ax_format.specs.Same.{Same, common, emptied_members, is_same};
ghost use Rattle.ax_format.specs.Shape.{PartsShape};
ghost use Rattle.ax_format.specs.Sizes.{longest_block};
ghost use Rattle.ax_format.specs.Specification.{SpecTree};
ghost use Rattle.ax_format.specs.Tree.{MembersTree, KindTree, ListsTree, EntriesTree};
ghost use Rattle.ax_format.specs.Whole.{PartsWhole};
ghost use Rattle.ax_format.specs.declared.kind.LastPart.{LastPart};
ghost use Rattle.ax_format.specs.declared.place.Place.{Place};

/// A record is determined by its entries.
pub fn entries_determine_the_record()
    ensures { (spec : SpecTree) (one other : EntriesTree) → NoFlaw spec → RecordShape spec one → RecordShape spec other
        → ((key : Key) → Named spec one key ≡ Named spec other key) → one ≡ other }
{}

/// Each record has exactly one migrated record.
pub fn migrates_once()
    ensures some { (old new : SpecTree) (entries : EntriesTree) → RecordShape old entries
        → (made : EntriesTree) × Migrated old new entries made }
    ensures one { (old new : SpecTree) (entries made other : EntriesTree) → NoFlaw new → Migrated old new entries made
        → Migrated old new entries other → made ≡ other }
{}

/// Each key that is present is kept with its entry, or lost once, and never both. No other is lost.
pub fn kept_or_lost()
    ensures present { (old new : SpecTree) (entries made : EntriesTree) (key : Key) (entry : NamedEntry) →
        NoFlaw old → Migrated old new entries made → Named old entries key ≡ Some entry
        → KeptOrLost old new entries made key entry }
    ensures absent { (old new : SpecTree) (entries : EntriesTree) (key : Key) → Named old entries key ≡ None
        → times key (Lost old new entries) ≡ 0 }
{}

/// The parts that two extended items have in common are the most first parts whose members are equal once tables are emptied.
#[tactic(auto, using(ax_relation::proofs::CommonParts::common_first, ax_relation::proofs::CommonParts::common_within, ax_relation::proofs::CommonParts::common_most))]
pub fn parts_in_common_are_the_most()
    ensures first { (one other : List MembersTree)
        → take (common one other) (map emptied_members one) ≡ take (common one other) (map emptied_members other) }
    ensures within { (one other : List MembersTree) → (common one other ≤ length one) × (common one other ≤ length other) }
    ensures most { (one other : List MembersTree) (count : ℕ) → count ≤ length one → count ≤ length other
        → take count (map emptied_members one) ≡ take count (map emptied_members other) → count ≤ common one other }
{}

/// The first parts of a value are spelled by the front of the whole spelling with its last bit 0, where more parts are
/// present: each of them has an FX bit then, whatever the last part of the kind ends with. Else they are the whole value.
#[tactic(auto, using(ax_relation::proofs::CutParts::parts_cut, ax_relation::proofs::CutParts::parts_whole))]
pub fn first_parts_are_the_front()
    ensures cut { (last : LastPart) (count : ℕ) (parts : List MembersTree) (lists : ListsTree) → PartsShape parts lists
        → 0 < count → count < list_count lists →
        parts_canon last parts (first_lists count lists) ≡ cut_after (first_bits count parts) (parts_canon last parts lists) }
    ensures whole { (count : ℕ) (lists : ListsTree) → list_count lists ≤ count → first_lists count lists ≡ lists }
{}

/// The parts that two extended items have in common are spelled alike in both, where the parts of both are whole octets: a part
/// in common has an FX bit in both then, or in neither.
#[tactic(auto, using(ax_relation::proofs::CommonParts::parts_alike))]
pub fn parts_in_common_are_spelled_alike()
    ensures { (last_one last_other : LastPart) (one other : List MembersTree) (lists : ListsTree) → PartsWhole last_one one
        → PartsWhole last_other other →
        parts_canon last_other other (first_lists (common one other) lists)
        ≡ parts_canon last_one one (first_lists (common one other) lists) }
{}

/// The test of sameness holds exactly for the same kinds.
#[tactic(auto, using(ax_relation::proofs::SameKinds::same_kinds, ax_relation::proofs::SameKinds::kinds_same))]
pub fn sameness_is_tested()
    ensures { (one other : KindTree) → is_same one other ≡ true ↔ Same one other }
{}

/// The placed paths are the named paths in order, each with its place.
pub fn placed_paths_are_the_named_paths()
    ensures names { (spec : SpecTree) → map (λ p. p.names) (placed_paths spec) ≡ named_paths spec }
    ensures places { (spec : SpecTree) → NoFlaw spec
        → AllByRecursion (λ p. named_place spec p.names ≡ Some (place_from p.numbers)) (placed_paths spec) }
{}

/// The place of a named path is where the path leads in its specification.
pub fn named_paths_lead_to_their_places()
    ensures { (spec : SpecTree) (name : List ℕ) (names : List (List ℕ)) (place : Place) → NoFlaw spec
        → named_place spec (name ∷ names) ≡ Some place → place_of spec (name ∷ names) ≡ Some place }
{}

/// A migrated block of a block of at most 65,535 octets has fewer than 2^32 octets.
pub fn migrated_block_is_small()
    ensures { (old new : SpecTree) (block made : BlockTree) →
        NoFlaw old → NoFlaw new → Fits old block → MigratedBlock old new block made → canon_length old block ≤ longest_block
        → canon_length new made < 4294967296 }
{}

/// A key is present in a record exactly where something stands at the place of its path and, for a part, has that part.
pub fn keys_are_present_at_their_places()
    ensures { (spec : SpecTree) (entries : EntriesTree) (part : Option ℕ) (name : List ℕ) (names : List (List ℕ)) (place : Place)
        → RecordShape spec entries → named_place spec (name ∷ names) ≡ Some place →
        is_present_part entries place part ≡ is_some (Named spec entries (record { names = name ∷ names; part = part })) }
{}
