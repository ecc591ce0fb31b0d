//! The laws of converted records and blocks, and worked examples. Each function stands for what its contract says.
ghost use Rattle.std.specs.Prelude.{◌≡◌, ℕ, List, [], ◌∷◌, ◌++◌, false, true, length, map, None, Some, codes};
ghost use Rattle.ax_format.specs.Blocks.{BlockTree, Fits, read_block};
ghost use Rattle.ax_format.specs.Bodies.{RecordShape};
ghost use Rattle.ax_relation.specs.Moved.{moved_record};
ghost use Rattle.ax_format.specs.Flaws.{NoFlaw};
ghost use Rattle.ax_format.specs.Migrated.{Lost};
ghost use Rattle.ax_format.specs.Named.{Key, Named, NamedEntry};
ghost use Rattle.ax_format.specs.Specification.{SpecTree};
ghost use Rattle.ax_format.specs.Tree.{EntriesTree, KindTree, ValueTree, no_entries};
ghost use Rattle.ax_rescale.specs.Conversion.{BlockConversion, Conversion, convertible, Missed};
ghost use Rattle.ax_laws.specs.ConversionExamples.{counted_in, of_number};
ghost use Rattle.ax_rescale.specs.Converted.{Converted};
ghost use Rattle.ax_rescale.specs.ConvertedRecord.{converted_block, converted_record};
ghost use Rattle.ax_rescale.specs.ConvertedValue.{converted_value};
ghost use Rattle.ax_rescale.specs.Converts.{converting_slots, stands_in};
ghost use Rattle.ax_laws.specs.KeyFates.{Fate, HasFate, StandTogether};
ghost use Rattle.ax_relation.specs.Fates.{times};
ghost use Rattle.ax_rescale.specs.Misses.{block_misses, miss};
ghost use Rattle.ax_rescale.specs.Scales.{Scaled};

/// The converted value, as a function of two kinds and a value, is the one that the relation has; there is none where it has none.
#[tactic(auto, using(ax_rescale::proofs::ValueFunction::is_value, ax_rescale::proofs::ValueFunction::value_is, ax_rescale::proofs::ValueFunction::no_value))]
pub fn converted_value_is_the_one()
    ensures is { (old new : KindTree) (value made : ValueTree) → converted_value old new value ≡ Some made
        → Converted old new value made }
    ensures found { (old new : KindTree) (value made : ValueTree) → Scaled old → Scaled new → Converted old new value made
        → converted_value old new value ≡ Some made }
    ensures none { (old new : KindTree) (value : ValueTree) → ((made : ValueTree) → Converted old new value made → ⊥)
        → converted_value old new value ≡ None }
{}

/// Each record has exactly one conversion.
pub fn converts_to_one_record()
    ensures some { (old new : SpecTree) (entries : EntriesTree) → RecordShape old entries
        → Conversion old new entries (converted_record old new entries) }
    ensures one { (old new : SpecTree) (entries made other : EntriesTree) → NoFlaw new → Conversion old new entries made
        → Conversion old new entries other → made ≡ other }
{}

/// Each block has exactly one conversion: its converted block.
#[tactic(auto, using(crate::proofs::KeyFates::some_conversion, crate::proofs::KeyFates::one_conversion))]
pub fn converts_to_one_block()
    ensures some { (old new : SpecTree) (block : BlockTree) → Fits old block
        → BlockConversion old new block (converted_block old new block) }
    ensures one { (old new : SpecTree) (block made other : BlockTree) → NoFlaw new → Fits old block
        → BlockConversion old new block made → BlockConversion old new block other → made ≡ other }
{}

/// Between editions without flaw each key that is present is kept, converted, unconverted or lost, and only one of these, as
/// `KeyFates` says; it is missed once where it is unconverted or lost, and else never. A key that isn't present has no entry in the
/// converted record, and isn't missed.
#[tactic(auto, using(crate::proofs::KeyFates::key_fates))]
pub fn each_key_has_one_fate()
    ensures some { (old new : SpecTree) (entries made : EntriesTree) (key : Key) (entry : NamedEntry) → NoFlaw old → NoFlaw new
        → Conversion old new entries made → Named old entries key ≡ Some entry
        → (fate : Fate) × HasFate old new entries made key entry fate }
    ensures one { (old new : SpecTree) (entries made : EntriesTree) (key : Key) (entry : NamedEntry) (fate other : Fate)
        → HasFate old new entries made key entry fate → HasFate old new entries made key entry other → fate ≡ other }
    ensures absent { (old new : SpecTree) (entries made : EntriesTree) (key : Key) → Conversion old new entries made
        → Named old entries key ≡ None → (Named new made key ≡ None) × (times key (Missed old new entries) ≡ 0) }
{}

/// The misses of a record in a block are those of its missed keys, in order and with its number. They stand together, after those
/// of the records before it and before those of the records after it.
pub fn misses_stand_together()
    ensures { (old new : SpecTree) (category : ℕ) (before : List EntriesTree) (entries : EntriesTree) (after : List EntriesTree)
        → StandTogether (length before) (map (miss old new (length before)) (Missed old new entries))
        (block_misses old new (read_block category (before ++ entries ∷ after))) }
{}

/// Numbers under another scale: twice as many pieces of half the size; of two numbers under a greater one the first alone, since the
/// other isn't whole; and none where the unit is another.
pub fn records_converted()
    ensures converted { converted_record (counted_in 4 2 (codes "s")) (counted_in 4 4 (codes "s")) (of_number 3) ≡ of_number 6 }
    ensures unconverted { block_misses (counted_in 4 4 (codes "s")) (counted_in 4 2 (codes "s")) (read_block 202 (of_number 2 ∷ of_number 3 ∷ []))
        ≡ record { record_at = 1; path = codes "202/010"; unconverted = true } ∷ [] }
    ensures lost { block_misses (counted_in 4 2 (codes "s")) (counted_in 4 2 (codes "min")) (read_block 202 (of_number 3 ∷ []))
        ≡ record { record_at = 0; path = codes "202/010"; unconverted = false } ∷ [] }
    ensures nothing { converted_record (counted_in 4 2 (codes "s")) (counted_in 4 2 (codes "min")) (of_number 3) ≡ no_entries }
{}

/// Of a record in which no value stands from which something is converted, converting is migrating: the converted record is the
/// migrated one, no key that is present can be converted, and what is missed is what is lost. So it is of each record where
/// nothing is converted between the two editions, whose `converting_slots` are none then.
pub fn migrates_where_nothing_is_converted()
    ensures record { (old new : SpecTree) (entries : EntriesTree) → stands_in (converting_slots old new) entries ≡ false
        → converted_record old new entries ≡ moved_record old new entries }
    ensures present { (old new : SpecTree) (entries : EntriesTree) (key : Key) (entry : NamedEntry)
        → stands_in (converting_slots old new) entries ≡ false → Named old entries key ≡ Some entry
        → convertible old new key ≡ None }
    ensures missed { (old new : SpecTree) (entries : EntriesTree) → stands_in (converting_slots old new) entries ≡ false
        → Missed old new entries ≡ Lost old new entries }
{}
