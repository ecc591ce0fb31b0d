//! What a filter says of a record.
ghost use Rattle.std.specs.Prelude.{◌≡◌, ℕ, Option, IfSome};
ghost use Rattle.ax_format.specs.Plain.{record_tree};
ghost use Rattle.ax_filter.specs.Memos.{NoneLater, Recalls, plan_says};
ghost use Rattle.ax_filter.specs.OfCode.{holds_of};
ghost use Rattle.ax_filter.specs.Spotted.{IsSpotOf};
ghost use Rattle.ax_expressions.specs.Tests.{test_tree};
ghost use Rattle.ax_expressions.specs.declared.plan.Found.{Found};
ghost use Rattle.ax_walk.specs.Shown.{record_entries};

use crate::deciding::says;
use crate::filter::Filter;
use crate::marks::marked_slots;
use crate::memo::{Answer, Asked, Memo};
use crate::passing::{passes, passes_by};
use ax_codec::Codec;
use ax_expressions::{CategoryPlan, FEW, Plan, Test, asked_by, meets, said_of_none};
use ax_format::{Record, Spec};
use ax_walk::{FixedSpot, Notes, PlacedSlots, Places, RecordView, place_record};
use std::alloc::{AllocError, Global};

/// A record, with its category and the codec that it is asked under.
#[derive(Clone, Copy)]
struct CodedRecord<'r, 'c, 'a> {
    category: u8,
    codec: &'r Codec,
    one: &'r RecordView<'c, 'a>,
}

/// What a plan says of a record under that codec, its items found in one walk.
fn says_by_places(
    plan: &CategoryPlan,
    codec: &Codec,
    one: &Asked<'_, RecordView<'_, '_>>,
    answers: &mut [Answer],
) -> bool
    requires { (found : ℕ → Option Found) → Recalls found one.now.number answers.old }
    ensures said { one.now.record.now.codec.now ≡ codec.now → result ≡ plan_says plan.now one.now }
    ensures answers { NoneLater one.now.number answers.new }
{
    let body = one.record.octets();
    let mut notes = Notes::new();
    let mut places = Places::new();
    match place_record(codec, body, 0, &mut notes, &mut places) {
        Some(_end) => {
            let items = PlacedSlots {
                codec,
                slots: codec.slots.as_slice(),
                body,
                at: 0,
                places: &places,
            };
            let asked = Asked {
                record: &items,
                marked: one.marked,
                number: one.number,
                questions: one.questions,
            };
            says(&plan.plan, &asked, answers)
        }
        None => says(&plan.plan, one, answers),
    }
}

/// The same: where none of the items is there that the plan asks, by the marked slots alone; where a few tests ask, each item found by
/// a walk over those before it; else by the places of all items.
fn says_of(
    plan: &CategoryPlan,
    codec: &Codec,
    one: &Asked<'_, RecordView<'_, '_>>,
    answers: &mut [Answer],
) -> bool
    requires { (found : ℕ → Option Found) → Recalls found one.now.number answers.old }
    ensures said { one.now.record.now.codec.now ≡ codec.now → result ≡ plan_says plan.now one.now }
    ensures answers { NoneLater one.now.number answers.new }
{
    if !meets(&asked_by(&plan.plan), &one.marked) {
        return said_of_none(&plan.plan);
    }
    if plan.asking <= FEW {
        return says(&plan.plan, one, answers);
    }
    says_by_places(plan, codec, one, answers)
}

impl<'c> Filter<'c> {
    /// Whether the filter holds of a record of that category's specification, the catalogue's. Takes no memory.
    #[inline(never)]
    pub fn holds(&self, category: u8, one: &RecordView<'_, '_>) -> bool
        ensures { result ≡ holds_of self.now category (record_entries one.now) }
    {
        passes(&self.test, category, one)
    }

    /// Where the number stands that the filter compares, in records of a codec, if the filter is one comparison of that codec's category.
    /// None says nothing.
    pub fn spot_under(&self, codec: &Codec) -> Option<FixedSpot>
        ensures { IfSome result (IsSpotOf (test_tree self.now.test) codec.now) }
    {
        let Test::Is {
            category,
            element,
            ..
        } = &self.test
        else {
            return None;
        };
        if *category != codec.category {
            return None;
        }
        let Some(element) = element else {
            return None;
        };
        FixedSpot::of(codec, &element.place)
    }

    /// The same as `holds`, where it is known where the number stands that the filter compares. There is no call.
    #[inline(always)]
    pub fn holds_by_spot(&self, category: u8, one: &RecordView<'_, '_>, spot: FixedSpot) -> bool
        requires { IsSpotOf (test_tree self.now.test) one.now.codec.now spot }
        ensures { result ≡ holds_of self.now category (record_entries one.now) }
    {
        passes_by(&self.test, category, one, spot)
    }

    /// The same of a record as a tree.
    pub fn holds_tree(&self, spec: &Spec, one: &Record) -> bool
        ensures { result ≡ holds_of self.now spec.now.category (record_tree one.now) }
    {
        passes(&self.test, spec.category, one)
    }

    /// The same of a record under that codec. Where there are more than a few tests, or some ask the same, it is asked by the plan of its
    /// category: no test of another one is looked at, a record of which nothing is asked isn't either, tests of items that it hasn't are
    /// passed over together, and where more than a few ask, its items are found in one walk for all of them. Takes no memory.
    pub fn holds_under(&self, category: u8, codec: &Codec, one: &RecordView<'_, '_>) -> bool
        ensures { one.now.codec.now ≡ codec.now → result ≡ holds_of self.now category (record_entries one.now) }
    {
        let asked = CodedRecord {
            category,
            codec,
            one,
        };
        self.holds_by(asked, 0, &mut [])
    }

    /// The same, with a memo, which may be one of another filter: what several tests ask is looked for once. Takes no memory.
    #[inline]
    pub fn holds_with(
        &self,
        category: u8,
        codec: &Codec,
        one: &RecordView<'_, '_>,
        memo: &mut Memo,
    ) -> bool
        ensures { one.now.codec.now ≡ codec.now → result ≡ holds_of self.now category (record_entries one.now) }
    {
        if self.count == 1 {
            return self.holds(category, one);
        }
        memo.go_on();
        let asked = CodedRecord {
            category,
            codec,
            one,
        };
        self.holds_by(asked, memo.number, &mut memo.answers)
    }

    /// A memo with room for what each question of the filter finds.
    pub fn memo(&self, alloc: Global) -> Result<Memo, AllocError> {
        Memo::of(alloc, self.questions.count() as usize)
    }

    /// The same, for a record of that number, with room for some answers; none is known of it.
    fn holds_by(&self, record: CodedRecord<'_, '_, '_>, number: u32, answers: &mut [Answer]) -> bool
        requires { (found : ℕ → Option Found) → Recalls found number answers.old }
        ensures holds { record.entry.one.now.codec.now ≡ record.entry.codec.now → result ≡ holds_of self.now record.entry.category (record_entries record.entry.one.now) }
        ensures answers { NoneLater number answers.new }
    {
        match self.plans.get(record.category as u32) {
            Some(plan) => {
                if let Plan::Always { holds } = &plan.plan {
                    return *holds;
                }
                let asked = Asked {
                    record: record.one,
                    marked: marked_slots(record.codec, record.one),
                    number,
                    questions: self.questions.as_slice(),
                };
                says_of(plan, record.codec, &asked, answers)
            }
            None => self.holds(record.category, record.one),
        }
    }
}
