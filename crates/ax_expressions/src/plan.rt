//! What a filter asks of the records of one category.
use crate::expr::Op;
use ax_format::Place;
use ax_fspec::Presence;
use ax_lists::Sequence;

/// What a question asks for.
#[derive(Clone, Copy, PartialEq, Eq)]
pub enum Asking {
    /// Whether something stands at a place.
    Standing,
    /// The number that stands there.
    Number,
}

/// What is asked of a record.
pub struct Question {
    pub asking: Asking,
    pub place: Place,
}

impl Drop for Question {
    fn drop(self) {
        let Question {
            asking: _asking,
            place: _place,
        } = self;
    }
}

/// Questions by their numbers, from 0.
pub type Questions = Sequence<Question>;

/// What a question finds in a record, where it finds anything.
#[derive(Clone, Copy)]
pub enum Found {
    /// Something stands at the place.
    Something,
    /// The number that stands there.
    Number { number: u128 },
}

/// Of what is found, what holds.
#[derive(Clone, Copy)]
pub enum Want {
    /// Whatever it is.
    There,
    /// A number of so many bits, in two's complement or not, that compares so with this one.
    Compares {
        op: Op,
        signed: bool,
        width: u32,
        number: i128,
    },
}

/// Plans of one level.
pub type Plans = Sequence<Plan>;

/// A test as it is asked of the records of one category. A plan of several knows the slots, by field reference number, that
/// any plan below it asks, and what it answers of a record in which none of these is marked.
#[derive(Drop)]
pub enum Plan {
    /// The same of each record.
    Always {
        holds: bool,
    },
    /// What the question of that number finds, below the item of that slot.
    Asks {
        slot: u32,
        question: u32,
        want: Want,
    },
    /// The plan doesn't hold.
    Not {
        plan: Box<Plan>,
    },
    /// Each of the plans holds, where `all` says so; else some of them does.
    Several {
        all: bool,
        asked: Presence,
        absent: bool,
        plans: Plans,
    },
}

/// What is asked of the records of one category.
pub struct CategoryPlan {
    pub plan: Plan,
    /// How many of its tests ask what stands at a place; counted up to 2^32 - 1.
    pub asking: u32,
}

impl Drop for CategoryPlan {
    fn drop(self) {
        let CategoryPlan {
            plan: _plan,
            asking: _asking,
        } = self;
    }
}

/// By category, what is asked of its records.
pub type CategoryPlans = Sequence<CategoryPlan>;
