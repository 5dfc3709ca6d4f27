// Two beacons side by side: the fields in which their records differ, and what comparing two frames answers.
#![tactic(auto)]

ghost use Rattle.std.specs.Prelude.{◌≡◌, ◌≤◌, length, take};
ghost use Rattle.compare_spec.specs.Claims.{SameFieldsSameRecord, NoDifferenceWhenEqual, EachDiffers, NoneIsLeftOut, InOrder, ListedWhenBothDone, NamesStandInEveryList, ThereAreSuch};

use eb_fields_spec::Content;
use refusal::Refusal;

// A field that differs: its place in the list of fields, the content on each side.
#[derive(Clone, Copy, Debug, Default, PartialEq, Eq)]
pub struct Difference {
    pub place: usize,
    pub first: Content,
    pub second: Content,
}

// The fields that differ, in order: the first `count` of `entries`. There is room for every field.
// An array with its length beside it: it is Copy, as an ArrayVec is not, and needs no heap.
#[derive(Clone, Copy, Debug, PartialEq, Eq)]
pub struct Differences {
    pub count: usize,
    pub entries: [Difference; 77],
}

impl Differences {
    // The fields that differ, without what stands behind them.
    pub fn as_slice(&self) -> &[Difference]
        ensures list { result.now ≡ take self.now.count self.now.entries }
        ensures few { length result.now ≤ 77 }
    {
        &self.entries[..self.count.min(eb_fields_spec::FIELDS)]
    }
}

// Why there is no list: which frames are refused, and why.
#[derive(Clone, Copy, Debug, PartialEq, Eq)]
pub enum Refused {
    First(Refusal),
    Second(Refusal),
    Both(Refusal, Refusal),
}

// Cites each theorem about the list of fields and about differences, so that the gate fails if the proof of one goes.
pub fn theorems()
    ensures same_fields_same_record { SameFieldsSameRecord }
    ensures no_difference_when_equal { NoDifferenceWhenEqual }
    ensures each_differs { EachDiffers }
    ensures none_is_left_out { NoneIsLeftOut }
    ensures in_order { InOrder }
    ensures listed_when_both_done { ListedWhenBothDone }
    ensures names_stand_in_every_list { NamesStandInEveryList }
    ensures there_are_such { ThereAreSuch }
{}
