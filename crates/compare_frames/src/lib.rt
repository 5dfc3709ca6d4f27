// Two beacons side by side: reads both frames, and lists the fields in which their records differ.
#![tactic(auto, using(crate::proofs::CompareLaws::comparing))]

ghost use Rattle.std.specs.Prelude.{◌≡◌, ◌+◌, ◌<◌, ◌≤◌, IfOk, take};
ghost use Rattle.eb_fields_spec.specs.Fields.{content_at};
ghost use Rattle.eb_read_spec.specs.Read.{read_frame, answer_of};
ghost use Rattle.compare_spec.specs.Compare.{differences, list_of, list_in, comparison_of, compared as what_both_give};
ghost use Rattle.compare_spec.specs.Claims.{NoDifferenceWhenEqual, EachDiffers, NoneIsLeftOut, InOrder, ListedWhenBothDone};
ghost use Rattle.compare_frames.specs.UpTo.{up_to, with_row};

use compare_spec::{Difference, Differences, Refused};
use eb_record_spec::Beacon;
use refusal::Refusal;

// The list gets one more field behind it.
fn with_row(found: &mut Differences, row: Difference)
    requires { found.old.count < 77 }
    ensures { list_in found.new ≡ with_row (list_in found.old) row }
{
    found.entries[found.count] = row;
    found.count += 1;
}

// The list of the fields up to a place that differ becomes that of the fields up to the next place.
fn with_field(found: &mut Differences, one: &Beacon, other: &Beacon, place: usize)
    requires { (place < 77) × (list_in found.old ≡ list_of (up_to one.now other.now place)) }
    ensures { list_in found.new ≡ list_of (up_to one.now other.now (place + 1)) }
{
    let first = eb_fields::content(*one, place);
    let second = eb_fields::content(*other, place);
    let row = Difference {
        place,
        first,
        second,
    };
    if !eb_fields::same(first, second) {
        with_row(found, row);
    }
}

// The fields in which two records differ, in order, each with both contents.
pub fn differences(one: &Beacon, other: &Beacon) -> Differences
    ensures list { list_in result ≡ list_of (differences one.now other.now) }
    ensures fields { take result.count result.entries ≡ differences one.now other.now }
    ensures few { result.count ≤ 77 }
{
    // It stands behind the list.
    let absent = eb_fields::absent();
    let blank = Difference {
        place: 0,
        first: absent,
        second: absent,
    };
    let mut found = Differences {
        count: 0,
        entries: [blank; 77],
    };
    for place in 0..eb_fields_spec::FIELDS {
        with_field(&mut found, one, other, place);
    }
    found
}

// What two readings come to: a list if both are done, else why there is none.
fn compared(
    one: Result<Beacon, Refusal>,
    other: Result<Beacon, Refusal>,
) -> Result<Differences, Refused>
    ensures answer { comparison_of result ≡ what_both_give (answer_of one) (answer_of other) }
    ensures few { IfOk result (λ found. found.count ≤ 77) }
{
    match (one, other) {
        (Ok(one), Ok(other)) => Ok(differences(&one, &other)),
        (Err(first), Ok(_)) => Err(Refused::First(first)),
        (Ok(_), Err(second)) => Err(Refused::Second(second)),
        (Err(first), Err(second)) => Err(Refused::Both(first, second)),
    }
}

// Reads two frames and answers, if both are done, the fields in which their records differ, else which are refused. No field exactly when the
// records are equal; every field of the list differs, none is left out, and they are in order.
pub fn compare(first: &[u8], second: &[u8]) -> Result<Differences, Refused>
    ensures answer { comparison_of result ≡ what_both_give (read_frame first.now) (read_frame second.now) }
    ensures few { IfOk result (λ found. found.count ≤ 77) }
    ensures listed { ListedWhenBothDone }
    ensures none_when_equal { NoDifferenceWhenEqual }
    ensures each { EachDiffers }
    ensures all { NoneIsLeftOut }
    ensures order { InOrder }
{
    let one = eb_read::read(first);
    let other = eb_read::read(second);
    compared(one, other)
}
