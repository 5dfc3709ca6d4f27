// The walk over the payload list. The reader of the list and the reader of a group call each other: at a group the first goes into it,
// and at the group's end the second goes back to the list. It returns to the reader that called it if more bytes follow, and calls it
// only where the group ends the list and nothing is left to read: so calls do not nest with the number of groups in a frame, and the
// stack that a frame takes does not grow with it.
ghost use Rattle.std.specs.Prelude.{◌≡◌, ◌+◌, ◌<◌, ◌≤◌, ◌^◌};
ghost use Rattle.refusal.specs.Refusal.{number_of};
ghost use Rattle.ie_walk_spec.specs.Walk.{blank_walk, seen_of, taken, stopped, skip_one, part_taken, OuterIs, GroupGives, payload_list};

use ie_step_spec::{InnerStep, OuterStep};
use ie_verdict_spec::Seen;
use ie_walk_spec::{GroupEnd, Walk};
use refusal::Refusal;

// Which known elements were taken before.
#[tactic(auto, unfolding(ie_walk_spec::specs::Walk::seen_of))]
fn seen_of(walk: Walk) -> Seen
    ensures { result ≡ seen_of walk }
{
    Seen {
        synchronization: walk.synchronization,
        timeslot: walk.timeslot,
        hopping: walk.hopping,
        slotframe: walk.slotframe,
        joining: walk.joining,
    }
}

// Counts an element that is skipped.
#[tactic(auto, unfolding(ie_walk_spec::specs::Walk::skip_one))]
fn skip_one(walk: Walk) -> Walk
    requires { walk.skipped + 1 < 2 ^ 64 }
    ensures { result ≡ skip_one walk }
{
    Walk {
        skipped: walk.skipped + 1,
        ..walk
    }
}

// Stops at a fault, whose element starts at `at`.
#[tactic(auto, unfolding(ie_walk_spec::specs::Walk::stopped))]
fn stop(walk: Walk, refusal: Refusal, at: usize) -> Walk
    ensures { result ≡ stopped walk (number_of refusal) at }
{
    Walk {
        fault: usize::from(refusal.number()),
        faulty: at,
        ..walk
    }
}

// Notes an element without a fault; one of an unknown kind is skipped. Kinds stay numbers here too: a frame may have any.
#[tactic(auto, using(octets_spec::proofs::ChoiceLaws::choices), unfolding(ie_walk_spec::specs::Walk::taken, ie_walk_spec::specs::Walk::skip_one, octets_spec::specs::Choice::if_eq))]
fn take(walk: Walk, kind: u64, from: usize, to: usize) -> Walk
    requires { walk.skipped < to }
    ensures { result ≡ taken walk kind from to }
{
    match kind {
        ie_verdict_spec::SYNCHRONIZATION => Walk {
            synchronization: from,
            ..walk
        },
        ie_verdict_spec::TIMESLOT => Walk {
            timeslot: from,
            timeslotend: to,
            ..walk
        },
        ie_verdict_spec::HOPPING => Walk {
            hopping: from,
            ..walk
        },
        ie_verdict_spec::SLOTFRAME => Walk {
            slotframe: from,
            ..walk
        },
        ie_verdict_spec::JOINING => Walk {
            joining: from,
            joiningend: to,
            ..walk
        },
        _ => skip_one(walk),
    }
}

// An element of some kind whose descriptor stands at `at`: it is noted, or the walk stops there.
#[tactic(auto, using(octets_spec::proofs::ChoiceLaws::choices), unfolding(ie_walk_spec::specs::Walk::part_taken))]
fn part(s: &[u8], walk: Walk, kind: u64, from: usize, to: usize, at: usize) -> Walk
    requires { walk.skipped < to }
    ensures { result ≡ part_taken s.now walk kind from to at }
{
    match ie_verdict::part_fault(s, kind, from, to, seen_of(walk)) {
        Ok(()) => take(walk, kind, from, to),
        Err(refusal) => stop(walk, refusal, at),
    }
}

// The payload list from an offset on.
#[cycle(group_outer)]
#[tactic(auto, using(ie_walk_spec::proofs::ListLaws::lists))]
fn outer(s: &[u8], at: usize, end: usize, walk: Walk) -> Walk
    requires { (at ≤ end) × (walk.skipped ≤ at) }
    ensures { OuterIs s.now at end walk result }
{
    let mut i = at;
    let mut noted = walk;
    loop {
        match ie_step::outer_step(s, i, end) {
            OuterStep::End => {
                return noted;
            }
            OuterStep::Group(from, to) => {
                match group(s, from, to, end, noted) {
                    GroupEnd::Whole(read) => {
                        return read;
                    }
                    GroupEnd::Passed(read) => {
                        noted = read;
                        i = to;
                    }
                }
            }
            OuterStep::Joining(from, to) => {
                noted = part(s, noted, ie_verdict_spec::JOINING, from, to, i);
                if noted.fault != 0 {
                    return noted;
                }
                i = to;
            }
            OuterStep::Skip(to) => {
                noted = skip_one(noted);
                i = to;
            }
            OuterStep::Fault(refusal) => {
                return stop(noted, refusal, i);
            }
        }
    }
}

// An MLME group from an offset of it to its end. Behind it the payload list goes on; if it is at its end there, that is read too.
#[cycle(group_outer)]
#[tactic(auto, using(ie_walk_spec::proofs::ListLaws::lists))]
fn group(s: &[u8], at: usize, to: usize, end: usize, walk: Walk) -> GroupEnd
    requires { (at ≤ to) × (to ≤ end) × (walk.skipped ≤ at) }
    ensures { GroupGives s.now at to end walk result }
{
    let mut i = at;
    let mut noted = walk;
    loop {
        match ie_step::inner_step(s, i, to) {
            InnerStep::Back => {
                if to < end {
                    return GroupEnd::Passed(noted);
                }
                return GroupEnd::Whole(outer(s, to, end, noted));
            }
            InnerStep::Part(kind, from, next) => {
                noted = part(s, noted, kind, from, next, i);
                if noted.fault != 0 {
                    return GroupEnd::Whole(noted);
                }
                i = next;
            }
            InnerStep::Fault(refusal) => {
                return GroupEnd::Whole(stop(noted, refusal, i));
            }
        }
    }
}

// Nothing was noted.
#[tactic(auto, unfolding(ie_walk_spec::specs::Walk::blank_walk))]
pub fn blank_walk() -> Walk
    ensures { result ≡ blank_walk }
{
    Walk::default()
}

// The payload list from an offset to an end.
#[tactic(auto, using(ie_walk_spec::proofs::ListLaws::lists))]
pub fn payload_list(s: &[u8], at: usize, end: usize) -> Walk
    ensures { result ≡ payload_list s.now at end }
{
    let walk = blank_walk();
    if end < at {
        return walk;
    }
    outer(s, at, end, walk)
}
