// The checks of a frame: those before its elements, the walk over the elements, and what is missing.
#![tactic(auto, using(eb_read_spec::proofs::PolicyLaws::policies, eb_read_spec::proofs::ReadLaws::starting, eb_read_spec::proofs::ReadLaws::following, eb_read_spec::proofs::ReadLaws::judging, eb_read_spec::proofs::ReadLaws::examining))]

ghost use Rattle.std.specs.Prelude.{◌≡◌, ◌+◌, ◌≤◌, ◌<◌, ◌^◌};
ghost use Rattle.mac_header_spec.specs.Fields.{mac_header_of};
ghost use Rattle.ie_walk_spec.specs.Walk.{header_list, skipped_over};
ghost use Rattle.refusal.specs.Refusal.{number_in};
ghost use Rattle.eb_read_spec.specs.Read.{walk_start, CountsBefore, skipped_before, behind_header, missing, walk_number, examination_of, examined, walk_in, accepted_walk};
ghost use Rattle.eb_read_spec.specs.Inside.{AcceptedLiesInside};

use ie_walk_spec::{HeaderListEnd, Walk};
use mac_header_spec::FieldOffsets;
use refusal::Refusal;

pub mod policy;

// What the checks say of a frame, and what the walk over its elements noted. No Result with the walk in it: the theorem SkippedFitTheFrame
// speaks of the walk of a refused frame too.
#[derive(Clone, Copy)]
pub struct Examination {
    pub verdict: Result<(), Refusal>,
    pub walk: Walk,
}

// Where the walk begins behind the header list: no element is noted.
fn walk_start(head: HeaderListEnd) -> Walk
    ensures { result ≡ walk_start head }
{
    let blank = ie_walk::payload_list::blank_walk();
    Walk {
        fault: head.fault,
        faulty: head.faulty,
        skipped: head.skipped,
        ..blank
    }
}

// A walk with the elements counted that were skipped before it.
fn skipped_before(count: usize, walk: Walk) -> Walk
    requires { count + walk.skipped < 2 ^ 64 }
    ensures { result ≡ skipped_before count walk }
{
    Walk {
        skipped: count + walk.skipped,
        ..walk
    }
}

// Where the elements start and end.
fn field_offsets(s: &[u8]) -> FieldOffsets
    ensures { (result.elements ≡ (mac_header_of s.now).elements) × (result.end ≡ (mac_header_of s.now).end) }
{
    let control = mac_header::control_of(octets::get::le(s, 0, 2));
    mac_header::offsets_of(control, s.len())
}

// The header list of a frame.
fn header_list(s: &[u8]) -> HeaderListEnd
    ensures { result ≡ skipped_over (header_list s.now (mac_header_of s.now).elements (mac_header_of s.now).end) }
{
    let offsets = field_offsets(s);
    let at = offsets.elements;
    let end = offsets.end;
    ie_walk::header_list::header_list(s, at, end)
}

// The elements behind a header list: the payload list, if one follows.
fn behind_header(s: &[u8], head: HeaderListEnd) -> Walk
    requires { CountsBefore head }
    ensures { result ≡ behind_header s.now head (mac_header_of s.now).end }
{
    if head.fault != 0 {
        return walk_start(head);
    }
    if head.payload == 0 {
        return walk_start(head);
    }
    let offsets = field_offsets(s);
    let payload = head.payload;
    let end = offsets.end;
    skipped_before(
        head.skipped,
        ie_walk::payload_list::payload_list(s, payload, end),
    )
}

// Missing elements are judged last.
fn missing_fault(walk: Walk) -> Result<(), Refusal>
    ensures { number_in result ≡ missing walk }
{
    if (walk.synchronization == 0)
        | ((walk.timeslot == 0) | ((walk.hopping == 0) | (walk.slotframe == 0)))
    {
        return Err(Refusal::MissingOrTwice);
    }
    Ok(())
}

// The fault that a walk noted, as a refusal: a walk holds its number (ie_walk_spec), which is 0 where there is none.
fn noted_fault(fault: usize) -> Result<(), Refusal>
    requires { fault ≤ 8 }
    ensures { number_in result ≡ fault }
{
    match fault {
        0 => Ok(()),
        1 => Err(Refusal::FrameTooLong),
        2 => Err(Refusal::Cut),
        3 => Err(Refusal::WrongType),
        4 => Err(Refusal::Secured),
        5 => Err(Refusal::Addressing),
        6 => Err(Refusal::Shape),
        7 => Err(Refusal::MissingOrTwice),
        _ => Err(Refusal::OutOfLimits),
    }
}

// The first fault, or that of a missing element.
fn walk_number(walk: Walk) -> Result<(), Refusal>
    requires { walk.fault ≤ 8 }
    ensures { number_in result ≡ walk_number walk }
{
    noted_fault(walk.fault)?;
    missing_fault(walk)
}

// What the checks say of a frame, and where its known elements are. A frame that is refused before its elements has none.
pub fn examine(s: &[u8]) -> Examination
    ensures answer { examination_of result.verdict result.walk ≡ examined s.now }
    ensures inside { AcceptedLiesInside }
{
    if let Err(refusal) = policy::mac_header_fault(s) {
        return Examination {
            verdict: Err(refusal),
            walk: ie_walk::payload_list::blank_walk(),
        };
    }
    let walk = behind_header(s, header_list(s));
    Examination {
        verdict: walk_number(walk),
        walk,
    }
}

// Where the known elements of an accepted frame are, or why it is refused. It does not call `examine`, so that this has one caller in the
// static library and is inlined there, which makes reading a tenth faster (docs/SPEED.md).
pub fn accepted_walk(s: &[u8]) -> Result<Walk, Refusal>
    ensures number { number_in result ≡ (examined s.now).number }
    ensures walk { walk_in result ≡ accepted_walk s.now }
{
    policy::mac_header_fault(s)?;
    let walk = behind_header(s, header_list(s));
    walk_number(walk)?;
    Ok(walk)
}
