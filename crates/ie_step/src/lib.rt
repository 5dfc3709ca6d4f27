// One step of each list of elements: what stands at an offset and where it leads. A list lies from an offset to an end, which is a
// parameter: nothing here asks how long the slice is. Slice, offset and end are no struct: each call of a reader has another offset, and a
// struct would be made for one call and taken apart in it.
#![tactic(auto)]

ghost use Rattle.std.specs.Prelude.{◌≡◌, ℕ, ◌+◌, ◌-◌, ◌≤◌, ◌<◌};
ghost use Rattle.octets_spec.specs.Number.{le_at};
ghost use Rattle.ie_step_spec.specs.Header.{header_word, header_at, header_within};
ghost use Rattle.ie_step_spec.specs.Payload.{group_of, outer_word, outer_at, outer_within, inner_word, inner_at, inner_within};

use ie_step_spec::{HeaderStep, InnerStep, OuterStep};
use refusal::Refusal;

// A step of any list: it stops at the end of its bytes, one byte left over is a cut descriptor, and else a descriptor is read, which says what
// stands there.
fn step<T: Copy, F: FnOnce(u64) -> T>(
    s: &[u8],
    at: usize,
    end: usize,
    stop: T,
    cut: T,
    says: F,
) -> T
    requires { at + 2 ≤ end → (word : ℕ) → word < 65536 → F.pre says word }
    ensures ends { end ≤ at → result ≡ stop }
    ensures one_left { at < end → end - at < 2 → result ≡ cut }
    ensures read { at + 2 ≤ end → F.post says (le_at 2 s.now at) result }
{
    if end <= at {
        return stop;
    }
    if end - at < 2 {
        return cut;
    }
    says(octets::get::le(s, at, 2))
}

// What the descriptor at an offset of the header list says.
#[tactic(auto, using(octets_spec::proofs::ChoiceLaws::choices), unfolding(ie_step_spec::specs::Header::header_word))]
fn header_word(at: usize, end: usize, word: u64) -> HeaderStep
    requires { (at + 2 ≤ end) × (word < 65536) }
    ensures { (result ≡ header_word at end word) × header_within result at end }
{
    let length = (word % 0x80) as usize;
    let id = word / 0x80 % 0x100;
    let from = at + 2;
    if end - from < length {
        return HeaderStep::Fault(Refusal::Cut);
    }
    if word / 0x8000 == 1 {
        return HeaderStep::Fault(Refusal::Shape);
    }
    match id {
        ie_step_spec::HEADER_TERMINATION_1 if length == 0 => HeaderStep::Payload(from),
        ie_step_spec::HEADER_TERMINATION_2 if length == 0 => HeaderStep::End,
        ie_step_spec::HEADER_TERMINATION_1 | ie_step_spec::HEADER_TERMINATION_2 =>
            HeaderStep::Fault(Refusal::Shape),
        _ => HeaderStep::Element(id, from, from + length),
    }
}

// What stands at an offset of the header list.
pub fn header_step(s: &[u8], at: usize, end: usize) -> HeaderStep
    ensures { (result ≡ header_at s.now at end) × header_within result at end }
{
    step(
        s,
        at,
        end,
        HeaderStep::End,
        HeaderStep::Fault(Refusal::Cut),
        |word| header_word(at, end, word),
    )
}

// A group of the payload list that is not its end: an MLME group, joining information, or one to be skipped.
#[tactic(auto, using(octets_spec::proofs::ChoiceLaws::choices), unfolding(ie_step_spec::specs::Payload::group_of))]
fn group_word(s: &[u8], group: u64, from: usize, to: usize) -> OuterStep
    requires { from ≤ to }
    ensures { (result ≡ group_of s.now group from to) × outer_within result from to }
{
    match group {
        ie_step_spec::MLME => OuterStep::Group(from, to),
        ie_step_spec::IETF if from == to => OuterStep::Fault(Refusal::Shape),
        ie_step_spec::IETF if octets::get::byte(s, from) == ie_step_spec::JOINING_SUBTYPE =>
            OuterStep::Joining(from + 1, to),
        _ => OuterStep::Skip(to),
    }
}

// What the descriptor at an offset of the payload list says.
#[tactic(auto, using(octets_spec::proofs::ChoiceLaws::choices, ie_step_spec::proofs::StepLaws::widen), unfolding(ie_step_spec::specs::Payload::outer_word))]
fn outer_word(s: &[u8], at: usize, end: usize, word: u64) -> OuterStep
    requires { (at + 2 ≤ end) × (word < 65536) }
    ensures { (result ≡ outer_word s.now at end word) × outer_within result (at + 2) end }
{
    let size = (word % 0x800) as usize;
    let group = word / 0x800 % 0x10;
    let from = at + 2;
    if end - from < size {
        return OuterStep::Fault(Refusal::Cut);
    }
    if word / 0x8000 == 0 {
        return OuterStep::Fault(Refusal::Shape);
    }
    match group {
        ie_step_spec::PAYLOAD_TERMINATION if size == 0 => OuterStep::End,
        ie_step_spec::PAYLOAD_TERMINATION => OuterStep::Fault(Refusal::Shape),
        _ => group_word(s, group, from, from + size),
    }
}

// What stands at an offset of the payload list.
pub fn outer_step(s: &[u8], at: usize, end: usize) -> OuterStep
    ensures { (result ≡ outer_at s.now at end) × outer_within result (at + 2) end }
{
    step(
        s,
        at,
        end,
        OuterStep::End,
        OuterStep::Fault(Refusal::Cut),
        |word| outer_word(s, at, end, word),
    )
}

// What the descriptor at an offset of an MLME group says.
#[tactic(auto, using(octets_spec::proofs::ChoiceLaws::choices), unfolding(ie_step_spec::specs::Payload::inner_word))]
fn inner_word(at: usize, end: usize, word: u64) -> InnerStep
    requires { (at + 2 ≤ end) × (word < 65536) }
    ensures { (result ≡ inner_word at end word) × inner_within result at end }
{
    let from = at + 2;
    if word / 0x8000 == 0 {
        let short = (word % 0x100) as usize;
        if end - from < short {
            return InnerStep::Fault(Refusal::Cut);
        }
        return InnerStep::Part(word / 0x100, from, from + short);
    }
    let long = (word % 0x800) as usize;
    if end - from < long {
        return InnerStep::Fault(Refusal::Cut);
    }
    InnerStep::Part(ie_step_spec::LONG + word / 0x800 % 0x10, from, from + long)
}

// What stands at an offset of an MLME group.
pub fn inner_step(s: &[u8], at: usize, end: usize) -> InnerStep
    ensures { (result ≡ inner_at s.now at end) × inner_within result at end }
{
    step(
        s,
        at,
        end,
        InnerStep::Back,
        InnerStep::Fault(Refusal::Cut),
        |word| inner_word(at, end, word),
    )
}
