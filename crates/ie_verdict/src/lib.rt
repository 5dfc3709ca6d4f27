// Whether a known element is as it should be: for each element a row of tests on plain numbers, in the order of the rules. `seen` is
// the offset of an element of that kind that was taken before, and 0 if there was none: no element starts at 0.
#![tactic(auto)]

ghost use Rattle.std.specs.Prelude.{◌≡◌, ◌<◌};
ghost use Rattle.refusal.specs.Refusal.{number_in};
ghost use Rattle.ie_verdict_spec.specs.Verdict.{once_only, sync_fault, timeslot_fault, hopping_fault, joining_fault, part_fault};

use refusal::Refusal;

mod slotframe_fault;

// The P flag in the first byte of joining information.
const PROXIED: u64 = 0x40;

// An element of a kind that was taken before is one too many.
#[tactic(auto, using(ie_verdict_spec::proofs::VerdictLaws::verdicts), unfolding(ie_verdict_spec::specs::Verdict::once_only))]
fn once(seen: usize) -> Result<(), Refusal>
    ensures { number_in result ≡ once_only seen }
{
    if seen != 0 {
        return Err(Refusal::MissingOrTwice);
    }
    Ok(())
}

#[tactic(auto, using(ie_verdict_spec::proofs::VerdictLaws::verdicts), unfolding(ie_verdict_spec::specs::Verdict::sync_fault))]
fn sync_fault(size: usize, seen: usize) -> Result<(), Refusal>
    ensures { number_in result ≡ sync_fault size seen }
{
    if size != 6 {
        return Err(Refusal::Shape);
    }
    once(seen)
}

#[tactic(auto, using(ie_verdict_spec::proofs::VerdictLaws::verdicts), unfolding(ie_verdict_spec::specs::Verdict::timeslot_fault, ie_verdict_spec::specs::Verdict::once_only))]
fn timeslot_fault(size: usize, seen: usize, id: u64) -> Result<(), Refusal>
    ensures { number_in result ≡ timeslot_fault size seen id }
{
    if !matches!(size, 1 | 25 | 27) {
        return Err(Refusal::Shape);
    }
    once(seen)?;
    if size == 1 && id != 0 {
        return Err(Refusal::OutOfLimits);
    }
    Ok(())
}

#[tactic(auto, using(ie_verdict_spec::proofs::VerdictLaws::verdicts), unfolding(ie_verdict_spec::specs::Verdict::hopping_fault, ie_verdict_spec::specs::Verdict::once_only))]
fn hopping_fault(size: usize, seen: usize) -> Result<(), Refusal>
    ensures { number_in result ≡ hopping_fault size seen }
{
    if size == 0 {
        return Err(Refusal::Shape);
    }
    once(seen)?;
    if 1 < size {
        return Err(Refusal::OutOfLimits);
    }
    Ok(())
}

#[tactic(auto, using(ie_verdict_spec::proofs::VerdictLaws::verdicts), unfolding(ie_verdict_spec::specs::Verdict::joining_fault))]
fn joining_fault(size: usize, seen: usize, proxied: u64) -> Result<(), Refusal>
    requires { proxied < 2 }
    ensures { number_in result ≡ joining_fault size seen proxied }
{
    let fixed = 4 + 8 * proxied as usize;
    if size < fixed || fixed + 16 < size {
        return Err(Refusal::Shape);
    }
    once(seen)
}

// Whether an element of some kind that lies from an offset to another is as its kind has it; an unknown kind always is. Kinds are those of
// `ie_verdict_spec`, and stay numbers: frames have them of any value, and no kind is kept but here, where each of the five has its row.
#[tactic(auto, using(ie_verdict_spec::proofs::VerdictLaws::verdicts), unfolding(ie_verdict_spec::specs::Verdict::part_fault))]
pub fn part_fault(
    s: &[u8],
    kind: u64,
    from: usize,
    to: usize,
    seen: ie_verdict_spec::Seen,
) -> Result<(), Refusal>
    ensures { number_in result ≡ part_fault s.now kind from to seen }
{
    let size = to.saturating_sub(from);
    match kind {
        ie_verdict_spec::SYNCHRONIZATION => sync_fault(size, seen.synchronization),
        ie_verdict_spec::TIMESLOT => timeslot_fault(
            size,
            seen.timeslot,
            octets::get::byte(s, from),
        ),
        ie_verdict_spec::HOPPING => hopping_fault(size, seen.hopping),
        ie_verdict_spec::SLOTFRAME => slotframe_fault::slotframe_fault(
            s,
            from,
            size,
            seen.slotframe,
        ),
        ie_verdict_spec::JOINING => joining_fault(
            size,
            seen.joining,
            octets::get::byte(s, from) / PROXIED % 2,
        ),
        _ => Ok(()),
    }
}
