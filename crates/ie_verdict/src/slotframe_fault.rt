// Whether a slotframe and link element is as it should be.
ghost use Rattle.std.specs.Prelude.{◌≡◌, ◌+◌, ◌*◌, ◌<◌, ◌^◌};
ghost use Rattle.refusal.specs.Refusal.{number_in};
ghost use Rattle.ie_verdict_spec.specs.Verdict.{slotframe_limits, timeslots_fit, slotframe_fault_at};

use refusal::Refusal;

// The limits of a slotframe and link element.
#[tactic(auto, using(ie_verdict_spec::proofs::VerdictLaws::verdicts), unfolding(ie_verdict_spec::specs::Verdict::slotframe_limits))]
fn slotframe_limits(size: u64, links: usize, below: bool) -> Result<(), Refusal>
    ensures { number_in result ≡ slotframe_limits size links below }
{
    if size == 0 || links == 0 || 16 < links || !below {
        return Err(Refusal::OutOfLimits);
    }
    Ok(())
}

// Whether the timeslots of this many links from an offset on are below the size.
#[tactic(auto, using(ie_verdict_spec::proofs::VerdictLaws::verdicts))]
fn timeslots_fit(s: &[u8], at: usize, links: usize, size: u64) -> bool
    requires { (at + 5 * links < 2 ^ 64) × (links < 256) }
    ensures { result ≡ timeslots_fit s.now at links size }
{
    for link in 0..links {
        if size <= octets::get::le(s, at + 5 * link, 2) {
            return false;
        }
    }
    true
}

// Whether a slotframe and link element of so many bytes from an offset on is as it should be. `seen` is the offset of one that was taken
// before, and 0 if there was none.
#[tactic(auto, using(ie_verdict_spec::proofs::VerdictLaws::verdicts), unfolding(ie_verdict_spec::specs::Verdict::slotframe_fault_at, ie_verdict_spec::specs::Verdict::slotframe_fault, ie_verdict_spec::specs::Verdict::slotframe_shape, ie_verdict_spec::specs::Verdict::once_only))]
pub(crate) fn slotframe_fault(
    s: &[u8],
    from: usize,
    bytes: usize,
    seen: usize,
) -> Result<(), Refusal>
    requires { from + bytes < 2 ^ 64 }
    ensures { number_in result ≡ slotframe_fault_at s.now from bytes seen }
{
    if bytes < 5 {
        return Err(Refusal::Shape);
    }
    if octets::get::byte(s, from) != 1 {
        return Err(Refusal::OutOfLimits);
    }
    let links = octets::get::byte(s, from + 4) as usize;
    if bytes != 5 + 5 * links {
        return Err(Refusal::Shape);
    }
    crate::once(seen)?;
    let size = octets::get::le(s, from + 2, 2);
    slotframe_limits(size, links, timeslots_fit(s, from + 5, links, size))
}
