// The decision from what is known of a whole list of links.
ghost use Rattle.std.specs.Prelude.{◌≡◌};
ghost use Rattle.slot_spec.specs.Slot.{limits, transmit_on, listen_on, action};
ghost use Rattle.slot_spec.specs.Scan.{concluded};

use refusal::Refusal;
use slot_spec::{Action, ActiveLink, Scan, SlotQuery};

// The most links that a schedule may have.
const MOST_LINKS: usize = 16;
// The last ASN: an ASN has five bytes.
const LAST_ASN: u64 = 0xFF_FFFF_FFFF;

fn listen(query: SlotQuery, found: Option<ActiveLink>) -> Action
    ensures { result ≡ listen_on query found }
{
    match found {
        Some(link) => Action::Listen {
            index: link.index,
            channel: hopping::channel(query.asn, link.channel_offset),
        },
        None => Action::Sleep,
    }
}

fn transmit(query: SlotQuery, found: Option<ActiveLink>, other: Action) -> Action
    ensures { result ≡ transmit_on query found other }
{
    match found {
        Some(link) => Action::Transmit {
            index: link.index,
            channel: hopping::channel(query.asn, link.channel_offset),
        },
        None => other,
    }
}

// Whether the schedule and the ASN are within their limits.
fn within(query: SlotQuery, count: usize, below: bool) -> bool
    ensures { result ≡ limits query count below }
{
    (1 <= query.size)
        & ((1 <= count)
            & ((count <= MOST_LINKS) & (below & ((query.id == 0) & (query.asn <= LAST_ASN)))))
}

fn act(query: SlotQuery, sends: Option<ActiveLink>, hears: Option<ActiveLink>) -> Action
    ensures { result ≡ action query sends hears }
{
    let awaited = listen(query, hears);
    if query.waits {
        return transmit(query, sends, awaited);
    }
    awaited
}

// The decision from what is known of a whole list, which has so many links.
pub(crate) fn conclude(query: SlotQuery, count: usize, seen: Scan) -> Result<Action, Refusal>
    ensures { result ≡ concluded query count seen }
{
    if within(query, count, seen.below) {
        return Ok(act(query, seen.transmit, seen.receive));
    }
    Err(Refusal::OutOfLimits)
}
