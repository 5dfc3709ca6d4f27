// The links of a schedule: whether one is active and what for, what is known of the list with it, and the pass through the whole list.
ghost use Rattle.std.specs.Prelude.{◌≡◌, ◌<◌, Some, ltb};
ghost use Rattle.octets_spec.specs.Choice.{if_on};
ghost use Rattle.slot_spec.specs.Slot.{is_active, option_bit};
ghost use Rattle.slot_spec.specs.Scan.{begun, stepped, scanned};

use eb_record_spec::Link;
use slot_spec::{ActiveLink, Scan, SlotQuery};

// The bits of a link's options that the decision looks at.
const TRANSMIT: u32 = 0;

const RECEIVE: u32 = 1;

// What is known of no links.
pub(crate) fn begin(query: SlotQuery) -> Scan
    ensures { result ≡ begun query }
{
    Scan {
        size: query.size,
        slot: remainder::remainder(query.asn, query.size),
        below: true,
        transmit: None,
        receive: None,
    }
}

fn is_active(slot: u32, link: Link) -> bool
    ensures { result ≡ is_active slot link }
{
    u32::from(link.timeslot) == slot
}

fn is_below(size: u32, link: Link) -> bool
    ensures { result ≡ ltb link.timeslot size }
{
    u32::from(link.timeslot) < size
}

fn has_option(link: Link, bit: u32) -> bool
    requires { bit < 8 }
    ensures { result ≡ option_bit bit link }
{
    (link.options >> bit) % 2 == 1
}

// This link if it serves, else what was found behind it.
fn searching(serves: bool, here: ActiveLink, behind: Option<ActiveLink>) -> Option<ActiveLink>
    ensures { result ≡ if_on serves (Some here) behind }
{
    if serves { Some(here) } else { behind }
}

// One link more in front of those seen, which stands at this index of the list. Its tests are joined by & and not &&, so that no branch
// depends on the link.
fn step(seen: Scan, link: Link, index: usize) -> Scan
    ensures { result ≡ stepped seen link index }
{
    let active = is_active(seen.slot, link);
    let here = ActiveLink {
        index: (index % 256) as u8,
        channel_offset: link.channel_offset,
    };
    Scan {
        size: seen.size,
        slot: seen.slot,
        below: is_below(seen.size, link) & seen.below,
        transmit: searching(active & has_option(link, TRANSMIT), here, seen.transmit),
        receive: searching(active & has_option(link, RECEIVE), here, seen.receive),
    }
}

// What is known of the whole list. It begins with the last link, so that what a link finds takes the place of what was found behind it.
pub(crate) fn scan(links: &[Link], start: Scan) -> Scan
    ensures { result ≡ scanned start 0 links.now }
{
    let mut seen = start;
    for (i, link) in links.iter().enumerate().rev() {
        seen = step(seen, *link, i);
    }
    seen
}
