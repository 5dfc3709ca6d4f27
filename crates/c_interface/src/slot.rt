// The slot decision and the channel rule for C.
ghost use Rattle.std.specs.Prelude.{◌≡◌};
ghost use Rattle.slot_spec.specs.Hopping.{channel_of};
ghost use Rattle.slot_spec.specs.Answer.{slot_answer};

use eb_record_spec::Link;
use slot_spec::{SlotAnswer, SlotQuery};

// The slot decision over a lent list of links.
#[unsafe(no_mangle)]
pub extern "C" fn tesolvagna_slot_decide(
    links: &[Link],
    size: u32,
    id: u32,
    asn: u64,
    waits: bool,
) -> SlotAnswer
    ensures { result ≡ slot_answer links.now (record { size = size; id = id; asn = asn; waits = waits }) }
{
    let query = SlotQuery {
        size,
        id,
        asn,
        waits,
    };
    slot_decision::answer(slot_decision::decide(links, query))
}

// The channel of a link with this channel offset at this ASN.
#[unsafe(no_mangle)]
pub extern "C" fn tesolvagna_channel(asn: u64, channel_offset: u16) -> u8
    ensures { result ≡ channel_of asn channel_offset }
{
    hopping::channel(asn, channel_offset)
}
