// The channel rule: on which channel a link is used in a slot.
#![tactic(auto)]

ghost use Rattle.std.specs.Prelude.{◌≡◌};
ghost use Rattle.slot_spec.specs.Hopping.{channel_of, HoppingPermutes};

// The default hopping sequence of IEEE 802.15.4-2015 for the 16 channels of the 2.4 GHz band.
const SEQUENCE: [u8; 16] = [
    16, 17, 23, 18, 26, 15, 25, 22, 19, 11, 12, 13, 24, 14, 20, 21,
];

// The channel of a link with this channel offset at this ASN.
pub fn channel(asn: u64, channel_offset: u16) -> u8
    ensures channel { result ≡ channel_of asn channel_offset }
    ensures sequence { HoppingPermutes }
{
    let entry = ((asn % 16) + u64::from(channel_offset % 16)) % 16;
    SEQUENCE[entry as usize]
}
