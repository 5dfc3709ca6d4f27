// The elements of a frame, each at an offset that is known to lie inside it. They take the frame and an offset, and no part of the frame: the
// definitions that they meet (eb_read_spec/specs/Decode.antt) speak of offsets in it.
ghost use Rattle.std.specs.Prelude.{◌≡◌, true, ◌+◌, ◌*◌, ◌-◌, ◌≤◌, ◌<◌, length, get_or};
ghost use Rattle.std.specs.Int.{from_bool};
ghost use Rattle.octets_spec.specs.Choice.{if_eq};
ghost use Rattle.octets_spec.specs.Number.{le_at, be_at};
ghost use Rattle.octets_spec.specs.Counted.{counted, padded};
ghost use Rattle.eb_record_spec.specs.Record.{blank_link};
ghost use Rattle.eb_read_spec.specs.Decode.{synchronization_at, timing_at, template_at, link_at, slotframe_at, joining_at};
ghost use Rattle.eb_read_spec.specs.Inside.{TimeslotLength, JoiningInside};

use crate::fixed;
use eb_record_spec::{JoiningInformation, Link, Slotframe, Synchronization, TimeslotTemplate};

// The value of the lowest bit of the third byte of a number.
const BYTE_2: u32 = 0x1_0000;
// Joining information begins with four bytes, whose most significant bit is the R flag.
const ROUTER: u32 = 0x8000_0000;
// Then comes the P flag.
const PROXIED: u32 = 0x4000_0000;
// Behind three reserved bits the proxy priority, of 7 bits; this is its lowest.
const PROXY_PRIORITY: u32 = 0x10_0000;
// Then the rank priority, of 12 bits; this is its lowest. The PAN priority, of 8 bits, is at the end.
const RANK_PRIORITY: u32 = 0x100;
// What is above a number of 7 bits.
const OVER_7_BITS: u32 = 0x80;
// What is above a number of 8 bits.
const OVER_8_BITS: u32 = 0x100;
// What is above a number of 12 bits.
const OVER_12_BITS: u32 = 0x1000;

// The synchronization element.
pub(crate) fn synchronization_at(s: &[u8], at: usize) -> Synchronization
    requires { at + 6 ≤ length s.now }
    ensures { result ≡ synchronization_at s.now at }
{
    Synchronization {
        asn: fixed::le40(s, at),
        metric: s[at + 5],
    }
}

// One of the last two timings: of 2 bytes, or of 3 in the wide form, where `third` is the offset of the third. No branch: which of the two
// a frame has cannot be foreseen.
fn last(s: &[u8], at: usize, third: usize, wide: bool) -> u32
    requires { (at + 2 ≤ length s.now) × (third < length s.now) × (wide ≡ true → third ≡ at + 2) }
    ensures { result ≡ le_at (2 + from_bool wide) s.now at }
{
    u32::from(fixed::le16(s, at)) + BYTE_2 * (u32::from(wide) * u32::from(s[third]))
}

// Timing k of twelve; the last two have 2 bytes, or 3 in the wide form.
fn timing(s: &[u8], at: usize, wide: bool, k: usize) -> u32
    requires { (k < 12) × (at + (25 + 2 * from_bool wide) ≤ length s.now) }
    ensures { result ≡ timing_at s.now at (2 + from_bool wide) k }
{
    if k < 10 {
        return u32::from(fixed::le16(s, at + (1 + 2 * k)));
    }
    if k == 10 {
        return last(s, at + 21, at + 23, wide);
    }
    let more = usize::from(wide);
    last(s, at + (21 + (2 + more)), at + (24 + 2 * more), wide)
}

// All twelve timings.
fn timings_within(s: &[u8], at: usize, wide: bool) -> [u32; 12]
    requires { at + (25 + 2 * from_bool wide) ≤ length s.now }
    ensures { result ≡ counted (timing_at s.now at (2 + from_bool wide)) 12 }
{
    let mut all = [0u32; 12];
    for (k, entry) in all.iter_mut().enumerate() {
        *entry = timing(s, at, wide, k);
    }
    all
}

// The timeslot element, which lies from an offset to another.
pub(crate) fn template_at(s: &[u8], at: usize, to: usize) -> TimeslotTemplate
    requires { (to ≤ length s.now) × TimeslotLength (to - at) }
    ensures { result ≡ template_at s.now at (to - at) }
{
    let size = to - at;
    let id = s[at];
    if size == 1 {
        return TimeslotTemplate {
            id,
            timed: false,
            timings: [0u32; 12],
        };
    }
    TimeslotTemplate {
        id,
        timed: true,
        timings: timings_within(s, at, size == 27),
    }
}

// Link i of a slotframe and link element.
fn link_at(s: &[u8], at: usize, i: usize) -> Link
    requires { (i < 16) × (at + (10 + 5 * i) ≤ length s.now) }
    ensures { result ≡ link_at s.now at i }
{
    Link {
        timeslot: fixed::le16(s, at + (5 + 5 * i)),
        channel_offset: fixed::le16(s, at + (7 + 5 * i)),
        options: u16::from(s[at + (9 + 5 * i)]),
    }
}

// This many links, and blank ones behind them.
fn links_at(s: &[u8], at: usize, count: usize) -> [Link; 16]
    requires { (count ≤ 16) × (at + (5 + 5 * count) ≤ length s.now) }
    ensures { result ≡ padded (link_at s.now at) blank_link 16 count }
{
    let mut all = [eb_record_spec::blank_link(); 16];
    for i in 0..count {
        all[i] = link_at(s, at, i);
    }
    all
}

// The slotframe and link element.
pub(crate) fn slotframe_at(s: &[u8], at: usize) -> Slotframe
    requires { (get_or s.now (at + 4) 0 ≤ 16) × (at + (5 + 5 * get_or s.now (at + 4) 0) ≤ length s.now) }
    ensures { result ≡ slotframe_at s.now at }
{
    let count = s[at + 4];
    Slotframe {
        handle: s[at + 1],
        size: fixed::le16(s, at + 2),
        count: u16::from(count),
        links: links_at(s, at, usize::from(count)),
    }
}

// This many bytes of a network ID that begins `skip` bytes behind an offset.
fn network_within(s: &[u8], at: usize, skip: usize, size: usize) -> [u8; 16]
    requires { (size ≤ 16) × (at + (skip + size) ≤ length s.now) }
    ensures { result ≡ padded (λ i. get_or s.now (at + (skip + i)) 0) 0 16 size }
{
    let mut all = [0u8; 16];
    let from = at + skip;
    all[..size].copy_from_slice(&s[from..from + size]);
    all
}

// The address of the join proxy, which is there if P is 1. Where eight bytes stand before the network ID, they are read, whatever P is.
fn proxy_address(s: &[u8], at: usize, proxied: u32) -> u64
    requires { (proxied < 2) × (at + (4 + 8 * proxied) ≤ length s.now) }
    ensures { result ≡ if_eq proxied 1 (be_at 8 s.now (at + 4)) 0 }
{
    if at < 4 {
        if proxied == 1 {
            return fixed::be64(s, at + 4);
        }
        return 0;
    }
    let address = fixed::be64(s, at - 4 + 8 * proxied as usize);
    if proxied == 1 { address } else { 0 }
}

// Joining information, which lies from an offset to another; at offset 0, as a walk notes it, there is none.
pub(crate) fn joining_at(s: &[u8], at: usize, to: usize) -> JoiningInformation
    requires { (at ≡ 0 → ⊥) → JoiningInside s.now at to }
    ensures { result ≡ joining_at s.now at to }
{
    if at == 0 {
        return eb_record_spec::blank_joining();
    }
    joining_present(s, at, to)
}

// Joining information that is there.
fn joining_present(s: &[u8], at: usize, to: usize) -> JoiningInformation
    requires { (at ≡ 0 → ⊥) × JoiningInside s.now at to }
    ensures { result ≡ joining_at s.now at to }
{
    let word = fixed::be32(s, at);
    let proxied = word / PROXIED % 2;
    let skip = 4 + 8 * proxied as usize;
    let size = to - at - skip;
    JoiningInformation {
        present: true,
        router: word / ROUTER % 2 == 1,
        proxied: proxied == 1,
        proxy: (word / PROXY_PRIORITY % OVER_7_BITS) as u8,
        rank: (word / RANK_PRIORITY % OVER_12_BITS) as u16,
        pan: (word % OVER_8_BITS) as u8,
        address: proxy_address(s, at, proxied),
        length: size as u8,
        network: network_within(s, at, skip, size),
    }
}
