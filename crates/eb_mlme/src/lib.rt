// The MLME group of a frame, put into a lent buffer from an offset on; past the end of the buffer nothing is stored. Buffer and offset are no struct:
// each part has an offset of its own, and asks of it no more than that what it adds does not wrap.
#![tactic(auto)]

ghost use Rattle.std.specs.Prelude.{◌≡◌, ◌++◌, ◌+◌, ◌*◌, ◌≤◌, ◌<◌, ◌^◌, length, take, drop};
ghost use Rattle.octets_spec.specs.Number.{le_bytes, stored};
ghost use Rattle.eb_mlme.specs.Each.{PutEach};
ghost use Rattle.eb_write_spec.specs.Frame.{mlme_group, slotframe_id, group_descriptor, short_descriptor, timings_bytes, link_bytes, synchronization_bytes, template_bytes, hopping_bytes, slotframe_bytes, group_size, group_bytes};

use eb_record_spec::{Link, Slotframe, Synchronization, TimeslotTemplate};

// The descriptor of the MLME group, with length 0.
const MLME_GROUP: u64 = 0x8800;
// The descriptor of synchronization, whose length is 6.
const SYNCHRONIZATION_DESCRIPTOR: u64 = 0x1A06;
// The descriptor of hopping, whose length is 1.
const HOPPING_DESCRIPTOR: u64 = 0xC801;
// What a number is multiplied by to stand behind two bytes.
const BYTE_2: u64 = 0x1_0000;
// What a number is multiplied by to stand behind seven bytes.
const BYTE_7: u64 = 0x100_0000_0000_0000;
// What is above a number of two bytes.
const OVER_2_BYTES: u64 = 0x1_0000;
// The first number that five bytes do not hold.
const OVER_5_BYTES: u64 = 0x100_0000_0000;
// The descriptor of timeslot, with length 0.
const TIMESLOT_DESCRIPTOR: u64 = 0x1C00;
// The descriptor of slotframe and link, with the length of an element without links.
const SLOTFRAME_DESCRIPTOR: u64 = 0x1B05;
// The slotframe count 1, behind two bytes.
const ONE_SLOTFRAME: u64 = 0x1_0000;
// What a number is multiplied by to stand behind three bytes.
const BYTE_3: u64 = 0x100_0000;
// What a number is multiplied by to stand behind four bytes.
const BYTE_4: u64 = 0x1_0000_0000;
// What a number is multiplied by to stand behind six bytes.
const BYTE_6: u64 = 0x1_0000_0000_0000;

// The synchronization element as one number of eight bytes: descriptor, ASN, join metric.
fn synchronization_number(synchronization: Synchronization) -> u64
    ensures { le_bytes 8 result ≡ synchronization_bytes synchronization }
{
    SYNCHRONIZATION_DESCRIPTOR
        + synchronization.asn % OVER_5_BYTES * BYTE_2
        + synchronization.metric as u64 * BYTE_7
}

// Items one after the other, each as a number of so many bytes.
fn put_each<T: Copy, F: Fn(T) -> u64>(
    buffer: &mut [u8],
    at: usize,
    width: u8,
    items: &[T],
    number: F,
)
    requires callable { F.IsAlwaysCallable number }
    requires inside { (at < 2 ^ 63 + 2048) × (width ≤ 8) × (length items.now ≤ 16) }
    ensures { PutEach (F.post number) width items.now buffer.old at buffer.new }
{
    for (i, item) in items.iter().enumerate() {
        octets::put::put_le(buffer, at + usize::from(width) * i, width, number(*item));
    }
}

// The timings: ten of two bytes each, and the last two of two or three.
fn put_timings(buffer: &mut [u8], at: usize, timings: &[u32; 12])
    requires { at < 2 ^ 63 + 1024 }
    ensures { buffer.new ≡ stored buffer.old at (timings_bytes timings.now) }
{
    let width = eb_limits::sizes::last_width(timings);
    put_each(buffer, at, 2, &timings[..10], u64::from);
    put_each(buffer, at + 20, width, &timings[10..], u64::from);
}

// The timeslot element: its descriptor and ID as one number of three bytes, then the timings if they are there.
fn put_template(buffer: &mut [u8], at: usize, template: TimeslotTemplate)
    requires { at < 2 ^ 63 + 64 }
    ensures { buffer.new ≡ stored buffer.old at (template_bytes template) }
{
    let size = eb_limits::sizes::template_size(template);
    octets::put::put_le(
        buffer,
        at,
        3,
        size as u64 + TIMESLOT_DESCRIPTOR + template.id as u64 * BYTE_2,
    );
    if template.timed {
        put_timings(buffer, at + 3, &template.timings);
    }
}

// A link as one number of five bytes: timeslot, channel offset, options.
fn link_number(link: Link) -> u64
    ensures { le_bytes 5 result ≡ link_bytes link }
{
    link.timeslot as u64 + link.channel_offset as u64 * BYTE_2 + link.options as u64 * BYTE_4
}

// What stands before the links, as one number of seven bytes: descriptor, slotframe count, handle, size, number of links.
fn head_number(handle: u8, size: u16, count: u16) -> u64
    ensures { le_bytes 7 result ≡ short_descriptor slotframe_id (5 + 5 * count) ++ (le_bytes 1 1 ++ (le_bytes 1 handle ++ (le_bytes 2 size ++ le_bytes 1 count))) }
{
    (SLOTFRAME_DESCRIPTOR + 5 * count as u64) % OVER_2_BYTES
        + ONE_SLOTFRAME
        + handle as u64 * BYTE_3
        + size as u64 * BYTE_4
        + count as u64 * BYTE_6
}

// The slotframe and link element.
fn put_slotframe(buffer: &mut [u8], at: usize, slotframe: Slotframe)
    requires { at < 2 ^ 63 + 128 }
    ensures { buffer.new ≡ stored buffer.old at (slotframe_bytes slotframe) }
{
    let used = eb_limits::sizes::at_most_16(slotframe.count);
    let head = head_number(slotframe.handle, slotframe.size, slotframe.count);
    octets::put::put_le(buffer, at, 7, head);
    put_each(buffer, at + 7, 5, &slotframe.links[..used], link_number);
}

// The start of the MLME group: descriptor, synchronization, timeslot.
fn put_group_start(
    buffer: &mut [u8],
    at: usize,
    synchronization: Synchronization,
    template: TimeslotTemplate,
    count: u16,
)
    requires { at < 2 ^ 63 + 32 }
    ensures { buffer.new ≡ stored buffer.old at (group_descriptor mlme_group (group_size template count) ++ (synchronization_bytes synchronization ++ template_bytes template)) }
{
    octets::put::put_le(
        buffer,
        at,
        2,
        eb_limits::sizes::group_size(template, count) as u64 + MLME_GROUP,
    );
    octets::put::put_le(buffer, at + 2, 8, synchronization_number(synchronization));
    put_template(buffer, at + 10, template);
}

// The rest of the MLME group: hopping, whose descriptor and sequence ID are one number of three bytes, and the slotframe.
fn put_group_rest(buffer: &mut [u8], at: usize, hopping: u8, slotframe: Slotframe)
    requires { at < 2 ^ 63 + 64 }
    ensures { buffer.new ≡ stored buffer.old at (hopping_bytes hopping ++ slotframe_bytes slotframe) }
{
    octets::put::put_le(buffer, at, 3, HOPPING_DESCRIPTOR + hopping as u64 * BYTE_2);
    put_slotframe(buffer, at + 3, slotframe);
}

// The MLME group. Its four parts are given one by one, since a record has more than they are.
pub fn put_group(
    buffer: &mut [u8],
    at: usize,
    synchronization: Synchronization,
    template: TimeslotTemplate,
    hopping: u8,
    slotframe: Slotframe,
)
    ensures { buffer.new ≡ stored buffer.old at (group_bytes synchronization template hopping slotframe) }
{
    if buffer.len() <= at {
        return;
    }
    let size = eb_limits::sizes::template_size(template);
    put_group_start(buffer, at, synchronization, template, slotframe.count);
    put_group_rest(buffer, at + (12 + size), hopping, slotframe);
}
