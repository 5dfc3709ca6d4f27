// The name and the content of a field, put into a lent buffer as text.
#![tactic(auto)]

ghost use Rattle.std.specs.Prelude.{◌≡◌, min};
ghost use Rattle.text_put.specs.Puts.{Puts};
ghost use Rattle.eb_fields_spec.specs.Fields.{name_at};
ghost use Rattle.text_fields_spec.specs.ContentText.{octets_text, content_text};
ghost use Rattle.text_fields.specs.Part.{header_name, synchronization_name, timing_name, timeslot_name, part_name, links_name, slotframe_name, joining_name};

use eb_fields_spec::Content;
use text_put::Line;

// How many octets are shown of so many, of which sixteen are at hand.
fn shown(length: u32) -> usize
    ensures { result ≡ min length 16 }
{
    length.min(16) as usize
}

// Each of these puts a part into a line.
fn put_octets(line: &mut Line, length: u32, octets: &[u8; 16])
    ensures { Puts 53 line.old (octets_text length octets.now) line.new }
{
    let count = shown(length);
    line.decimal(length as u64);
    line.text(b":");
    line.octets(&octets[..count]);
}

// The content of a field.
pub fn put_content(line: &mut Line, content: &Content)
    ensures { Puts 53 line.old (content_text content.now) line.new }
{
    match content.kind {
        eb_fields_spec::ABSENT => line.text(b"absent"),
        eb_fields_spec::NUMBER => line.decimal(content.number),
        eb_fields_spec::SHORT => {
            line.text(b"short:");
            line.hex(content.number, 4);
        }
        eb_fields_spec::EXTENDED => {
            line.text(b"extended:");
            line.hex(content.number, 16);
        }
        _ => put_octets(line, content.length, &content.octets),
    }
}

// The names of the fields of one element, by their places in it; nothing behind the last.
fn put_header_name(line: &mut Line, place: usize)
    ensures { Puts 40 line.old (header_name place) line.new }
{
    match place {
        0 => line.text(b"sequence-number"),
        1 => line.text(b"pan-id"),
        2 => line.text(b"source"),
        _ => {}
    }
}

fn put_synchronization_name(line: &mut Line, place: usize)
    ensures { Puts 40 line.old (synchronization_name place) line.new }
{
    match place {
        0 => line.text(b"asn"),
        1 => line.text(b"join-metric"),
        _ => {}
    }
}

fn put_timing_name(line: &mut Line, place: usize)
    ensures { Puts 40 line.old (timing_name place) line.new }
{
    match place {
        0 => line.text(b"timing-cca-offset"),
        1 => line.text(b"timing-cca"),
        2 => line.text(b"timing-tx-offset"),
        3 => line.text(b"timing-rx-offset"),
        4 => line.text(b"timing-rx-ack-delay"),
        5 => line.text(b"timing-tx-ack-delay"),
        6 => line.text(b"timing-rx-wait"),
        7 => line.text(b"timing-ack-wait"),
        8 => line.text(b"timing-rx-tx"),
        9 => line.text(b"timing-max-ack"),
        10 => line.text(b"timing-max-tx"),
        11 => line.text(b"timing-timeslot-length"),
        _ => {}
    }
}

fn put_timeslot_name(line: &mut Line, place: usize)
    ensures { Puts 40 line.old (timeslot_name place) line.new }
{
    if place == 0 {
        return line.text(b"template-id");
    }
    put_timing_name(line, place - 1)
}

// The name of a number of a link, behind the link's place.
fn put_part_name(line: &mut Line, part: usize)
    ensures { Puts 15 line.old (part_name part) line.new }
{
    match part {
        0 => line.text(b"-timeslot"),
        1 => line.text(b"-channel-offset"),
        _ => line.text(b"-options"),
    }
}

fn put_link_name(line: &mut Line, place: usize)
    ensures { Puts 40 line.old (links_name place) line.new }
{
    let link = place / 3;
    if link >= 16 {
        return;
    }
    line.field(b"link-", link as u64);
    put_part_name(line, place % 3)
}

fn put_slotframe_name(line: &mut Line, place: usize)
    ensures { Puts 40 line.old (slotframe_name place) line.new }
{
    match place {
        0 => line.text(b"slotframe-handle"),
        1 => line.text(b"slotframe-size"),
        2 => line.text(b"link-count"),
        _ => put_link_name(line, place - 3),
    }
}

fn put_joining_name(line: &mut Line, place: usize)
    ensures { Puts 40 line.old (joining_name place) line.new }
{
    match place {
        0 => line.text(b"joining-r"),
        1 => line.text(b"joining-p"),
        2 => line.text(b"proxy-priority"),
        3 => line.text(b"rank-priority"),
        4 => line.text(b"pan-priority"),
        5 => line.text(b"proxy-address"),
        6 => line.text(b"network-id"),
        _ => {}
    }
}

// The name of the field at a place of the list of fields; nothing behind the last.
pub fn put_name(line: &mut Line, place: usize)
    ensures { Puts 40 line.old (name_at place) line.new }
{
    if place < eb_fields_spec::SYNCHRONIZATION {
        return put_header_name(line, place);
    }
    if place < eb_fields_spec::TIMESLOT {
        return put_synchronization_name(line, place - eb_fields_spec::SYNCHRONIZATION);
    }
    if place < eb_fields_spec::HOPPING {
        return put_timeslot_name(line, place - eb_fields_spec::TIMESLOT);
    }
    if place < eb_fields_spec::SLOTFRAME {
        return line.text(b"hopping-sequence-id");
    }
    if place < eb_fields_spec::JOINING {
        return put_slotframe_name(line, place - eb_fields_spec::SLOTFRAME);
    }
    put_joining_name(line, place - eb_fields_spec::JOINING)
}
