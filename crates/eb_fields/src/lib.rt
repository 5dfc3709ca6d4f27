// The fields of a record by their places in the list of fields (eb_fields_spec/specs/Fields.antt), and whether two contents differ.
#![tactic(auto, using(crate::proofs::FieldLaws::contents, crate::proofs::FieldLaws::rows))]

ghost use Rattle.std.specs.Prelude.{◌≡◌};
ghost use Rattle.eb_fields_spec.specs.Content.{absent_content, number_content, address_content, octets_content, sequence_content, content_if, flag_content};
ghost use Rattle.eb_fields.specs.Same.{TellsSame};
ghost use Rattle.eb_fields.specs.Part.{plain_content, link_number, links_content};
ghost use Rattle.eb_fields_spec.specs.Fields.{content_in, content_at, header_fields, synchronization_fields, timeslot_fields, slotframe_fields, joining_fields};

use eb_fields_spec::Content;
use eb_record_spec::{
    Beacon, JoiningInformation, Link, Slotframe, Synchronization, TimeslotTemplate,
};
use mac_header_spec::{Address, SequenceNumber};

// A content of a kind that has a number or nothing.
fn plain(kind: u32, number: u64) -> Content
    ensures { result ≡ plain_content kind number }
{
    Content {
        kind,
        length: 0,
        number,
        octets: [0u8; 16],
    }
}

// A field that is not there.
pub fn absent() -> Content
    ensures { result ≡ absent_content }
{
    plain(eb_fields_spec::ABSENT, 0)
}

// A number.
fn number(value: u64) -> Content
    ensures { result ≡ number_content value }
{
    plain(eb_fields_spec::NUMBER, value)
}

// A flag as the number 0 or 1.
fn flag(set: bool) -> Content
    ensures { result ≡ flag_content set }
{
    number(u64::from(set))
}

// An address.
fn address(value: Address) -> Content
    ensures { result ≡ address_content value }
{
    match value {
        Address::Short(number) => plain(eb_fields_spec::SHORT, u64::from(number)),
        Address::Extended(number) => plain(eb_fields_spec::EXTENDED, number),
    }
}

// Octets: the first so many of these sixteen.
fn octets(length: u8, octets: [u8; 16]) -> Content
    ensures { result ≡ octets_content length octets }
{
    Content {
        kind: eb_fields_spec::OCTETS,
        length: u32::from(length),
        number: 0,
        octets,
    }
}

// A sequence number, if there is one.
fn sequence_number(value: SequenceNumber) -> Content
    ensures { result ≡ sequence_content value }
{
    match value {
        SequenceNumber::Absent => absent(),
        SequenceNumber::Number(value) => number(u64::from(value)),
    }
}

// This content, if the field is there.
fn content_if(there: bool, content: Content) -> Content
    ensures { result ≡ content_if there content }
{
    if there { content } else { absent() }
}

// Each of these gives the content of a field by its place among the fields of one element; absent behind the last. An element goes by value: by
// reference the whole record would stand in memory before the first test of the place (docs/SPEED.md).
fn header_field(sequence: SequenceNumber, pan: u16, source: Address, place: usize) -> Content
    ensures { result ≡ content_in (header_fields sequence pan source) place }
{
    match place {
        0 => sequence_number(sequence),
        1 => number(u64::from(pan)),
        2 => address(source),
        _ => absent(),
    }
}

fn synchronization_field(synchronization: Synchronization, place: usize) -> Content
    ensures { result ≡ content_in (synchronization_fields synchronization) place }
{
    match place {
        0 => number(synchronization.asn),
        1 => number(u64::from(synchronization.metric)),
        _ => absent(),
    }
}

fn timeslot_field(template: TimeslotTemplate, place: usize) -> Content
    ensures { result ≡ content_in (timeslot_fields template) place }
{
    if place == 0 {
        return number(u64::from(template.id));
    }
    if place > 12 {
        return absent();
    }
    content_if(
        template.timed,
        number(u64::from(template.timings[place - 1])),
    )
}

// A number of a link: its timeslot, its channel offset or its options.
fn link_number(link: Link, part: usize) -> u64
    ensures { result ≡ link_number link part }
{
    match part {
        0 => u64::from(link.timeslot),
        1 => u64::from(link.channel_offset),
        _ => u64::from(link.options),
    }
}

// The fields of all links, three for each place.
fn link_field(slotframe: Slotframe, place: usize) -> Content
    ensures { result ≡ links_content slotframe place }
{
    let link = place / 3;
    if link >= 16 {
        return absent();
    }
    let value = link_number(slotframe.links[link], place % 3);
    content_if(link < usize::from(slotframe.count), number(value))
}

fn slotframe_field(slotframe: Slotframe, place: usize) -> Content
    ensures { result ≡ content_in (slotframe_fields slotframe) place }
{
    match place {
        0 => number(u64::from(slotframe.handle)),
        1 => number(u64::from(slotframe.size)),
        2 => number(u64::from(slotframe.count)),
        _ => link_field(slotframe, place - 3),
    }
}

fn joining_field(joining: JoiningInformation, place: usize) -> Content
    ensures { result ≡ content_in (joining_fields joining) place }
{
    let there = joining.present;
    match place {
        0 => content_if(there, flag(joining.router)),
        1 => content_if(there, flag(joining.proxied)),
        2 => content_if(there, number(u64::from(joining.proxy))),
        3 => content_if(there, number(u64::from(joining.rank))),
        4 => content_if(there, number(u64::from(joining.pan))),
        5 => content_if(
            there & joining.proxied,
            address(Address::Extended(joining.address)),
        ),
        6 => content_if(there, octets(joining.length, joining.network)),
        _ => absent(),
    }
}

// The content of a record's field by its place in the list of fields; absent behind the last. The record goes by value, as C hands it over.
pub fn content(beacon: Beacon, place: usize) -> Content
    ensures { result ≡ content_at beacon place }
{
    if place < eb_fields_spec::SYNCHRONIZATION {
        return header_field(beacon.sequence, beacon.pan, beacon.source, place);
    }
    if place < eb_fields_spec::TIMESLOT {
        return synchronization_field(
            beacon.synchronization,
            place - eb_fields_spec::SYNCHRONIZATION,
        );
    }
    if place < eb_fields_spec::HOPPING {
        return timeslot_field(beacon.timeslot, place - eb_fields_spec::TIMESLOT);
    }
    if place < eb_fields_spec::SLOTFRAME {
        return number(u64::from(beacon.hopping));
    }
    if place < eb_fields_spec::JOINING {
        return slotframe_field(beacon.slotframe, place - eb_fields_spec::SLOTFRAME);
    }
    joining_field(beacon.joining, place - eb_fields_spec::JOINING)
}

// Whether two contents are the same: of one kind, with the same value.
pub fn same(one: Content, other: Content) -> bool
    ensures { TellsSame result one other }
{
    one == other
}
