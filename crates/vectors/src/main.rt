// Runs worked values through the library and prints a line of numbers for each, under a line that names them; the file `stdout` beside
// src/ has what they must be. Worked slots stand in reference/tests/values.rs.
#![tactic(auto)]

ghost use Rattle.std.specs.Prelude.{◌≤◌};

use eb_record_spec::TimeslotTemplate;
use nbr_calls::advertise::advertise;
use nbr_calls::report::report;
use nbr_metric_spec::Place;
use nbr_table_spec::{Evaluation, Table};
use refusal::Refusal;

// The last ASN: an ASN has five bytes.
const LAST_ASN: u64 = 0xFF_FFFF_FFFF;
// The most bytes of a frame that may be read.
const LONGEST: usize = 125;
// One byte more.
const TOO_LONG: usize = 126;
// The neighbours of a fresh tag, in the order in which it hears them, and the ranks that they advertise.
const FIRST: u64 = 1;

const FIRST_RANK: u16 = 512;

const SECOND: u64 = 2;

const SECOND_RANK: u16 = 256;

// Writes text. What fails shows where it is compared.
fn say(rt: &impl Print, text: &[u8]) {
    let _ = rt.write_all(text);
}

// Writes a number and the byte behind it.
fn put(rt: &impl Print, number: u64, end: u8) {
    let _ = rt.print(number);
    say(rt, &[end]);
}

fn channel(rt: &impl Print, asn: u64, channel_offset: u16) {
    put(rt, asn, b' ');
    put(rt, u64::from(channel_offset), b' ');
    put(rt, u64::from(hopping::channel(asn, channel_offset)), b'\n');
}

// A tag at some rank: its join metric's number and the metric, 0 where it has none, and the own rank of a child that has it as its parent, with 75
// of 100 frames acknowledged.
fn hop(rt: &impl Print, rank: u16) -> u16 {
    let metric = nbr_metric::join_metric::join_metric(u32::from(rank));
    let mut table = nbr_table_spec::empty();
    table.places[0] = Place {
        id: 1,
        rank,
        attempts: 100,
        acked: 75,
        used: true,
    };
    let own = match nbr_calls::evaluate::evaluate(table) {
        Ok(evaluated) => evaluated.rank,
        Err(_) => nbr_metric_spec::INFINITE_RANK,
    };
    put(rt, u64::from(rank), b' ');
    put(rt, u64::from(refusal::number_in(metric)), b' ');
    put(rt, u64::from(metric.unwrap_or(0)), b' ');
    put(rt, u64::from(own), b'\n');
    own
}

// Evaluates a table: the number, the own rank, 1 if a parent is held, and its identifier.
fn evaluated(rt: &impl Print, table: Table) -> Table {
    let evaluation = nbr_calls::evaluate::evaluate(table);
    let (after, rank) = match evaluation {
        Ok(Evaluation { table, rank }) => (table, rank),
        Err(_) => (table, nbr_metric_spec::INFINITE_RANK),
    };
    put(rt, u64::from(refusal::number_in(evaluation)), b' ');
    put(rt, u64::from(rank), b' ');
    put(rt, u64::from(after.parent.is_some()), b' ');
    put(rt, after.parent.unwrap_or(0), b'\n');
    after
}

// A fresh tag joins through the first neighbour, measures it, and keeps it against the second, which is fresh. It changes when the
// first gets worse, to 2 of 5, and changes back when the first attempt at the second fails.
fn fresh_tag(rt: &impl Print) -> Result<(), Refusal> {
    let start = evaluated(rt, nbr_table_spec::empty());
    let joined = evaluated(rt, advertise(start, FIRST, FIRST_RANK)?);
    let measured = evaluated(rt, report(joined, FIRST, 1, true)?);
    let kept = evaluated(rt, advertise(measured, SECOND, SECOND_RANK)?);
    let changed = evaluated(rt, report(kept, FIRST, 4, true)?);
    evaluated(rt, report(changed, SECOND, 1, false)?);
    Ok(())
}

// Reads a frame: its length and its line.
fn frame(rt: &impl Print, s: &[u8]) {
    put(rt, s.len() as u64, b' ');
    let mut buffer = [0u8; text_line::ROOM];
    let end = text_line::bench_line(s, &mut buffer);
    say(rt, &buffer[..end]);
}

// The ID of a timeslot template, and the length of a timeslot, which is its last timing.
fn template(rt: &impl Print, template: TimeslotTemplate) {
    put(rt, u64::from(template.id), b' ');
    put(rt, u64::from(template.timings[11]), b'\n');
}

// The first bytes of a beacon of 38, laid out field by field in docs/RULES.md.
fn cut(rt: &impl Print, bytes: usize)
    requires { bytes ≤ 38 }
{
    let s =
        *b"\x40\xAB\x34\x12\xFF\xFF\x07\x00\x00\x3F\x1A\x88\x06\x1A\x00\x01\x00\x00\x00\x02\x01\x1C\x00\x01\xC8\x00\x0A\x1B\x01\x00\x0B\x00\x01\x00\x00\x00\x00\x0F";
    frame(rt, &s[..bytes]);
}

// RFC 8180, appendix A.2, with some group length: the RFC prints A.1's, 26, and the elements take 50. It breaks off after the length of
// its last element, which is completed as in A.1.
fn published_timings(rt: &impl Print, group: u8) {
    let mut s =
        *b"\x40\xAB\x34\x12\xFF\xFF\x07\x00\x00\x3F\x1A\x88\x06\x1A\x05\x04\x03\x02\x01\x00\x19\x1C\x01\x8C\x0A\x80\x00\x6C\x0C\x90\x06\xB0\x04\xDC\x05\xE4\x0C\x58\x02\xC0\x00\x60\x09\xA0\x10\x98\x3A\x01\xC8\x00\x0A\x1B\x01\x00\x65\x00\x01\x00\x00\x00\x00\x0F";
    s[10] = group;
    frame(rt, &s);
    match eb_read::read(&s) {
        Ok(beacon) => template(rt, beacon.timeslot),
        Err(_) => template(rt, TimeslotTemplate::default()),
    }
}

// RFC 8180, appendix A.3: the element of the correction, whose two bytes of content the RFC leaves open, behind the fields of the
// acknowledgement of 12 bytes in docs/RULES.md.
fn published_ack(rt: &impl Print, low: u8, high: u8) {
    let mut s = *b"\x42\xAB\x34\x12\x07\x00\x01\x00\x02\x0F\x00\x00";
    s[10] = low;
    s[11] = high;
    let mut buffer = [0u8; text_ack::ROOM];
    let end = text_ack::ack_line(&s, &mut buffer);
    say(rt, &buffer[..end]);
}

fn main(rt: HostRuntime) {
    let rt = &rt;
    say(rt, b"asn, offset: channel\n");
    channel(rt, 11, 0);
    channel(rt, LAST_ASN, 0);
    channel(rt, LAST_ASN, 1);
    say(
        rt,
        b"rank: join metric's number, metric, child's own rank; RFC 8180's five hops, each of which adds 512\n",
    );
    hop(rt, hop(rt, hop(rt, hop(rt, hop(rt, hop(rt, 256))))));
    say(
        rt,
        b"a fresh tag, its evaluations: number, own rank, whether a parent is held, its identifier; it joins, measures, keeps, changes and changes back\n",
    );
    if let Err(refusal) = fresh_tag(rt) {
        put(rt, u64::from(refusal.number()), b'\n');
    }
    say(
        rt,
        b"beacon of 38 bytes and cuts of it, zeros, RFC 8180 A.1, A.2 as printed, A.2 with a group of 50 bytes: length and line, for A.2 the template's ID and the timeslot's length\n",
    );
    // Whole, and cut by a byte, behind 0x7E, behind the source, in the source, and to nothing.
    cut(rt, 38);
    cut(rt, 37);
    cut(rt, 10);
    cut(rt, 8);
    cut(rt, 7);
    cut(rt, 0);
    frame(rt, &[0u8; LONGEST]);
    frame(rt, &[0u8; TOO_LONG]);
    // A.1 behind the fields of the beacon above: the RFC shows the elements alone.
    frame(
        rt,
        b"\x40\xAB\x34\x12\xFF\xFF\x07\x00\x00\x3F\x1A\x88\x06\x1A\x05\x04\x03\x02\x01\x00\x01\x1C\x00\x01\xC8\x00\x0A\x1B\x01\x00\x65\x00\x01\x00\x00\x00\x00\x0F",
    );
    published_timings(rt, 26);
    published_timings(rt, 50);
    say(
        rt,
        b"RFC 8180 A.3 with contents 0, the last positive and the first negative correction, -1, and bits 12 to 15\n",
    );
    published_ack(rt, 0x00, 0x00);
    published_ack(rt, 0xFF, 0x07);
    published_ack(rt, 0x00, 0x08);
    published_ack(rt, 0xFF, 0x0F);
    published_ack(rt, 0x01, 0x70);
    published_ack(rt, 0x01, 0x80);
}
