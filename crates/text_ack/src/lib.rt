// The line that the reading of an acknowledgement is printed as, put into a lent buffer. Each of its numbers has at most the 20 digits of a
// u64, so that 192 bytes hold every line.
#![tactic(auto)]

ghost use Rattle.std.specs.Prelude.{◌≡◌, ◌+◌, length};
ghost use Rattle.io.specs.Counts.{IsPrefixLen};
ghost use Rattle.text_put.specs.Puts.{Puts};
ghost use Rattle.text_put_spec.specs.Part.{starts_with};
ghost use Rattle.text_ack_spec.specs.AckLine.{signed, sequence_text, kind_text, address_text, addresses_text, correction_text, acknowledged_text, ack_text, ack_line_of, ack_line_for};
ghost use Rattle.ack_read_spec.specs.Read.{read_ack};

use ack_record_spec::Ack;
use mac_header_spec::{Address, SequenceNumber};
use text_put::Line;

// The least buffer that gets a line.
pub const ROOM: usize = 192;

// Each of these puts a part into a line.
fn put_signed(line: &mut Line, value: i32)
    ensures { Puts 21 line.old (signed value) line.new }
{
    let negative = value < 0;
    if negative {
        line.text(b"-");
    }
    line.decimal(u64::from(value.unsigned_abs()));
}

fn put_sequence(line: &mut Line, sequence: SequenceNumber)
    ensures { Puts 24 line.old (sequence_text sequence) line.new }
{
    match sequence {
        SequenceNumber::Absent => line.text(b"seq absent"),
        SequenceNumber::Number(number) => line.field(b"seq ", u64::from(number)),
    }
}

fn put_kind(line: &mut Line, address: Address)
    ensures { Puts 29 line.old (kind_text address) line.new }
{
    match address {
        Address::Short(number) => line.field(b"short ", u64::from(number)),
        Address::Extended(number) => line.field(b"extended ", number),
    }
}

fn put_address(line: &mut Line, name: &[u8], address: Address)
    ensures { Puts (length name.now + 29) line.old (address_text name.now address) line.new }
{
    line.text(name);
    put_kind(line, address)
}

fn put_addresses(line: &mut Line, pan: u16, destination: Address, source: Address)
    ensures { Puts 104 line.old (addresses_text pan destination source) line.new }
{
    line.field(b" pan ", u64::from(pan));
    put_address(line, b" destination ", destination);
    put_address(line, b" source ", source)
}

fn put_correction(line: &mut Line, correction: i32)
    ensures { Puts 33 line.old (correction_text correction) line.new }
{
    line.text(b" correction ");
    put_signed(line, correction)
}

fn put_acknowledged(line: &mut Line, nack: bool)
    ensures { Puts 18 line.old (acknowledged_text nack) line.new }
{
    if nack {
        line.text(b" acknowledged no\n");
    } else {
        line.text(b" acknowledged yes\n");
    }
}

fn put_accepted(line: &mut Line, ack: &Ack)
    ensures { Puts 179 line.old (ack_text ack.now) line.new }
{
    put_sequence(line, ack.sequence);
    put_addresses(line, ack.pan, ack.destination, ack.source);
    put_correction(line, ack.correction);
    put_acknowledged(line, ack.nack);
}

// The line of a frame's reading.
fn put_line(line: &mut Line, s: &[u8])
    ensures { Puts 179 line.old (ack_line_of (read_ack s.now)) line.new }
{
    match ack_read::read(s) {
        Ok(ack) => put_accepted(line, &ack),
        Err(refusal) => line.refused(refusal.number()),
    }
}

// Reads a frame, puts its line at the start of the buffer, and answers how many bytes the line has. A buffer of under 192 bytes is left as
// it is.
pub fn ack_line(s: &[u8], buffer: &mut [u8]) -> usize
    ensures answer { result ≡ length (ack_line_for (length buffer.old) s.now) }
    ensures buffer { buffer.new ≡ starts_with (ack_line_for (length buffer.old) s.now) buffer.old }
    ensures counts { IsPrefixLen result buffer.new }
{
    if buffer.len() < ROOM {
        return 0;
    }
    let mut line = Line { buffer, end: 0 };
    put_line(&mut line, s);
    line.end
}
