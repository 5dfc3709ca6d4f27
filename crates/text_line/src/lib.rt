// The line that a reading is printed as, put into a lent buffer. Each of its numbers has at most the 20 digits of a u64, so that 128
// bytes hold every line.
#![tactic(auto)]

ghost use Rattle.std.specs.Prelude.{◌≡◌, length};
ghost use Rattle.io.specs.Counts.{IsPrefixLen};
ghost use Rattle.text_put.specs.Puts.{Puts};
ghost use Rattle.text_put_spec.specs.Part.{starts_with};
ghost use Rattle.text_line_spec.specs.Line.{synchronization_text, slotframe_text, accepted_text, line_of, line_for};
ghost use Rattle.eb_read_spec.specs.Read.{read_frame};

use eb_record_spec::Beacon;
use text_put::Line;

// The least buffer that gets a line.
pub const ROOM: usize = 128;

// Each of these puts a part into a line.
fn put_synchronization(line: &mut Line, asn: u64, metric: u8)
    ensures { Puts 52 line.old (synchronization_text asn metric) line.new }
{
    line.field(b"asn ", asn);
    line.field(b" metric ", u64::from(metric));
}

fn put_slotframe(line: &mut Line, size: u16, links: u16)
    ensures { Puts 54 line.old (slotframe_text size links) line.new }
{
    line.field(b" size ", u64::from(size));
    line.field(b" links ", u64::from(links));
    line.text(b"\n");
}

fn put_accepted(line: &mut Line, beacon: &Beacon)
    ensures { Puts 106 line.old (accepted_text beacon.now) line.new }
{
    put_synchronization(
        line,
        beacon.synchronization.asn,
        beacon.synchronization.metric,
    );
    put_slotframe(line, beacon.slotframe.size, beacon.slotframe.count);
}

// The line of a frame's reading.
fn put_line(line: &mut Line, s: &[u8])
    ensures { Puts 106 line.old (line_of (read_frame s.now)) line.new }
{
    match eb_read::read(s) {
        Ok(beacon) => put_accepted(line, &beacon),
        Err(refusal) => line.refused(refusal.number()),
    }
}

// Reads a frame, puts its line at the start of the buffer, and answers how many bytes the line has. A buffer of under 128 bytes is left as
// it is.
pub fn bench_line(s: &[u8], buffer: &mut [u8]) -> usize
    ensures answer { result ≡ length (line_for (length buffer.old) s.now) }
    ensures buffer { buffer.new ≡ starts_with (line_for (length buffer.old) s.now) buffer.old }
    ensures counts { IsPrefixLen result buffer.new }
{
    if buffer.len() < ROOM {
        return 0;
    }
    let mut line = Line { buffer, end: 0 };
    put_line(&mut line, s);
    line.end
}
