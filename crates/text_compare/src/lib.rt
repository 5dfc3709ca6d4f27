// The text that a comparison of two beacons is printed as, put into a lent buffer: a line for each field that differs, or the line of a refusal.
#![tactic(auto)]

ghost use Rattle.std.specs.Prelude.{◌≡◌, ◌*◌, length};
ghost use Rattle.io.specs.Counts.{IsPrefixLen};
ghost use Rattle.text_put.specs.Puts.{Puts};
ghost use Rattle.text_put_spec.specs.Part.{starts_with};
ghost use Rattle.eb_read_spec.specs.Read.{read_frame};
ghost use Rattle.compare_spec.specs.Compare.{compared};
ghost use Rattle.text_compare_spec.specs.CompareText.{side_text, line_text, lines_text, refused_text, compared_text, compare_text_for};

use compare_spec::{Difference, Refused};
use eb_fields_spec::Content;
use text_put::Line;

// The least buffer that gets a text: 149 bytes for each of 77 lines.
pub const ROOM: usize = 11473;

// Each of these puts a part into a line.
fn put_side(line: &mut Line, content: &Content)
    ensures { Puts 54 line.old (side_text content.now) line.new }
{
    line.text(b" ");
    text_fields::put_content(line, content);
}

fn put_line(line: &mut Line, difference: &Difference)
    ensures { Puts 149 line.old (line_text difference.now) line.new }
{
    text_fields::put_name(line, difference.place);
    put_side(line, &difference.first);
    put_side(line, &difference.second);
    line.text(b"\n");
}

fn put_refused(line: &mut Line, first: u8, second: u8)
    ensures { Puts 50 line.old (refused_text first second) line.new }
{
    line.field(b"refused ", u64::from(first));
    line.field(b" ", u64::from(second));
    line.text(b"\n");
}

fn put_lines(line: &mut Line, list: &[Difference])
    ensures { Puts (149 * length list.now) line.old (lines_text list.now) line.new }
{
    for difference in list {
        put_line(line, difference);
    }
}

// What the comparison of two frames comes to.
fn put_compared(line: &mut Line, first: &[u8], second: &[u8])
    ensures { Puts 11473 line.old (compared_text (compared (read_frame first.now) (read_frame second.now))) line.new }
{
    match compare_frames::compare(first, second) {
        Ok(list) => put_lines(line, list.as_slice()),
        Err(Refused::First(first)) => put_refused(line, first.number(), refusal::DONE),
        Err(Refused::Second(second)) => put_refused(line, refusal::DONE, second.number()),
        Err(Refused::Both(first, second)) => put_refused(line, first.number(), second.number()),
    }
}

// Reads two frames, puts what their comparison comes to at the start of the buffer, and answers how many bytes that has: none if the records
// are equal. A buffer of under 11473 bytes is left as it is.
pub fn compare_text(first: &[u8], second: &[u8], buffer: &mut [u8]) -> usize
    ensures answer { result ≡ length (compare_text_for (length buffer.old) first.now second.now) }
    ensures buffer { buffer.new ≡ starts_with (compare_text_for (length buffer.old) first.now second.now) buffer.old }
    ensures counts { IsPrefixLen result buffer.new }
{
    if buffer.len() < ROOM {
        return 0;
    }
    let mut line = Line { buffer, end: 0 };
    put_compared(&mut line, first, second);
    line.end
}
