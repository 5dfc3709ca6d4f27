// The walk over the header list: it counts its elements and finds where the payload list begins. A reader that asks what the elements hold
// takes them one by one from `ie_step::header_step`. The loop goes from step to step and counts no index: each step says where the next one is.
ghost use Rattle.std.specs.Prelude.{◌≡◌};
ghost use Rattle.ie_walk_spec.specs.Walk.{header_list, skipped_over};

use ie_step_spec::HeaderStep;
use ie_walk_spec::HeaderListEnd;

// The header list from an offset to an end.
pub fn header_list(s: &[u8], at: usize, end: usize) -> HeaderListEnd
    ensures { result ≡ skipped_over (header_list s.now at end) }
{
    let mut i = at;
    let mut skipped = 0;
    loop {
        let list = HeaderListEnd {
            fault: 0,
            faulty: 0,
            skipped,
            payload: 0,
        };
        match ie_step::header_step(s, i, end) {
            HeaderStep::End => {
                return list;
            }
            HeaderStep::Payload(from) => {
                return HeaderListEnd {
                    payload: from,
                    ..list
                };
            }
            HeaderStep::Element(_, _, to) => {
                skipped += 1;
                i = to;
            }
            HeaderStep::Fault(refusal) => {
                return HeaderListEnd {
                    fault: usize::from(refusal.number()),
                    faulty: i,
                    ..list
                };
            }
        }
    }
}
