// The slot decision: what a tag does in a slot of its schedule. The schedule is a lent list of links; all else that is asked is one struct.
// The list is gone through once, by `scan`, and is not copied.
#![tactic(auto, using(slot_spec::proofs::SlotLaws::slots))]

ghost use Rattle.std.specs.Prelude.{◌≡◌};
ghost use Rattle.slot_spec.specs.Slot.{decision};
ghost use Rattle.slot_spec.specs.Answer.{answer_of, slot_answer};

use eb_record_spec::Link;
use refusal::Refusal;
use slot_spec::{Action, SlotAnswer, SlotQuery};

mod conclusion;
mod scan;

// The decision in the slot of an ASN: what the tag does, or the refusal of a schedule outside the limits.
pub fn decide(links: &[Link], query: SlotQuery) -> Result<Action, Refusal>
    ensures decision { result ≡ decision links.now query }
    ensures answer { answer_of result ≡ slot_answer links.now query }
{
    let start = crate::scan::begin(query);
    let seen = crate::scan::scan(links, start);
    crate::conclusion::conclude(query, links.len(), seen)
}

// The numbers of a decision.
pub fn answer(decision: Result<Action, Refusal>) -> SlotAnswer
    ensures { result ≡ answer_of decision }
{
    let number = refusal::number_in(decision);
    match decision {
        Ok(Action::Transmit { index, channel }) => SlotAnswer {
            number,
            action: 1,
            channel,
            index,
        },
        Ok(Action::Listen { index, channel }) => SlotAnswer {
            number,
            action: 2,
            channel,
            index,
        },
        Ok(Action::Sleep) | Err(_) => SlotAnswer {
            number,
            action: 0,
            channel: 0,
            index: 0,
        },
    }
}
