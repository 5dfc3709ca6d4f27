// The choice of the parent between the held one and the best one. The rules are those of docs/RULES.md, Neighbours.
#![tactic(auto)]

ghost use Rattle.std.specs.Prelude.{◌≡◌, ◌<◌, Some};
ghost use Rattle.nbr_table_spec.specs.Calls.{choice as choiceWith};
ghost use Rattle.nbr_table_spec.specs.Offers.{settlement};

use nbr_table_spec::{Choice, Settlement};

pub mod best_place;

// The neighbour of an offer becomes the parent.
fn take(taken: nbr_table_spec::Offer) -> Choice
    requires { taken.cost < 65535 }
    ensures { result ≡ choiceWith (Some taken.id) taken.cost }
{
    Choice {
        parent: Some(taken.id),
        rank: taken.cost as u16,
    }
}

// The parent that is held from now on and the own rank, with the place of the parent that was held.
pub fn settle(places: &[nbr_metric_spec::Place; 32], parent: Option<u64>) -> Settlement
    ensures { result ≡ settlement places.now parent }
{
    let found = crate::best_place::survey(places, parent);
    let best = found.best;
    let held = found.held;
    let cost = nbr_metric::offer(held);
    if best.cost < nbr_metric_spec::NO_OFFER {
        if cost < nbr_metric_spec::NO_OFFER {
            if best.cost + nbr_table_spec::HYSTERESIS < cost {
                return Settlement {
                    choice: take(best),
                    held,
                };
            }
            let kept = Choice {
                parent,
                rank: cost as u16,
            };
            return Settlement { choice: kept, held };
        }
        return Settlement {
            choice: take(best),
            held,
        };
    }
    let none = Choice {
        parent: None,
        rank: nbr_metric_spec::INFINITE_RANK,
    };
    Settlement { choice: none, held }
}
