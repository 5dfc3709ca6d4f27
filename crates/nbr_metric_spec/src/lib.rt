// One neighbour of the table: its place, and what the rules measure of it (specs/). The rules are those of docs/RULES.md, Neighbours.
#![tactic(auto)]

ghost use Rattle.std.specs.Prelude.{◌≡◌};
ghost use Rattle.nbr_metric_spec.specs.JoinMetric.{join_answer_of};
ghost use Rattle.nbr_metric_spec.specs.Metric.{blank as freePlace};

use refusal::Refusal;

// The lowest rank that a parent may have, and by how much a rank grows over one hop of the best link.
pub const MINIMUM_RANK: u32 = 256;

// The highest path cost that a parent may have, which is the highest rank.
pub const HIGHEST_RANK: u32 = 65534;

// The rank of a node without a parent.
pub const INFINITE_RANK: u16 = 65535;

// The increment of a neighbour before the first attempt: RFC 6552's default step of rank, 3, in units of 256.
pub const FRESH_INCREMENT: u32 = 768;

// What a neighbour offers that may not be a parent.
pub const NO_OFFER: u32 = 65535;

// A place of the table. The counters are wider than their limits, so that a table over them can be given, and is refused.
// C knows it as struct tesolvagna_neighbour: 16 bytes, the last of which is padding.
#[repr(C)]
#[derive(Clone, Copy, Default)]
pub struct Place {
    pub id: u64,
    pub rank: u16,
    pub attempts: u16,
    pub acked: u16,
    pub used: bool,
}

// A join metric with the call's number; 0 where it is refused. C knows it as struct tesolvagna_metric.
#[repr(C)]
#[derive(Clone, Copy)]
pub struct JoinAnswer {
    pub number: u8,
    pub metric: u8,
}

impl From<Result<u8, Refusal>> for JoinAnswer {
    ghost from_gives = { λ answer given. given ≡ join_answer_of answer };

    fn from(answer: Result<u8, Refusal>) -> JoinAnswer {
        match answer {
            Ok(metric) => JoinAnswer {
                number: refusal::DONE,
                metric,
            },
            Err(refusal) => JoinAnswer {
                number: refusal.number(),
                metric: 0,
            },
        }
    }
}

// A free place.
pub fn blank() -> Place
    ensures { result ≡ freePlace }
{
    Place::default()
}
