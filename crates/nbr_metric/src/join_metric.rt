// The join metric that a node puts in its beacons (docs/RULES.md, Neighbours).
ghost use Rattle.std.specs.Prelude.{◌≡◌};
ghost use Rattle.nbr_metric_spec.specs.JoinMetric.{join_answer_of, join_metric};

use nbr_metric_spec::{HIGHEST_RANK, MINIMUM_RANK};
use refusal::Refusal;

// The join metric that a node of this rank puts in its beacons; a rank outside 256 to 65534 is refused with 8.
pub fn join_metric(rank: u32) -> Result<u8, Refusal>
    ensures { join_answer_of result ≡ join_metric rank }
{
    if rank < MINIMUM_RANK || HIGHEST_RANK < rank {
        return Err(Refusal::OutOfLimits);
    }
    Ok((rank / MINIMUM_RANK - 1) as u8)
}
