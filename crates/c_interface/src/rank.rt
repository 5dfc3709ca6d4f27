// The increment and the join metric for C.
ghost use Rattle.std.specs.Prelude.{◌≡◌};
ghost use Rattle.nbr_metric_spec.specs.Metric.{increment};
ghost use Rattle.nbr_metric_spec.specs.JoinMetric.{join_metric};

use nbr_metric_spec::JoinAnswer;

// The increment of a neighbour: 768 before the first attempt, and 0 where attempts were made and none was acknowledged.
#[unsafe(no_mangle)]
pub extern "C" fn tesolvagna_increment(attempts: u16, acked: u16) -> u32
    ensures { result ≡ increment attempts acked }
{
    nbr_metric::increment::increment(attempts, acked)
}

// The join metric of a rank; a rank outside 256 to 65534 is refused with 8.
#[unsafe(no_mangle)]
pub extern "C" fn tesolvagna_join_metric(rank: u32) -> JoinAnswer
    ensures { result ≡ join_metric rank }
{
    JoinAnswer::from(nbr_metric::join_metric::join_metric(rank))
}
