// The increment of a neighbour: what a link adds to the rank (docs/RULES.md, Neighbours).
ghost use Rattle.std.specs.Prelude.{◌≡◌, ◌<◌, ◌≤◌, ◌^◌};
ghost use Rattle.nbr_metric_spec.specs.Metric.{IncrementIsCeiling, IncrementOfNone, IsIncrement, increment as incrementOf};

// The increment of a neighbour with so many attempts and acknowledged ones: the smallest whole number not below
// 256·(3t - 2a)/a; where a is 0, FRESH_INCREMENT before the first attempt and 0 after it.
pub fn increment(attempts: u16, acked: u16) -> u32
    ensures answer { result ≡ incrementOf attempts acked }
    ensures smallest { 1 ≤ acked → IsIncrement attempts acked result }
    ensures ceiling { IncrementIsCeiling }
    ensures none { IncrementOfNone }
    ensures bound { result < 2 ^ 29 }
{
    if acked == 0 {
        if attempts == 0 {
            return nbr_metric_spec::FRESH_INCREMENT;
        }
        return 0;
    }
    let sent = u32::from(attempts);
    let heard = u32::from(acked);
    let excess = (3 * sent).saturating_sub(2 * heard);
    (256 * excess).div_ceil(heard)
}
