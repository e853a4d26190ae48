ghost use Rattle.rules.specs.Allowance.{combined_slack, told_allowance};
ghost use Rattle.std.specs.Prelude.{◌≡◌};

use laws::StockLaws;
use rules::StopFigures;

/// By how much at most, in whole millimetres, the distance answered to a stop with the laws of a stock exceeds its exact sum;
/// none for figures without a force, which no answered stop has, and where 32 bits do not hold the slack.
pub fn allowance<S: StockLaws>(stock: &S, stop: StopFigures) -> Option<u64>
    ensures { result ≡ told_allowance (combined_slack (S.meaning stock.now)) stop }
{
    let slack = u64::from(stock.combined_slack()?);
    if stop.least == 0 {
        return None;
    }
    let share = (slack * u64::from(stop.distance)).div_ceil(u64::from(stop.least));
    Some(u64::from(stop.steps) + 1 + share)
}
