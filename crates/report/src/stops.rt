ghost use Rattle.report.specs.Printed.{allowance_text};
ghost use Rattle.rules.specs.Allowance.{combined_slack, told_allowance};
ghost use Rattle.rules.specs.Printed.{stop_text};
ghost use Rattle.std.specs.Prelude.{◌≡◌, ◌++◌, Some};

use laws::StockLaws;
use reckoning::allowance;
use rules::StopFigures;
use std::fmt;

/// The figures of an answered stop, and by how many millimetres at most its distance exceeds its exact sum, where that is told.
#[derive(Clone, Copy, PartialEq, Eq, Debug)]
pub struct StopWithAllowance {
    pub figures: StopFigures,
    pub allowance: Option<u64>,
}

impl StopWithAllowance {
    /// The figures of a stop that was answered with the laws of a stock, and their allowance.
    pub fn of<S: StockLaws>(stock: &S, figures: StopFigures) -> StopWithAllowance
        ensures figures { result.figures ≡ figures }
        ensures allowance { result.allowance ≡ told_allowance (combined_slack (S.meaning stock.now)) figures }
    {
        StopWithAllowance {
            figures,
            allowance: allowance(stock, figures),
        }
    }
}

impl fmt::Display for StopWithAllowance {
    ghost output = { λ x. Some (stop_text x.figures ++ allowance_text x.allowance) };

    fn fmt<W: fmt::Write>(&self, f: &mut fmt::Formatter<W>) -> fmt::Result {
        match self.allowance {
            Some(millimetres) => write!(
                f,
                "{}, at most {millimetres} mm over the exact sum",
                self.figures
            ),
            None => write!(f, "{}", self.figures),
        }
    }
}
