ghost use Rattle.std.specs.Prelude.{◌≡◌, ◌≤◌};
ghost use Rattle.haulage.specs.Limits.{IsLimit, IsLoad};

use crate::hauling::{GREATEST, Hauling};
use laws::StockLaws;
use line::Section;
use rules::{MassQuestion, Refusal};
use sheet::Sheet;
use train::Totals;
use units::{Gross, Load, Speed};

// A train that hauls: its sums, and its two ways of hauling.
#[derive(Clone, Copy)]
pub(crate) struct Hauler {
    train: Totals,
    moving: Hauling,
    starting: Hauling,
}

impl Hauler {
    ghost use Rattle.haulage.specs.Haulers.{IsAskedFor, holds_by, holds_over};

    // The train of a sheet by the laws of a stock; refused where the question is out of its range, or there is nothing to haul with
    // or over.
    pub(crate) fn of<S: StockLaws>(
        sheet: &Sheet,
        stock: &S,
        question: MassQuestion,
    ) -> Result<Hauler, Refusal>
        ensures { IsAskedFor (S.meaning stock.now) sheet.now question result }
    {
        let v = Speed::from_tenths(question.speed)?;
        let gross = Gross::from_tenths(question.gross)?;
        let train = sheet.consist().totals();
        if train.locomotives == 0 {
            return Err(Refusal::NoLocomotive);
        }
        if sheet.section_count() == 0 {
            return Err(Refusal::LineTooShort);
        }
        Ok(Hauler {
            train,
            moving: Hauling::moving(stock, v, gross),
            starting: Hauling::starting(stock, gross),
        })
    }

    // The heaviest load that it hauls over every one of some sections.
    #[tactic(auto, using(crate::proofs::Loads::load_in))]
    pub(crate) fn load(&self, sections: &[Section]) -> Result<Load, Refusal>
        ensures { IsLoad (holds_over self.now sections.now) result }
    {
        Load::within_limit(self.limit_over(sections))
    }

    // The greatest mass of wagons, in tenths of a tonne, that it hauls over every one of some sections.
    #[tactic(auto, using(crate::proofs::Limits::begins, crate::proofs::Limits::again, crate::proofs::Limits::ends))]
    fn limit_over(&self, sections: &[Section]) -> u32
        ensures { IsLimit (holds_over self.now sections.now) result }
    {
        let mut least = GREATEST;
        for section in sections {
            least = least.min(self.limit_on(section));
        }
        least
    }

    // On one section: at the speed, and from a stand as well where there is a stop.
    fn limit_on(&self, section: &Section) -> u32
        ensures { IsLimit (holds_by self.now section.now) result }
    {
        let rise = section.high_grade();
        let moving = self.moving.limit(self.train, rise);
        if section.is_stop() {
            moving.min(self.starting.limit(self.train, rise))
        } else {
            moving
        }
    }
}
