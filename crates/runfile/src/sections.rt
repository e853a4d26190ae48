ghost use Rattle.std.specs.Prelude.{◌≡◌, []};
ghost use Rattle.rules.specs.Book.{lifted};
ghost use Rattle.rules.specs.declared.figures.SectionFigures.{SectionFigures as GivenSection};
ghost use Rattle.runfile.specs.Sorts.{section_sort};

use rules::{Fault, Refusal, SectionFigures};
use sheet::Sheet;
use std::marker::Model;
use text::{Entry, Malformed, Store, leading_number, leading_signed, triple};

/// A line under the heading SEC.
#[derive(Drop)]
pub struct SectionLine {
    figures: SectionFigures,
}

impl Model for SectionLine {
    ghost Value = { GivenSection };

    ghost view = { λ l. l.figures };
}

impl Entry for SectionLine {
    ghost sort = { section_sort };

    fn after_name(line: &[u8]) -> Option<&[u8]> {
        let [b'S', b'E', b'C', b' ', count @ ..] = line else {
            return None;
        };
        Some(count)
    }

    fn limits() -> (u32, u32) {
        (0, 200)
    }

    fn read(line: u32, text: &[u8]) -> Result<SectionLine, Fault> {
        let Ok((metres, rest)) = leading_number(line, text) else {
            return Err(Malformed::on(line));
        };
        let Ok((gradient, rest)) = leading_signed(line, rest) else {
            return Err(Malformed::on(line));
        };
        let Ok((curve, radius, stop)) = triple(line, rest) else {
            return Err(Malformed::on(line));
        };
        let figures = SectionFigures {
            metres,
            gradient,
            curve,
            radius,
            stop,
        };
        Ok(SectionLine { figures })
    }
}

impl Store<SectionLine> for Sheet {
    ghost held = { λ b. b.sections };

    ghost emptied = { lifted };

    fn clear(&mut self) {
        self.lift();
    }

    fn store(&mut self, line: SectionLine) -> Result<(), Refusal> {
        match self.append(line.figures) {
            Ok(()) => Ok(()),
            Err(_) => Err(Refusal::UnlawfulSection),
        }
    }
}
