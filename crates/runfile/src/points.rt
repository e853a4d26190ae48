ghost use Rattle.std.specs.Prelude.{◌≡◌, List, []};
ghost use Rattle.rules.specs.declared.figures.PointFigures.{PointFigures as GivenPoint};
ghost use Rattle.runfile.specs.Sorts.{point_sort};

use arrayvec::ArrayVec;
use pull_table::{MOST_POINTS, first_break};
use rules::{Fault, PointFigures, Refusal};
use std::marker::Model;
use text::{Entry, Malformed, Store, pair};

/// A line under the heading PUL.
#[derive(Drop)]
pub struct PointLine {
    figures: PointFigures,
}

impl Model for PointLine {
    ghost Value = { GivenPoint };

    ghost view = { λ l. l.figures };
}

impl Entry for PointLine {
    ghost sort = { point_sort };

    fn after_name(line: &[u8]) -> Option<&[u8]> {
        let [b'P', b'U', b'L', b' ', count @ ..] = line else {
            return None;
        };
        Some(count)
    }

    fn limits() -> (u32, u32) {
        (1, MOST_POINTS as u32)
    }

    fn read(line: u32, text: &[u8]) -> Result<PointLine, Fault> {
        let Ok((speed, value)) = pair(line, text) else {
            return Err(Malformed::on(line));
        };
        let figures = PointFigures { speed, value };
        Ok(PointLine { figures })
    }
}

/// The points of a pull table as far as they are read, at most 16. They lie in the value itself, which wants no memory.
#[derive(Drop)]
pub struct Points {
    points: ArrayVec<PointFigures, MOST_POINTS>,
}

impl Model for Points {
    ghost Value = { List GivenPoint };

    ghost view = { λ p. p.points.items };
}

impl Points {
    /// No points yet.
    pub fn new() -> Points
        ensures { result ≡ [] }
    {
        Points {
            points: ArrayVec::new(),
        }
    }

    /// The points in order.
    pub fn points(&self) -> &[PointFigures]
        ensures { result.now ≡ self.now }
    {
        &self.points
    }
}

impl Store<PointLine> for Points {
    ghost held = { λ points. points };

    ghost emptied = { λ points. [] };

    fn clear(&mut self) {
        self.points.clear();
    }

    fn store(&mut self, line: PointLine) -> Result<(), Refusal> {
        self.points
            .try_push(line.figures)
            .map_err(|_| Refusal::UnlawfulLaw)?;
        if first_break(&self.points).is_some() {
            self.points.pop();
            return Err(Refusal::UnlawfulLaw);
        }
        Ok(())
    }
}
