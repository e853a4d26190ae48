ghost use Rattle.rules.specs.Grade.{low_grade, high_grade};
ghost use Rattle.rules.specs.Questions.{lawful_section};
ghost use Rattle.rules.specs.Ratio.{rounded_down, rounded_up};
ghost use Rattle.std.specs.Int.{int_max};
ghost use Rattle.std.specs.Prelude.{◌≡◌, ◌≤◌, ◌&&◌, not, ◌==◌, nat_le, int_le, pos, negsuc, ◌*ℤ◌, ◌+ℤ◌, ◌≤ℤ◌, IsTrue};

use crate::curve::Curve;
use rules::{Refusal, SectionFigures};
use std::default::MadeWith;
use std::marker::Model;
use units::{ExactValue, Grade, Milli, MilliPerTonne};

/// One section of line: its length in metres, 1 to 20,000, its gradient in tenths of a per mille, -400 to 400, the curve
/// that lies in it, if any, and whether there is a stop.
#[derive(Clone, Copy, PartialEq, Eq, Debug)]
pub struct Section {
    metres: u32,
    gradient: i32,
    curve: Option<Curve>,
    stop: bool,
}

impl Model for Section {
    ghost use Rattle.rules.specs.declared.figures.SectionFigures.{SectionFigures};

    ghost Value = { SectionFigures };

    ghost use Rattle.line.specs.Section.{figures_of, section_of, IsLawful, section_of-figures_of};

    ghost view = { figures_of };

    ghost invariant = { IsLawful };

    ghost inverse = { section_of };

    ghost inverse_ok = { section_of-figures_of };
}

// Makes the section that fills a place of a line where no section lies.
#[derive(Clone, Copy)]
pub(crate) struct Blank;

impl MadeWith<Blank> for Section {
    fn made_with(_blank: Blank) -> Section {
        Section {
            metres: 1,
            gradient: 0,
            curve: None,
            stop: false,
        }
    }
}

impl TryFrom<SectionFigures> for Section {
    type Error = Refusal;

    ghost use Rattle.line.specs.Section.{MadeIfLawful};

    ghost try_from_gives = { MadeIfLawful };

    fn try_from(figures: SectionFigures) -> Result<Section, Refusal> {
        let curve = match (figures.curve, figures.radius) {
            (0, 0) => None,
            (metres, radius) => Some(Curve::new(metres, radius)?),
        };
        if !is_in_range(figures) {
            return Err(Refusal::UnlawfulSection);
        }
        Ok(Section {
            metres: figures.metres,
            gradient: figures.gradient,
            curve,
            stop: figures.stop == 1,
        })
    }
}

impl Section {
    // A method and not `From`: it tells of a section that stays the line's.
    /// The figures as they were given.
    pub fn figures(&self) -> SectionFigures
        ensures value { result ≡ self.now }
        ensures lawful { IsTrue (lawful_section result) }
    {
        SectionFigures {
            metres: self.metres,
            gradient: self.gradient,
            curve: self.curve.map_or(0, |curve| curve.metres()),
            radius: self.curve.map_or(0, |curve| curve.radius()),
            stop: u32::from(self.stop),
        }
    }

    /// The length in metres.
    pub fn metres(&self) -> u32
        ensures value { result ≡ self.now.metres }
        ensures least { 1 ≤ result }
        ensures most { result ≤ 20000 }
    {
        self.metres
    }

    /// Whether there is a stop.
    pub fn is_stop(&self) -> bool
        ensures { result ≡ not (self.now.stop == 0) }
    {
        self.stop
    }

    /// The grade, its fraction of a milli rounded down.
    pub fn low_grade(&self) -> Grade
        ensures value { result ≡ low_grade self.now }
        ensures least { negsuc 39999 ≤ℤ result }
        ensures most { result ≤ℤ pos 47000 }
    {
        self.with_curve(self.low_curve())
    }

    /// The grade, its fraction of a milli rounded up; 0 where that is negative.
    pub fn high_grade(&self) -> Milli
        ensures { pos result ≡ high_grade self.now }
    {
        self.with_curve(self.high_curve()).positive_part()
    }

    // What the curve adds to the grade, rounded down; nothing is divided without a curve.
    #[tactic(auto, using(crate::proofs::Grades::low_straight))]
    fn low_curve(&self) -> Milli
        ensures value { low_grade self.now ≡ pos 100 *ℤ self.now.gradient +ℤ pos result }
        ensures small { result ≤ 7000 }
    {
        if self.curve.is_none() {
            return Milli::new(0);
        }
        self.curve_grade().down()
    }

    // What the curve adds to the grade, rounded up; nothing is divided without a curve.
    #[tactic(auto, using(crate::proofs::Grades::high_straight))]
    fn high_curve(&self) -> Milli
        ensures value { high_grade self.now ≡ int_max (pos 100 *ℤ self.now.gradient +ℤ pos result) (pos 0) }
        ensures small { result ≤ 7000 }
    {
        if self.curve.is_none() {
            return Milli::new(0);
        }
        self.curve_grade().up()
    }

    // What the curve adds to the grade, in milli.
    fn curve_grade(&self) -> ExactValue<MilliPerTonne>
        ensures low { low_grade self.now ≡ pos 100 *ℤ self.now.gradient +ℤ pos (rounded_down result) }
        ensures high { high_grade self.now ≡ int_max (pos 100 *ℤ self.now.gradient +ℤ pos (rounded_up result)) (pos 0) }
        ensures small { rounded_up result ≤ 7000 }
    {
        let (rise, run) = match self.curve {
            Some(curve) => (
                700_000 * u64::from(curve.metres()),
                curve.radius() * self.metres,
            ),
            None => (0, 1),
        };
        ExactValue::of(rise, run).unwrap()
    }

    // The grade of the gradient and of what the curve adds to it, in milli. The bound is that of every curve: a type for it
    // would be one more wrapped number.
    fn with_curve(&self, curve: Milli) -> Grade
        requires { curve ≤ 7000 }
        ensures value { result ≡ pos 100 *ℤ self.now.gradient +ℤ pos curve }
        ensures least { negsuc 39999 ≤ℤ result }
        ensures most { result ≤ℤ pos 47000 }
    {
        Grade::from_milli(100 * self.gradient + curve.count() as i32)
    }
}

// Length 1 to 20,000, gradient -400 to 400, curve no longer than the section, stop mark 0 or 1.
fn is_in_range(f: SectionFigures) -> bool
    ensures { result ≡ (nat_le 1 f.metres && nat_le f.metres 20000
        && (int_le (negsuc 399) f.gradient && int_le f.gradient (pos 400))
        && nat_le f.curve f.metres
        && nat_le f.stop 1) }
{
    (1..=20_000).contains(&f.metres)
        && is_lawful_gradient(f.gradient)
        && f.curve <= f.metres
        && f.stop <= 1
}

fn is_lawful_gradient(gradient: i32) -> bool
    ensures { result ≡ (int_le (negsuc 399) gradient && int_le gradient (pos 400)) }
{
    (-400..=400).contains(&gradient)
}
