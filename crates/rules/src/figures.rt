ghost use Rattle.std.specs.Prelude.{◌≡◌, Some};
ghost use Rattle.rules.specs.Printed.{vehicle_text, section_text, stop_text, stop_question_text, speed_question_text, mass_question_text, question_text};
ghost use Rattle.rules.specs.Given.{straight_section, full_braking};
ghost use Rattle.rules.specs.Questions.{figures};

use std::fmt;

/// The figures of a vehicle as they are given: its letter ('L' a locomotive, 'W' a wagon), its mass and its brake
/// pressure, both in tenths of a tonne.
#[derive(Clone, Copy, PartialEq, Eq, Debug)]
pub struct VehicleFigures {
    // Any letter may be given, and a wrong one is refused with its number: an enum of two would ask that of the caller.
    pub letter: char,
    pub mass: u32,
    pub pressure: u32,
}

impl VehicleFigures {
    /// A vehicle's letter, mass and pressure.
    pub fn new(letter: char, mass: u32, pressure: u32) -> VehicleFigures
        ensures { (result.letter ≡ letter) × (result.mass ≡ mass) × (result.pressure ≡ pressure) }
    {
        VehicleFigures {
            letter,
            mass,
            pressure,
        }
    }
}

impl fmt::Display for VehicleFigures {
    ghost output = { λ x. Some (vehicle_text x) };

    fn fmt<W: fmt::Write>(&self, f: &mut fmt::Formatter<W>) -> fmt::Result {
        write!(f, "{} {} {}", self.letter, self.mass, self.pressure)
    }
}

/// The figures of a section of line as they are given: its length in metres, its gradient in tenths of a per mille
/// (negative when falling), the length and the radius of its curve in metres, and its stop mark, 1 at a stop and else 0.
#[derive(Clone, Copy, PartialEq, Eq, Debug)]
pub struct SectionFigures {
    pub metres: u32,
    pub gradient: i32,
    // Any numbers may be given for a curve and a stop mark, and wrong ones are refused with theirs: an option and a `bool` would
    // ask that of the caller.
    pub curve: u32,
    pub radius: u32,
    pub stop: u32,
}

impl SectionFigures {
    /// A straight section that is no stop.
    pub fn straight(metres: u32, gradient: i32) -> SectionFigures
        ensures { result ≡ straight_section metres gradient }
    {
        SectionFigures {
            metres,
            gradient,
            curve: 0,
            radius: 0,
            stop: 0,
        }
    }
}

impl fmt::Display for SectionFigures {
    ghost output = { λ x. Some (section_text x) };

    fn fmt<W: fmt::Write>(&self, f: &mut fmt::Formatter<W>) -> fmt::Result {
        write!(
            f,
            "{} {} {} {} {}",
            self.metres, self.gradient, self.curve, self.radius, self.stop
        )
    }
}

/// The figures of a point of a pull table as they are given: a speed in tenths of km/h and the pull there in kgf.
#[derive(Clone, Copy, PartialEq, Eq, Debug, Default)]
pub struct PointFigures {
    pub speed: u32,
    pub value: u32,
}

impl PointFigures {
    /// A speed and the pull there.
    pub fn new(speed: u32, value: u32) -> PointFigures
        ensures { (result.speed ≡ speed) × (result.value ≡ value) }
    {
        PointFigures { speed, value }
    }
}

/// The figures of a stop question as they are given: a place in metres from the start of the line, a speed in tenths of km/h,
/// and a factor in tenths of full braking.
#[derive(Clone, Copy, PartialEq, Eq, Debug, Default)]
pub struct StopQuestion {
    pub place: u32,
    pub speed: u32,
    pub factor: u32,
}

impl StopQuestion {
    /// A stop from a place, at a speed, by full braking.
    pub fn full_braking(place: u32, speed: u32) -> StopQuestion
        ensures { result ≡ full_braking place speed }
    {
        StopQuestion {
            place,
            speed,
            factor: 10,
        }
    }
}

impl fmt::Display for StopQuestion {
    ghost output = { λ x. Some (stop_question_text x) };

    fn fmt<W: fmt::Write>(&self, f: &mut fmt::Formatter<W>) -> fmt::Result {
        write!(
            f,
            "stop at place {}, speed {}, factor {}",
            self.place, self.speed, self.factor
        )
    }
}

/// The figures of a speed question as they are given: a place in metres from the start of the line, and a factor in tenths of full
/// braking.
#[derive(Clone, Copy, PartialEq, Eq, Debug)]
pub struct SpeedQuestion {
    pub place: u32,
    pub factor: u32,
}

impl fmt::Display for SpeedQuestion {
    ghost output = { λ x. Some (speed_question_text x) };

    fn fmt<W: fmt::Write>(&self, f: &mut fmt::Formatter<W>) -> fmt::Result {
        write!(f, "speed at place {}, factor {}", self.place, self.factor)
    }
}

/// The figures of a mass question as they are given: a speed in tenths of km/h, and a gross mass per wagon in tenths of a tonne.
#[derive(Clone, Copy, PartialEq, Eq, Debug)]
pub struct MassQuestion {
    pub speed: u32,
    pub gross: u32,
}

impl fmt::Display for MassQuestion {
    ghost output = { λ x. Some (mass_question_text x) };

    fn fmt<W: fmt::Write>(&self, f: &mut fmt::Formatter<W>) -> fmt::Result {
        write!(
            f,
            "mass at speed {}, mass per wagon {}",
            self.speed, self.gross
        )
    }
}

/// What may be asked of a sheet: how far the train needs to stop, how fast it may go at a place, or how heavy its wagons may be.
#[derive(Clone, Copy, PartialEq, Eq, Debug)]
pub enum Question {
    Stop(StopQuestion),
    Speed(SpeedQuestion),
    Mass(MassQuestion),
}

impl Default for Question {
    // A stop of no figures, which is out of range.
    fn default() -> Question {
        Question::Stop(StopQuestion::default())
    }
}

impl fmt::Display for Question {
    ghost output = { λ x. Some (question_text x) };

    fn fmt<W: fmt::Write>(&self, f: &mut fmt::Formatter<W>) -> fmt::Result {
        match self {
            Question::Stop(question) => write!(f, "{question}"),
            Question::Speed(question) => write!(f, "{question}"),
            Question::Mass(question) => write!(f, "{question}"),
        }
    }
}

/// The figures of a stop: its distance in millimetres, the least force in milli, and the number of its steps.
#[derive(Clone, Copy, PartialEq, Eq, Debug)]
pub struct StopFigures {
    pub distance: u32,
    pub least: u32,
    pub steps: u32,
}

impl From<(u32, u32, u32)> for StopFigures {
    ghost from_gives = { λ t s. s ≡ figures t };

    // The three figures of an answer, by their names.
    fn from((distance, least, steps): (u32, u32, u32)) -> StopFigures {
        StopFigures {
            distance,
            least,
            steps,
        }
    }
}

impl fmt::Display for StopFigures {
    ghost output = { λ x. Some (stop_text x) };

    fn fmt<W: fmt::Write>(&self, f: &mut fmt::Formatter<W>) -> fmt::Result {
        write!(
            f,
            "{} mm, least force {}, steps {}",
            self.distance, self.least, self.steps
        )
    }
}
