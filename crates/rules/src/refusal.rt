ghost use Rattle.std.specs.Prelude.{◌≡◌, Some};
ghost use Rattle.rules.specs.Refusals.{number_of};
ghost use Rattle.rules.specs.Reasons.{reason as reason_of, refusal_text};

use std::error::Error;
use std::fmt;

/// Why a call is refused, with the number that tells it.
#[derive(Clone, Copy, PartialEq, Eq, Debug)]
pub enum Refusal {
    /// A vehicle's letter, mass or pressure is out of its range.
    UnlawfulVehicle = 1,
    /// The train has 120 vehicles already.
    TrainFull = 2,
    /// The train has no such vehicle.
    NoSuchVehicle = 3,
    /// A figure of a section is out of its range.
    UnlawfulSection = 4,
    /// The line has 200 sections already.
    LineFull = 5,
    /// The braking distance is not 400 to 4,000 m.
    UnlawfulBrakingDistance = 6,
    /// A figure of the question is out of its range.
    QuestionOutOfRange = 7,
    /// The train has no locomotive.
    NoLocomotive = 8,
    /// The line ends before the braking distance does; for a mass, it has no section.
    LineTooShort = 9,
    /// The brake force at the speed asked is under 1 kgf/t.
    WeakBrake = 10,
    /// In some step the force that holds the train back is under 1 kgf/t.
    WeakStep = 11,
    /// The train does not stop within the braking distance.
    StopsTooFar = 12,
    /// The locomotives do not haul 50 t.
    HaulsNothing = 13,
    /// The figures of a law or a layer are out of their range.
    UnlawfulLaw = 14,
    /// A line of a run file is not of its form.
    MalformedLine = 15,
    /// A count of a run file is out of its limits, a line is missing or left over, or the file is too long.
    WrongCount = 16,
    /// A buffer has fewer than 64 bytes.
    ShortBuffer = 17,
}

impl Refusal {
    // By name and not by `From`: a bare `u32` would not say that it is the number told.
    /// The number by which the refusal is told.
    pub fn number(self) -> u32
        ensures { result ≡ number_of self }
    {
        self as u32
    }

    /// Why the call is refused, in words.
    #[tactic(auto, unfolding(crate::specs::Reasons::reason))]
    pub fn reason(self) -> &'static str
        ensures { result.now ≡ reason_of self }
    {
        match self {
            Refusal::UnlawfulVehicle => "the letter, mass or pressure of a vehicle is out of range",
            Refusal::TrainFull => "the train has 120 vehicles already",
            Refusal::NoSuchVehicle => "the train has no such vehicle",
            Refusal::UnlawfulSection => "a figure of a section is out of range",
            Refusal::LineFull => "the line has 200 sections already",
            Refusal::UnlawfulBrakingDistance => "the braking distance is not 400 to 4000 m",
            Refusal::QuestionOutOfRange => "a figure of the question is out of range",
            Refusal::NoLocomotive => "the train has no locomotive",
            Refusal::LineTooShort => "the line ends before the braking distance, or has no section",
            Refusal::WeakBrake => "the brake force is under 1 kgf/t",
            Refusal::WeakStep => "in some step the train is held back by less than 1 kgf/t",
            Refusal::StopsTooFar => "the train does not stop within the braking distance",
            Refusal::HaulsNothing => "the locomotives do not haul 50 t",
            Refusal::UnlawfulLaw =>
                "a figure of a law, a layer or a pull table is out of range or order",
            Refusal::MalformedLine => "the line is not of its form",
            Refusal::WrongCount =>
                "a count is out of its limits, a line is missing or left over, or the file is too long",
            Refusal::ShortBuffer => "the buffer has fewer than 64 bytes",
        }
    }
}

// The number, and the reason in words.
impl fmt::Display for Refusal {
    ghost output = { λ x. Some (refusal_text x) };

    #[tactic(auto, unfolding(crate::specs::Reasons::refusal_text))]
    fn fmt<W: fmt::Write>(&self, f: &mut fmt::Formatter<W>) -> fmt::Result {
        write!(f, "refused {}: {}", self.number(), self.reason())
    }
}

impl Error for Refusal {}
