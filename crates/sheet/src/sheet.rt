ghost use Rattle.std.specs.Prelude.{◌≡◌, ◌≤◌, true, false, [], length, slice_get};
ghost use Rattle.rules.specs.Book.{Book, book, new_book, coupled, uncoupled, cut_out, restored, appended, lifted, with_distance, OnlyBrakeOf};
ghost use Rattle.rules.specs.Questions.{coupling, vehicle_there, appending, setting_distance};
ghost use Rattle.rules.specs.Refusals.{told, first_no, unless};

use line::{Line, Section};
use rules::{Refusal, SectionFigures, VehicleFigures};
use std::marker::Model;
use train::{Consist, Vehicle};

/// The sheet: a train, a line and the braking distance in metres, within which the train must stop.
#[derive(Drop)]
pub struct Sheet {
    consist: Consist,
    line: Line,
    distance: u32,
}

// The braking distance of a new sheet, in metres.
const NEW_DISTANCE: u32 = 1000;

impl Model for Sheet {
    ghost Value = { Book };

    ghost view = { λ s. book s.consist s.line s.distance };

    ghost invariant = { λ s. (400 ≤ s.distance) × (s.distance ≤ 4000) };
}

/// Refuses a braking distance in metres that no sheet may have.
pub fn check_distance(metres: u32) -> Result<(), Refusal>
    ensures { told result ≡ first_no (setting_distance metres) }
{
    if !(400..=4000).contains(&metres) {
        return Err(Refusal::UnlawfulBrakingDistance);
    }
    Ok(())
}

impl Sheet {
    /// A new sheet: no vehicle, no section, and a braking distance of 1,000 m.
    pub fn new() -> Sheet
        ensures { result ≡ new_book }
    {
        Sheet {
            consist: Consist::new(),
            line: Line::new(),
            distance: NEW_DISTANCE,
        }
    }

    /// Empties the sheet, so that it is as a new one.
    pub fn clear(&mut self)
        ensures { self.new ≡ new_book }
    {
        self.uncouple_all();
        self.lift();
        self.distance = NEW_DISTANCE;
    }

    /// Couples a vehicle at the rear, its brake in.
    pub fn couple(&mut self, figures: VehicleFigures) -> Result<(), Refusal>
        ensures answer { told result ≡ first_no (coupling self.old.vehicles figures) }
        ensures held { self.new ≡ unless (told result) (coupled self.old figures) self.old }
    {
        self.consist.couple(figures)
    }

    /// Uncouples the rear vehicle.
    pub fn uncouple(&mut self) -> Result<(), Refusal>
        ensures answer { told result ≡ first_no (vehicle_there self.old.vehicles 0) }
        ensures held { self.new ≡ unless (told result) (uncoupled self.old) self.old }
    {
        self.consist.uncouple()
    }

    /// Uncouples all vehicles.
    pub fn uncouple_all(&mut self)
        ensures { self.new ≡ book [] self.old.sections self.old.distance }
    {
        self.consist.clear();
    }

    // Cutting out and restoring are two calls, as the inspector knows them, and either is a line over one of the consist.
    /// Cuts out the brake of vehicle k, whatever it was before, and of no other vehicle.
    pub fn cut_out(&mut self, k: usize) -> Result<(), Refusal>
        ensures answer { told result ≡ first_no (vehicle_there self.old.vehicles k) }
        ensures held { self.new ≡ unless (told result) (cut_out self.old k) self.old }
        ensures framed { OnlyBrakeOf k false self.old.vehicles self.new.vehicles }
    {
        self.consist.set_brake(k, false)
    }

    /// Restores the brake of vehicle k, whatever it was before, and of no other vehicle.
    pub fn restore(&mut self, k: usize) -> Result<(), Refusal>
        ensures answer { told result ≡ first_no (vehicle_there self.old.vehicles k) }
        ensures held { self.new ≡ unless (told result) (restored self.old k) self.old }
        ensures framed { OnlyBrakeOf k true self.old.vehicles self.new.vehicles }
    {
        self.consist.set_brake(k, true)
    }

    /// Appends a section at the end of the line.
    pub fn append(&mut self, figures: SectionFigures) -> Result<(), Refusal>
        ensures answer { told result ≡ first_no (appending self.old.sections figures) }
        ensures held { self.new ≡ unless (told result) (appended self.old figures) self.old }
    {
        self.line.append(figures)
    }

    /// Lifts all sections; never refused.
    pub fn lift(&mut self)
        ensures { self.new ≡ lifted self.old }
    {
        self.line.lift();
    }

    /// Sets the braking distance in metres.
    pub fn set_distance(&mut self, metres: u32) -> Result<(), Refusal>
        ensures answer { told result ≡ first_no (setting_distance metres) }
        ensures held { self.new ≡ unless (told result) (with_distance self.old metres) self.old }
    {
        check_distance(metres)?;
        self.distance = metres;
        Ok(())
    }

    /// How many vehicles the train has.
    pub fn vehicle_count(&self) -> usize
        ensures count { result ≡ length self.now.vehicles }
        ensures few { result ≤ 120 }
    {
        self.consist.len()
    }

    /// Vehicle k, counted from 0 at the front.
    pub fn vehicle(&self, k: usize) -> Option<Vehicle>
        ensures { result ≡ slice_get self.now.vehicles k }
    {
        self.consist.vehicle(k)
    }

    /// How many sections the line has.
    pub fn section_count(&self) -> usize
        ensures count { result ≡ length self.now.sections }
        ensures few { result ≤ 200 }
    {
        self.line.len()
    }

    /// Section k, counted from 0 at the start of the line.
    pub fn section(&self, k: usize) -> Option<Section>
        ensures { result ≡ slice_get self.now.sections k }
    {
        self.line.section(k)
    }

    /// The braking distance in metres.
    pub fn distance(&self) -> u32
        ensures distance { result ≡ self.now.distance }
        ensures near { 400 ≤ result }
        ensures far { result ≤ 4000 }
    {
        self.distance
    }

    /// The train.
    pub fn consist(&self) -> &Consist
        ensures { result.now ≡ self.now.vehicles }
    {
        &self.consist
    }

    /// The line.
    pub fn line(&self) -> &Line
        ensures { result.now ≡ self.now.sections }
    {
        &self.line
    }
}
