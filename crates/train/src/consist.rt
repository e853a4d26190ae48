ghost use Rattle.std.specs.Prelude.{◌≡◌, ◌≤◌, [], length, slice_get};
ghost use Rattle.rules.specs.Book.{with_rear, without_rear, with_brake, OnlyBrakeOf, locomotives, wagons, hauling_mass, trailing_mass, brake_pressure};
ghost use Rattle.rules.specs.Questions.{coupling, vehicle_there};
ghost use Rattle.rules.specs.Refusals.{told, first_no, unless};

use crate::totals::Totals;
use crate::vehicle::{Blank, Vehicle};
use arrayvec::ArrayVec;
use rules::{Refusal, VehicleFigures};
use std::marker::Model;

// How many vehicles a train may have.
const MOST_VEHICLES: usize = 120;

/// The vehicles of a train from the front, at most 120. They lie in the consist itself, so that it wants no memory.
#[derive(Drop)]
pub struct Consist {
    vehicles: ArrayVec<Vehicle, MOST_VEHICLES, Blank>,
}

impl Model for Consist {
    ghost use Rattle.std.specs.Prelude.{List};
    ghost use Rattle.rules.specs.Book.{Vehicle as BookVehicle};

    ghost Value = { List BookVehicle };

    ghost view = { λ c. c.vehicles.items };
}

impl Consist {
    /// A consist without vehicles.
    pub fn new() -> Consist
        ensures { result ≡ [] }
    {
        Consist {
            vehicles: ArrayVec::new_in(Blank),
        }
    }

    /// How many vehicles there are.
    pub fn len(&self) -> usize
        ensures count { result ≡ length self.now }
        ensures few { result ≤ 120 }
    {
        self.vehicles.len()
    }

    /// Vehicle k, counted from 0 at the front.
    pub fn vehicle(&self, k: usize) -> Option<Vehicle>
        ensures { result ≡ slice_get self.now k }
    {
        self.vehicles.get(k).copied()
    }

    /// The vehicles from the front.
    pub fn vehicles(&self) -> &[Vehicle]
        ensures vehicles { result.now ≡ self.now }
        ensures few { length self.now ≤ 120 }
    {
        &self.vehicles
    }

    /// Couples a vehicle at the rear, its brake in.
    pub fn couple(&mut self, figures: VehicleFigures) -> Result<(), Refusal>
        ensures answer { told result ≡ first_no (coupling self.old figures) }
        ensures held { self.new ≡ unless (told result) (with_rear self.old figures) self.old }
    {
        let vehicle = Vehicle::try_from(figures)?;
        self.vehicles
            .try_push(vehicle)
            .map_err(|_| Refusal::TrainFull)
    }

    /// Uncouples the rear vehicle.
    pub fn uncouple(&mut self) -> Result<(), Refusal>
        ensures answer { told result ≡ first_no (vehicle_there self.old 0) }
        ensures held { self.new ≡ unless (told result) (without_rear self.old) self.old }
    {
        self.vehicles.pop().ok_or(Refusal::NoSuchVehicle)?;
        Ok(())
    }

    /// Uncouples all vehicles.
    pub fn clear(&mut self)
        ensures { self.new ≡ [] }
    {
        self.vehicles.clear();
    }

    /// Puts the brake of vehicle k in or cuts it out, whatever it was before, and of no other vehicle.
    #[tactic(auto, using(crate::proofs::Trains::set_brake_at))]
    pub fn set_brake(&mut self, k: usize, on: bool) -> Result<(), Refusal>
        ensures answer { told result ≡ first_no (vehicle_there self.old k) }
        ensures held { self.new ≡ unless (told result) (with_brake on self.old k) self.old }
        ensures framed { OnlyBrakeOf k on self.old self.new }
    {
        let Some(vehicle) = self.vehicles.get_mut(k) else {
            return Err(Refusal::NoSuchVehicle);
        };
        vehicle.set_brake(on);
        Ok(())
    }

    /// The sums over the train.
    pub fn totals(&self) -> Totals
        ensures locomotives { result.locomotives ≡ locomotives self.now }
        ensures wagons { result.wagons ≡ wagons self.now }
        ensures hauling { result.hauling ≡ hauling_mass self.now }
        ensures trailing { result.trailing ≡ trailing_mass self.now }
        ensures pressure { result.pressure ≡ brake_pressure self.now }
    {
        let mut totals = Totals::none();
        for vehicle in self.vehicles.iter() {
            totals = totals.with(vehicle);
        }
        totals
    }
}
