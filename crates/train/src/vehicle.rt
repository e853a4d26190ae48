ghost use Rattle.std.specs.Prelude.{◌≡◌};
ghost use Rattle.rules.specs.Book.{vehicle, is_locomotive};

use rules::{Refusal, VehicleFigures};
use std::default::MadeWith;
use std::marker::Model;

/// What a vehicle of a train is.
#[derive(Clone, Copy, PartialEq, Eq, Debug)]
pub enum VehicleKind {
    Locomotive,
    Wagon,
}

impl TryFrom<char> for VehicleKind {
    type Error = Refusal;

    ghost use Rattle.train.specs.VehicleKind.{ReadsLetter};

    ghost try_from_gives = { ReadsLetter };

    fn try_from(letter: char) -> Result<VehicleKind, Refusal> {
        match letter {
            'L' => Ok(VehicleKind::Locomotive),
            'W' => Ok(VehicleKind::Wagon),
            _ => Err(Refusal::UnlawfulVehicle),
        }
    }
}

impl From<VehicleKind> for char {
    ghost use Rattle.train.specs.VehicleKind.{letter_of};

    ghost from_gives = { λ kind letter. letter ≡ letter_of kind };

    fn from(kind: VehicleKind) -> char {
        match kind {
            VehicleKind::Locomotive => 'L',
            VehicleKind::Wagon => 'W',
        }
    }
}

/// One vehicle of a train, with lawful figures and its brake in or out; mass and pressure in tenths of a tonne.
#[derive(Clone, Copy)]
pub struct Vehicle {
    kind: VehicleKind,
    mass: u32,
    pressure: u32,
    braked: bool,
}

impl Model for Vehicle {
    ghost use Rattle.rules.specs.Book.{Vehicle as BookVehicle};

    ghost Value = { BookVehicle };

    ghost use Rattle.train.specs.Vehicle.{vehicle_of, fields_of, IsLawful};

    ghost view = { vehicle_of };

    ghost invariant = { λ v. IsLawful (vehicle_of v).figures };

    ghost inverse = { fields_of };
}

// Makes the vehicle that fills a place of a consist where no vehicle stands.
#[derive(Clone, Copy)]
pub(crate) struct Blank;

impl MadeWith<Blank> for Vehicle {
    fn made_with(_blank: Blank) -> Vehicle {
        Vehicle {
            kind: VehicleKind::Wagon,
            mass: 50,
            pressure: 0,
            braked: false,
        }
    }
}

impl TryFrom<VehicleFigures> for Vehicle {
    type Error = Refusal;

    ghost use Rattle.train.specs.Vehicle.{IsNewlyMade};

    ghost try_from_gives = { IsNewlyMade };

    // The vehicle of these figures with its brake in.
    fn try_from(figures: VehicleFigures) -> Result<Vehicle, Refusal> {
        let kind = VehicleKind::try_from(figures.letter)?;
        if !(50..=2000).contains(&figures.mass) || figures.pressure > figures.mass {
            return Err(Refusal::UnlawfulVehicle);
        }
        Ok(Vehicle {
            kind,
            mass: figures.mass,
            pressure: figures.pressure,
            braked: true,
        })
    }
}

impl Vehicle {
    ghost use Rattle.train.specs.Vehicle.{IsLawful};

    // A method and not `From`: it tells of a vehicle that stays the train's.
    /// The figures as they were given.
    pub fn figures(&self) -> VehicleFigures
        ensures figures { result ≡ self.now.figures }
        ensures lawful { IsLawful result }
    {
        VehicleFigures {
            letter: char::from(self.kind),
            mass: self.mass,
            pressure: self.pressure,
        }
    }

    /// Whether the brake is in.
    pub fn braked(&self) -> bool
        ensures { result ≡ self.now.braked }
    {
        self.braked
    }

    /// Whether the vehicle is a locomotive; else it is a wagon.
    pub fn is_locomotive(&self) -> bool
        ensures { result ≡ is_locomotive self.now }
    {
        self.kind == VehicleKind::Locomotive
    }

    // Puts the brake in or cuts it out, whatever it was before.
    pub(crate) fn set_brake(&mut self, on: bool)
        ensures { self.new ≡ vehicle self.old.figures on }
    {
        self.braked = on;
    }
}
