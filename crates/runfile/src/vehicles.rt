ghost use Rattle.std.specs.Prelude.{◌≡◌, true, []};
ghost use Rattle.rules.specs.Book.{Vehicle as BookVehicle, vehicle, book};
ghost use Rattle.rules.specs.Questions.{lawful_letter};
ghost use Rattle.runfile.specs.Sorts.{vehicle_sort};
ghost use Rattle.text.specs.Numerals.{FieldRead};

use rules::{Fault, Refusal, VehicleFigures};
use sheet::Sheet;
use std::marker::Model;
use text::{Entry, Malformed, Store, leading_number, switch};

/// A line under the heading VEH: the figures of a vehicle, and whether its brake is in.
#[derive(Drop)]
pub struct VehicleLine {
    figures: VehicleFigures,
    braked: bool,
}

impl Model for VehicleLine {
    ghost Value = { BookVehicle };

    ghost view = { λ v. vehicle v.figures v.braked };
}

// The letter of a vehicle, L or W.
fn vehicle_letter(byte: u8) -> Result<char, Malformed>
    ensures { FieldRead (λ letter. (letter ≡ byte) × (lawful_letter byte ≡ true)) result }
{
    match char::from(byte) {
        'L' => Ok('L'),
        'W' => Ok('W'),
        _ => Err(Malformed),
    }
}

impl Entry for VehicleLine {
    ghost sort = { vehicle_sort };

    fn after_name(line: &[u8]) -> Option<&[u8]> {
        let [b'V', b'E', b'H', b' ', count @ ..] = line else {
            return None;
        };
        Some(count)
    }

    fn limits() -> (u32, u32) {
        (0, 120)
    }

    fn read(line: u32, text: &[u8]) -> Result<VehicleLine, Fault> {
        let [letter, b' ', rest @ ..] = text else {
            return Err(Malformed::on(line));
        };
        let Ok(letter) = vehicle_letter(*letter) else {
            return Err(Malformed::on(line));
        };
        let Ok((mass, rest)) = leading_number(line, rest) else {
            return Err(Malformed::on(line));
        };
        let Ok((pressure, rest)) = leading_number(line, rest) else {
            return Err(Malformed::on(line));
        };
        let Ok(braked) = switch(rest) else {
            return Err(Malformed::on(line));
        };
        let figures = VehicleFigures {
            letter,
            mass,
            pressure,
        };
        Ok(VehicleLine { figures, braked })
    }
}

impl Store<VehicleLine> for Sheet {
    ghost held = { λ b. b.vehicles };

    ghost emptied = { λ b. book [] b.sections b.distance };

    fn clear(&mut self) {
        self.uncouple_all();
    }

    #[tactic(auto, using(crate::proofs::Brakes::rear_brake))]
    fn store(&mut self, line: VehicleLine) -> Result<(), Refusal> {
        let k = self.vehicle_count();
        self.couple(line.figures)?;
        if !line.braked {
            let Ok(()) = self.cut_out(k) else {
                unreachable!()
            };
        }
        Ok(())
    }
}
