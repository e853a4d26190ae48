ghost use Rattle.std.specs.Prelude.{◌≡◌, ◌+◌, ◌*◌, ◌<◌, ◌≤◌};

use crate::vehicle::Vehicle;

/// The sums over a train of at most 120 vehicles: how many locomotives and wagons it has, their masses, and the pressure
/// of the brakes that are in; masses and pressure in tenths of a tonne.
#[derive(Clone, Copy)]
pub struct Totals {
    pub locomotives: u32,
    pub wagons: u32,
    /// The mass of the locomotives.
    pub hauling: u32,
    /// The mass of the wagons.
    pub trailing: u32,
    /// The pressure of the brakes that are in.
    pub pressure: u32,
    ghost few: { locomotives + wagons ≤ 120 },
    ghost hauls: { 50 * locomotives ≤ hauling },
    ghost hauled: { hauling ≤ 2000 * locomotives },
    ghost trails: { 50 * wagons ≤ trailing },
    ghost trailed: { trailing ≤ 2000 * wagons },
    ghost pressed: { pressure ≤ hauling + trailing },
}

impl Totals {
    ghost use Rattle.train.specs.Totals.{Adds, Empty};

    // The sums over no vehicle.
    pub(crate) fn none() -> Totals
        ensures { Empty result }
    {
        Totals {
            locomotives: 0,
            wagons: 0,
            hauling: 0,
            trailing: 0,
            pressure: 0,
        }
    }

    // The sums with one vehicle more.
    pub(crate) fn with(self, vehicle: &Vehicle) -> Totals
        requires { self.locomotives + self.wagons < 120 }
        ensures { Adds vehicle.now self result }
    {
        let figures = vehicle.figures();
        let pressure = if vehicle.braked() {
            self.pressure + figures.pressure
        } else {
            self.pressure
        };
        if vehicle.is_locomotive() {
            Totals {
                locomotives: self.locomotives + 1,
                hauling: self.hauling + figures.mass,
                wagons: self.wagons,
                trailing: self.trailing,
                pressure,
            }
        } else {
            Totals {
                wagons: self.wagons + 1,
                trailing: self.trailing + figures.mass,
                locomotives: self.locomotives,
                hauling: self.hauling,
                pressure,
            }
        }
    }
}
