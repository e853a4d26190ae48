use laws::Freight;
use report::{Outcome, stop_of_df4};
use rules::{StopQuestion, VehicleFigures};
use sheet::Sheet;
use std::io;

/// Vehicles inside and outside their ranges.
pub fn vehicles(rt: &HostRuntime) -> io::Result<()> {
    println!(rt; "vehicles")?;
    let mut sheet = Sheet::new();
    for (letter, mass, pressure) in [
        ('X', 1000, 400),
        ('l', 1000, 400),
        ('L', 49, 0),
        ('W', 2001, 0),
        ('W', 600, 601),
        ('L', 50, 0),
        ('W', 2000, 2000),
        ('L', 4_294_967_295, 0),
    ] {
        let figures = VehicleFigures::new(letter, mass, pressure);
        let outcome = Outcome::of(sheet.couple(figures));
        println!(rt; "couple {figures}: {outcome}")?;
    }
    Ok(())
}

/// A train of no vehicle, and one of 120 wagons.
pub fn long_train(rt: &HostRuntime) -> io::Result<()> {
    let mut sheet = Sheet::new();
    let uncoupled = Outcome::of(sheet.uncouple());
    println!(rt; "uncouple from no train: {uncoupled}")?;
    let cut_out = Outcome::of(sheet.cut_out(0));
    println!(rt; "cut out vehicle 0 of none: {cut_out}")?;
    let wagon = VehicleFigures::new('W', 600, 200);
    for _ in 0..119 {
        let _ = sheet.couple(wagon);
    }
    for k in 119..=120 {
        let outcome = Outcome::of(sheet.couple(wagon));
        println!(rt; "couple vehicle {k}: {outcome}")?;
    }
    for k in 119..=120 {
        let outcome = Outcome::of(sheet.restore(k));
        println!(rt; "restore vehicle {k}: {outcome}")?;
    }
    let uncoupled = Outcome::of(sheet.uncouple());
    println!(rt; "uncouple vehicle 119: {uncoupled}")?;
    let stop = stop_of_df4::<Freight>(&sheet, StopQuestion::full_braking(0, 100));
    println!(rt; "stop without a locomotive: {stop}")
}
