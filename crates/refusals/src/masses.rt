use haulage::mass;
use laws::diesel;
use report::{example_sheet, example_table};
use rules::{MassQuestion, SectionFigures, VehicleFigures};
use sheet::Sheet;
use std::io;

/// Mass questions out of their ranges, without a line or a locomotive, and where nothing is hauled.
pub fn masses(rt: &HostRuntime) -> io::Result<()> {
    println!(rt; "masses")?;
    let mut sheet = example_sheet(80);
    for (speed, gross) in [
        (1601, 600),
        (200, 49),
        (200, 2001),
        (401, 600),
        (200, 50),
        (400, 2000),
        (0, 600),
    ] {
        tell_mass(rt, &sheet, speed, gross)?;
    }
    sheet.lift();
    tell_mass(rt, &sheet, 200, 600)?;
    let _ = sheet.append(SectionFigures {
        metres: 3000,
        gradient: 80,
        curve: 0,
        radius: 0,
        stop: 1,
    });
    tell_mass(rt, &sheet, 200, 600)?;
    let mut wagons = Sheet::new();
    let _ = wagons.couple(VehicleFigures::new('W', 600, 200));
    let _ = wagons.append(SectionFigures::straight(1000, 0));
    tell_mass(rt, &wagons, 200, 600)
}

fn tell_mass(rt: &HostRuntime, sheet: &Sheet, speed: u32, gross: u32) -> io::Result<()> {
    match mass(
        sheet,
        &diesel(example_table()),
        MassQuestion { speed, gross },
    ) {
        Ok(load) => println!(rt; "mass {speed} {gross}: up to {load}"),
        Err(refusal) => println!(rt; "mass {speed} {gross}: {refusal}"),
    }
}
