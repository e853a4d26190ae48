use laws::{Freight, NoPull, diesel};
use reckoning::speed;
use report::example_sheet;
use rules::{SectionFigures, SpeedQuestion, VehicleFigures};
use sheet::Sheet;
use std::io;

/// Speed questions out of their ranges, beyond the line, and for weak brakes.
pub fn speeds(rt: &HostRuntime) -> io::Result<()> {
    println!(rt; "speeds")?;
    let mut sheet = example_sheet(0);
    for (place, factor) in [(4_000_001, 10), (0, 0), (0, 11), (2001, 10), (2000, 10)] {
        tell_speed(rt, &sheet, place, factor)?;
    }
    let _ = sheet.cut_out(0);
    let _ = sheet.cut_out(1);
    tell_speed(rt, &sheet, 0, 10)?;
    let mut wagons = Sheet::new();
    let _ = wagons.couple(VehicleFigures::new('W', 600, 200));
    let _ = wagons.append(SectionFigures::straight(1000, 0));
    tell_speed(rt, &wagons, 0, 10)
}

fn tell_speed(rt: &HostRuntime, sheet: &Sheet, place: u32, factor: u32) -> io::Result<()> {
    match speed::<Freight, _>(sheet, &diesel(NoPull), SpeedQuestion { place, factor }) {
        Ok(speed) => println!(rt; "speed {place} {factor}: up to {speed}"),
        Err(refusal) => println!(rt; "speed {place} {factor}: {refusal}"),
    }
}
