use haulage::mass;
use history::Reply;
use laws::{Freight, NoPull, diesel};
use layers::Scale;
use printing::print_reply;
use report::{Outcome, example_pull, example_sheet, stop_of_df4};
use rules::{MassQuestion, SectionFigures, StopQuestion, VehicleFigures};
use runfile::RunFile;
use sheet::Sheet;
use std::io;

/// Each refusal once, in the order of their numbers.
pub fn every_refusal(rt: &HostRuntime) -> io::Result<()> {
    println!(rt; "every refusal")?;
    vehicles(rt)?;
    sections(rt)?;
    stops(rt)?;
    let heavy = mass(
        &example_sheet(0),
        &diesel(example_pull()),
        MassQuestion {
            speed: 401,
            gross: 600,
        },
    );
    let heavy = Outcome::of(heavy);
    println!(rt; "a mass past the last point of the table: {heavy}")?;
    let layer = Outcome::of(Scale::new(NoPull, 101));
    println!(rt; "a layer of 101 hundredths: {layer}")?;
    files(rt)?;
    let mut buffer = [0; 63];
    let printed = Outcome::of(print_reply(&mut buffer, 1, Reply::Passed));
    println!(rt; "a line into 63 bytes: {printed}")
}

// What a train refuses: 1 to 3.
fn vehicles(rt: &HostRuntime) -> io::Result<()> {
    let mut sheet = Sheet::new();
    let wagon = VehicleFigures::new('W', 600, 200);
    let lettered = Outcome::of(sheet.couple(VehicleFigures::new('X', 600, 200)));
    println!(rt; "a vehicle with the letter X: {lettered}")?;
    for _ in 0..120 {
        let _ = sheet.couple(wagon);
    }
    let coupled = Outcome::of(sheet.couple(wagon));
    println!(rt; "a vehicle behind 120: {coupled}")?;
    let cut_out = Outcome::of(sheet.cut_out(120));
    println!(rt; "the brake of vehicle 120: {cut_out}")
}

// What a line and a braking distance refuse: 4 to 6.
fn sections(rt: &HostRuntime) -> io::Result<()> {
    let mut sheet = Sheet::new();
    let section = SectionFigures::straight(100, 0);
    let short = Outcome::of(sheet.append(SectionFigures::straight(0, 0)));
    println!(rt; "a section of 0 m: {short}")?;
    for _ in 0..200 {
        let _ = sheet.append(section);
    }
    let appended = Outcome::of(sheet.append(section));
    println!(rt; "a section behind 200: {appended}")?;
    let set = Outcome::of(sheet.set_distance(399));
    println!(rt; "a braking distance of 399 m: {set}")
}

// What refuses a stop: 7 to 12.
fn stops(rt: &HostRuntime) -> io::Result<()> {
    let level = example_sheet(0);
    let mut steep = example_sheet(-400);
    let slow = StopQuestion::full_braking(0, 100);
    let over = StopQuestion::full_braking(0, 1601);
    let behind = StopQuestion::full_braking(2001, 100);
    let fast = StopQuestion::full_braking(0, 1600);
    let stop = stop_of_df4::<Freight>(&level, over);
    println!(rt; "a stop from 1601: {stop}")?;
    let stop = stop_of_df4::<Freight>(&Sheet::new(), slow);
    println!(rt; "a stop without a train: {stop}")?;
    let stop = stop_of_df4::<Freight>(&level, behind);
    println!(rt; "a stop a metre too near to the end: {stop}")?;
    let _ = steep.cut_out(0);
    let weak = stop_of_df4::<Freight>(&steep, slow);
    let _ = steep.cut_out(1);
    let stop = stop_of_df4::<Freight>(&steep, slow);
    println!(rt; "a stop without a brake: {stop}")?;
    println!(rt; "a stop with one brake on a steep fall: {weak}")?;
    let stop = stop_of_df4::<Freight>(&level, fast);
    println!(rt; "a stop from 1600: {stop}")
}

// What refuses a run file by its form: 15 and 16.
fn files(rt: &HostRuntime) -> io::Result<()> {
    let mut sheet = Sheet::new();
    let mut file = RunFile::new();
    for (label, text) in [
        ("a run file in small letters", b"run 1\n"),
        ("a run file of two runs", b"RUN 2\n"),
    ] {
        if let Err(fault) = file.read(&mut sheet, text) {
            println!(rt; "{label}: {fault}")?;
        }
    }
    Ok(())
}
