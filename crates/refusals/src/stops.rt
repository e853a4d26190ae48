use laws::Freight;
use report::{example_sheet, stop_of_df4};
use rules::StopQuestion;
use std::io;

/// Stop questions out of their ranges, and beyond the line.
pub fn out_of_range(rt: &HostRuntime) -> io::Result<()> {
    println!(rt; "stops")?;
    let sheet = example_sheet(0);
    for (place, speed, factor) in [
        (4_000_001, 100, 10),
        (0, 1601, 10),
        (0, 100, 0),
        (0, 100, 11),
        (2000, 100, 10),
        (2001, 100, 10),
    ] {
        let question = StopQuestion {
            place,
            speed,
            factor,
        };
        let stop = stop_of_df4::<Freight>(&sheet, question);
        println!(rt; "stop {place} {speed} {factor}: {stop}")?;
    }
    Ok(())
}

/// The example train with its brakes cut out on a steep fall, and too fast.
pub fn weak_brakes(rt: &HostRuntime) -> io::Result<()> {
    let slow = StopQuestion::full_braking(0, 100);
    let fast = StopQuestion::full_braking(0, 1600);
    let mut steep = example_sheet(-400);
    let _ = steep.cut_out(0);
    let stop = stop_of_df4::<Freight>(&steep, slow);
    println!(rt; "gradient -400, locomotive cut out: {stop}")?;
    let _ = steep.cut_out(1);
    let stop = stop_of_df4::<Freight>(&steep, slow);
    println!(rt; "gradient -400, both cut out: {stop}")?;
    let level = example_sheet(0);
    let stop = stop_of_df4::<Freight>(&level, fast);
    println!(rt; "speed 1600: {stop}")
}
