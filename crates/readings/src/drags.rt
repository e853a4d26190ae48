use crate::telling::tell_readings;
use laws::{QuadraticDrag, Running, WagonDrag};
use layers::{Blend, Scale};
use rules::Refusal;
use std::io;

/// Wagons and the DF4.
pub fn given(rt: &HostRuntime) -> io::Result<()> {
    println!(rt; "drags at a speed and a mass per wagon, below and above")?;
    let df4 = QuadraticDrag::df4();
    tell_readings(
        rt,
        "wagon drag",
        &WagonDrag,
        &[(500, 600), (0, 50), (1600, 2000)].map(running),
    )?;
    tell_readings(
        rt,
        "DF4",
        &df4,
        &[(0, 600), (123, 600), (500, 600)].map(running),
    )
}

/// Shares and blends of them, one upon another.
pub fn layers(rt: &HostRuntime) -> io::Result<()> {
    if let Ok(share) = Scale::new(WagonDrag, 87) {
        tell_readings(
            rt,
            "87 hundredths of wagon drag",
            &share,
            &[(500, 600), (0, 50)].map(running),
        )?;
        if let Ok(mixed) = Blend::new(share, QuadraticDrag::df4(), 2, 5) {
            tell_readings(
                rt,
                "that and DF4 2 to 5",
                &mixed,
                &[(500, 600), (123, 51)].map(running),
            )?;
        }
    }
    Ok(())
}

// A train at a speed and a gross mass per wagon, both in tenths.
fn running((speed, mass): (u32, u32)) -> Result<Running, Refusal> {
    Running::from_tenths(speed, mass)
}
