use laws::{CastIron, KindLetter, Law, QuadraticDrag, Reading, Running, WagonDrag, constants_of};
use report::ReadingAt;
use std::io;
use units::Speed;

/// Cast iron friction, below and above.
pub fn friction(rt: &HostRuntime) -> io::Result<()> {
    println!(rt; "laws, below and above")?;
    for tenths in [0, 500, 1600] {
        let reading = ReadingAt::of(&CastIron, Speed::capped(tenths));
        println!(rt; "cast iron {reading}")?;
    }
    Ok(())
}

/// Wagon drag and the drag of the DF4, below and above.
pub fn drags(rt: &HostRuntime) -> io::Result<()> {
    for (speed, gross) in [(500, 600), (0, 50), (1600, 2000)] {
        if let Ok(at) = Running::from_tenths(speed, gross) {
            println!(rt; "wagon drag {}", ReadingAt::of(&WagonDrag, at))?;
        }
    }
    for speed in [0, 123, 500] {
        if let Ok(at) = Running::from_tenths(speed, 600) {
            let Reading { below, above } = QuadraticDrag::df4().read(at);
            println!(rt; "DF4 at {speed}: {below} {above}")?;
        }
    }
    Ok(())
}

/// The constants of the five kinds of brake.
pub fn kinds(rt: &HostRuntime) -> io::Result<()> {
    println!(rt; "kinds of brake, T and c")?;
    for kind in [
        KindLetter::F,
        KindLetter::P,
        KindLetter::E,
        KindLetter::H,
        KindLetter::J,
    ] {
        let (t, c) = constants_of(kind);
        println!(rt; "{kind}: {t} {c}")?;
    }
    Ok(())
}
