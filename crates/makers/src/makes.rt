use laws::{AdhesionPull, CastIron, Composite, QuadraticDrag, WagonDrag};
use layers::{Blend, Scale};
use report::{Outcome, drags_at_limits};
use std::io;

/// Adhesive masses and the constants of a quadratic drag.
pub fn laws(rt: &HostRuntime) -> io::Result<()> {
    println!(rt; "laws and layers")?;
    for mass in [0, 1, 20_000, 20_001, 4_294_967_295] {
        let outcome = Outcome::of(AdhesionPull::new(mass));
        println!(rt; "adhesion {mass}: {outcome}")?;
    }
    for drag in drags_at_limits() {
        println!(rt; "{drag}")?;
    }
    Ok(())
}

/// Shares and blends.
pub fn layers(rt: &HostRuntime) -> io::Result<()> {
    for percent in [0, 1, 100, 101] {
        let outcome = Outcome::of(Scale::new(CastIron, percent));
        println!(rt; "scale {percent}: {outcome}")?;
    }
    for (a, b) in [(0, 1), (1, 0), (1, 1), (100, 100), (101, 1), (1, 101)] {
        let frictions = Outcome::of(Blend::new(CastIron, Composite, a, b));
        let drags = Outcome::of(Blend::new(WagonDrag, QuadraticDrag::df4(), a, b));
        println!(rt; "blend {a} to {b}: {frictions}, {drags}")?;
    }
    Ok(())
}
