use crate::telling::tell_readings;
use laws::{CastIron, Composite};
use layers::{Blend, Lesser, Scale};
use std::io;
use units::Speed;

/// Both kinds of blocks.
pub fn blocks(rt: &HostRuntime) -> io::Result<()> {
    println!(rt; "frictions, below and above")?;
    tell_readings(
        rt,
        "cast iron",
        &CastIron,
        &[0, 1, 500, 1600].map(|tenths| Speed::from_tenths(tenths)),
    )?;
    tell_readings(
        rt,
        "composite",
        &Composite,
        &[0, 100, 777, 1600].map(|tenths| Speed::from_tenths(tenths)),
    )
}

/// Shares, blends and the lesser of both, one upon another.
pub fn layers(rt: &HostRuntime) -> io::Result<()> {
    if let Ok(third) = Scale::new(CastIron, 33) {
        tell_readings(
            rt,
            "33 hundredths of cast iron",
            &third,
            &[0, 500, 777].map(|tenths| Speed::from_tenths(tenths)),
        )?;
    }
    if let Ok(half) = Blend::new(CastIron, Composite, 1, 1) {
        tell_readings(
            rt,
            "cast iron and composite 1 to 1",
            &half,
            &[100, 777].map(|tenths| Speed::from_tenths(tenths)),
        )?;
    }
    if let Ok(mixed) = Blend::new(CastIron, Composite, 3, 7) {
        let least = Lesser::new(mixed, CastIron);
        tell_readings(
            rt,
            "the lesser of 3 to 7 and cast iron",
            &least,
            &[0, 1, 777].map(|tenths| Speed::from_tenths(tenths)),
        )?;
        if let Ok(share) = Scale::new(least, 90) {
            tell_readings(
                rt,
                "90 hundredths of that",
                &share,
                &[0, 1, 777].map(|tenths| Speed::from_tenths(tenths)),
            )?;
        }
    }
    Ok(())
}
