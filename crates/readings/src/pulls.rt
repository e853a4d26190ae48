use crate::telling::tell_readings;
use laws::{AdhesionPull, NoPull};
use layers::{Blend, Lesser, Scale};
use pull_table::PullTable;
use report::{example_pull, example_table};
use rules::PointFigures;
use std::io;
use units::Speed;

/// Adhesion from the least to the greatest adhesive mass.
pub fn adhesion(rt: &HostRuntime) -> io::Result<()> {
    println!(rt; "pulls, below and above")?;
    for mass in [1, 1000, 20_000] {
        if let Ok(adhesion) = AdhesionPull::new(mass) {
            println!(rt; "adhesive mass {mass}")?;
            tell_readings(
                rt,
                "adhesion",
                &adhesion,
                &[0, 200, 1333].map(|tenths| Speed::from_tenths(tenths)),
            )?;
        }
    }
    Ok(())
}

/// A vehicle without traction.
pub fn none(rt: &HostRuntime) -> io::Result<()> {
    tell_readings(
        rt,
        "no pull",
        &NoPull,
        &[0, 1600].map(|tenths| Speed::from_tenths(tenths)),
    )
}

/// Tables at, between and beyond their points.
pub fn tables(rt: &HostRuntime) -> io::Result<()> {
    tell_readings(
        rt,
        "table of the example",
        &example_table(),
        &[0, 1, 200, 399, 400, 401].map(|tenths| Speed::from_tenths(tenths)),
    )?;
    let points = [
        PointFigures::new(0, 40_001),
        PointFigures::new(300, 23_456),
        PointFigures::new(1000, 7),
    ];
    if let Ok(bent) = PullTable::new(&points) {
        tell_readings(
            rt,
            "table of three points",
            &bent,
            &[0, 1, 299, 300, 301, 997, 1000, 1001].map(|tenths| Speed::from_tenths(tenths)),
        )?;
    }
    if let Ok(single) = PullTable::new(&[PointFigures::new(0, 500)]) {
        tell_readings(
            rt,
            "table of one point",
            &single,
            &[0, 1].map(|tenths| Speed::from_tenths(tenths)),
        )?;
    }
    Ok(())
}

/// Shares, blends and the lesser of pulls, one upon another.
pub fn layers(rt: &HostRuntime) -> io::Result<()> {
    tell_readings(
        rt,
        "90 hundredths of the table",
        &example_pull(),
        &[0, 1, 200, 400].map(|tenths| Speed::from_tenths(tenths)),
    )?;
    if let Ok(adhesion) = AdhesionPull::new(1000) {
        let least = Lesser::new(example_pull(), adhesion);
        tell_readings(
            rt,
            "the lesser of that and adhesion",
            &least,
            &[0, 50, 200, 300].map(|tenths| Speed::from_tenths(tenths)),
        )?;
        if let Ok(mixed) = Blend::new(least, adhesion, 100, 1) {
            tell_readings(
                rt,
                "that and adhesion 100 to 1",
                &mixed,
                &[0, 201, 300].map(|tenths| Speed::from_tenths(tenths)),
            )?;
        }
    }
    Ok(())
}
