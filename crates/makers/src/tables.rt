use pull_table::{PullTable, first_break};
use report::Outcome;
use rules::PointFigures;
use std::io;

/// Points that make a table and points that do not, each with the first that breaks it.
pub fn breaks(rt: &HostRuntime) -> io::Result<()> {
    println!(rt; "tables")?;
    tell(rt, "no point", &[])?;
    tell(rt, "from speed 1", &[PointFigures::new(1, 500)])?;
    tell(rt, "from 1,000,001 kgf", &[PointFigures::new(0, 1_000_001)])?;
    tell(rt, "from 1,000,000 kgf", &[PointFigures::new(0, 1_000_000)])?;
    let first = PointFigures::new(0, 500);
    tell(
        rt,
        "equal speeds",
        &[first, PointFigures::new(7, 500), PointFigures::new(7, 400)],
    )?;
    tell(
        rt,
        "falling speeds",
        &[first, PointFigures::new(7, 500), PointFigures::new(6, 400)],
    )?;
    tell(
        rt,
        "rising values",
        &[first, PointFigures::new(7, 501), PointFigures::new(8, 502)],
    )?;
    tell(
        rt,
        "equal values",
        &[first, PointFigures::new(7, 500), PointFigures::new(8, 500)],
    )?;
    tell(rt, "to speed 1600", &[first, PointFigures::new(1600, 0)])?;
    tell(rt, "to speed 1601", &[first, PointFigures::new(1601, 0)])
}

/// Tables of 16 and of 17 points.
pub fn long_tables(rt: &HostRuntime) -> io::Result<()> {
    let mut points = Vec::new(rt.alloc());
    for k in 0..16 {
        points.push(PointFigures::new(100 * k, 1600 - 100 * k))?;
    }
    tell(rt, "16 points", points.as_slice())?;
    points.push(PointFigures::new(1600, 0))?;
    tell(rt, "17 points", points.as_slice())
}

// The first break, and what the maker answers.
fn tell(rt: &HostRuntime, label: &str, points: &[PointFigures]) -> io::Result<()> {
    let outcome = Outcome::of(PullTable::new(points));
    match first_break(points) {
        Some(k) => println!(rt; "{label}: breaks at {k}, {outcome}"),
        None => println!(rt; "{label}: no break, {outcome}"),
    }
}
