use report::Outcome;
use rules::SectionFigures;
use sheet::Sheet;
use std::io;

/// Sections inside and outside their ranges.
pub fn sections(rt: &HostRuntime) -> io::Result<()> {
    println!(rt; "sections")?;
    let mut sheet = Sheet::new();
    for (metres, gradient, curve, radius, stop) in [
        (0, 0, 0, 0, 0),
        (20001, 0, 0, 0, 0),
        (500, -401, 0, 0, 0),
        (500, 401, 0, 0, 0),
        (500, 0, 501, 300, 0),
        (500, 0, 250, 99, 0),
        (500, 0, 250, 20001, 0),
        (500, 0, 0, 300, 0),
        (500, 0, 250, 0, 0),
        (500, 0, 0, 0, 2),
        (1, -400, 1, 100, 1),
        (20000, 400, 20000, 20000, 0),
    ] {
        let figures = SectionFigures {
            metres,
            gradient,
            curve,
            radius,
            stop,
        };
        let outcome = Outcome::of(sheet.append(figures));
        println!(rt; "append {figures}: {outcome}")?;
    }
    Ok(())
}

/// A line of 200 sections.
pub fn long_line(rt: &HostRuntime) -> io::Result<()> {
    let mut sheet = Sheet::new();
    let level = SectionFigures::straight(100, 0);
    for _ in 0..199 {
        let _ = sheet.append(level);
    }
    for k in 199..=200 {
        let outcome = Outcome::of(sheet.append(level));
        println!(rt; "append section {k}: {outcome}")?;
    }
    Ok(())
}

/// Braking distances inside and outside their range.
pub fn braking_distances(rt: &HostRuntime) -> io::Result<()> {
    println!(rt; "braking distances")?;
    let mut sheet = Sheet::new();
    for metres in [399, 400, 4000, 4001] {
        let outcome = Outcome::of(sheet.set_distance(metres));
        println!(rt; "set {metres}: {outcome}")?;
    }
    Ok(())
}
