use line::Section;
use rules::SectionFigures;
use std::io;

/// Grades with and without a curve.
pub fn grades(rt: &HostRuntime) -> io::Result<()> {
    println!(rt; "grades, low and high")?;
    for (gradient, curve, radius) in [
        (0, 250, 300),
        (-7, 250, 300),
        (-35, 250, 300),
        (12, 0, 0),
        (-12, 0, 0),
    ] {
        let figures = SectionFigures {
            metres: 500,
            gradient,
            curve,
            radius,
            stop: 0,
        };
        if let Ok(section) = Section::try_from(figures) {
            let low = section.low_grade();
            let high = section.high_grade();
            println!(rt; "section {figures}: {low} {high}")?;
        }
    }
    Ok(())
}
