use runfile::RunFile;
use sheet::Sheet;
use std::io;

/// The kind of brake, the pull table and the questions of a run file.
pub fn show_file(rt: &HostRuntime, file: &RunFile) -> io::Result<()> {
    if let Some(kind) = file.kind() {
        println!(rt; "  brake {kind}")?;
    }
    if let Some(table) = file.table() {
        for point in table.points() {
            println!(rt; "  pull at speed {}: {}", point.speed, point.value)?;
        }
    }
    for question in file.questions() {
        println!(rt; "  {question}")?;
    }
    Ok(())
}

/// The train, the line and the braking distance of a sheet.
pub fn show_sheet(rt: &HostRuntime, sheet: &Sheet) -> io::Result<()> {
    show_train(rt, sheet)?;
    show_line(rt, sheet)?;
    let distance = sheet.distance();
    println!(rt; "  braking distance {distance}")
}

// The train and the line are told by a short loop each, since what is told of an entry differs.
fn show_train(rt: &HostRuntime, sheet: &Sheet) -> io::Result<()> {
    let vehicles = sheet.consist().vehicles();
    if vehicles.is_empty() {
        println!(rt; "  no vehicle")?;
    }
    for (k, vehicle) in vehicles.iter().enumerate() {
        let figures = vehicle.figures();
        let brake = if vehicle.braked() { "in" } else { "out" };
        println!(rt; "  vehicle {k}: {figures}, brake {brake}")?;
    }
    Ok(())
}

fn show_line(rt: &HostRuntime, sheet: &Sheet) -> io::Result<()> {
    let sections = sheet.line().sections();
    if sections.is_empty() {
        println!(rt; "  no section")?;
    }
    for (k, section) in sections.iter().enumerate() {
        let figures = section.figures();
        println!(rt; "  section {k}: {figures}")?;
    }
    Ok(())
}
