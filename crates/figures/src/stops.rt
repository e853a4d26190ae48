use laws::{ElectroPneumatic, Freight, FreightByHand, Passenger, PassengerByHand};
use report::{Outcome, example_sheet, stop_of_df4, stop_of_example};
use rules::{SectionFigures, StopQuestion, VehicleFigures};
use sheet::Sheet;
use std::io;

/// The example train on a fall, on the level, on a climb and at rest.
pub fn example_train(rt: &HostRuntime) -> io::Result<()> {
    println!(rt; "stops of the example train")?;
    for (gradient, speed) in [(-100, 100), (0, 100), (100, 100), (0, 0)] {
        let sheet = example_sheet(gradient);
        let stop = Outcome::from(stop_of_example(&sheet, speed));
        println!(rt; "gradient {gradient}, speed {speed}: {stop}")?;
    }
    Ok(())
}

/// One stop by each kind of brake.
pub fn by_kind(rt: &HostRuntime) -> io::Result<()> {
    let sheet = example_sheet(-20);
    let question = StopQuestion::full_braking(0, 350);
    let stop = stop_of_df4::<Freight>(&sheet, question);
    println!(rt; "kind F, gradient -20, speed 350: {stop}")?;
    let stop = stop_of_df4::<Passenger>(&sheet, question);
    println!(rt; "kind P, gradient -20, speed 350: {stop}")?;
    let stop = stop_of_df4::<ElectroPneumatic>(&sheet, question);
    println!(rt; "kind E, gradient -20, speed 350: {stop}")?;
    let stop = stop_of_df4::<FreightByHand>(&sheet, question);
    println!(rt; "kind H, gradient -20, speed 350: {stop}")?;
    let stop = stop_of_df4::<PassengerByHand>(&sheet, question);
    println!(rt; "kind J, gradient -20, speed 350: {stop}")
}

/// A window that ends with the line, and one that begins at the end of a steep section and one metre behind it.
pub fn window_ends(rt: &HostRuntime) -> io::Result<()> {
    println!(rt; "the ends of the window")?;
    let mut sheet = example_sheet(-150);
    let _ = sheet.append(SectionFigures::straight(1001, 0));
    for (label, place) in [
        ("from the end of the fall", 3000),
        ("one metre behind it, to the line's end", 3001),
    ] {
        let stop = stop_of_df4::<Freight>(&sheet, StopQuestion::full_braking(place, 100));
        println!(rt; "{label}: {stop}")?;
    }
    Ok(())
}

// A train whose third vehicle is cut out, on curved sections that fall more and more.
fn falling() -> Sheet {
    let mut sheet = Sheet::new();
    for (letter, mass, pressure) in [
        ('L', 1000, 400),
        ('W', 600, 200),
        ('W', 613, 170),
        ('W', 587, 3),
    ] {
        let _ = sheet.couple(VehicleFigures::new(letter, mass, pressure));
    }
    let _ = sheet.cut_out(2);
    for (metres, gradient, curve, radius) in [
        (500, -35, 250, 300),
        (3000, -61, 700, 450),
        (9000, -90, 0, 0),
    ] {
        let _ = sheet.append(SectionFigures {
            curve,
            radius,
            ..SectionFigures::straight(metres, gradient)
        });
    }
    let _ = sheet.set_distance(3000);
    sheet
}

/// Stops of many steps over several sections.
pub fn long_stops(rt: &HostRuntime) -> io::Result<()> {
    println!(rt; "long stops")?;
    let sheet = falling();
    for (place, speed) in [
        (500, 730),
        (499, 730),
        (499, 1600),
        (3501, 730),
        (500, 551),
        (500, 550),
    ] {
        let question = StopQuestion {
            place,
            speed,
            factor: 9,
        };
        let stop = stop_of_df4::<Freight>(&sheet, question);
        println!(rt; "place {place}, speed {speed}: {stop}")?;
    }
    Ok(())
}

/// A stop without wagons.
pub fn alone(rt: &HostRuntime) -> io::Result<()> {
    let mut sheet = Sheet::new();
    let _ = sheet.couple(VehicleFigures::new('L', 1380, 420));
    let _ = sheet.append(SectionFigures {
        curve: 300,
        radius: 250,
        ..SectionFigures::straight(5000, -40)
    });
    let question = StopQuestion {
        place: 100,
        speed: 500,
        factor: 6,
    };
    let alone = stop_of_df4::<ElectroPneumatic>(&sheet, question);
    println!(rt; "locomotive alone, speed 500: {alone}")
}
