// A kind of brake and a friction that no other crate knows, in histories that mix three stocks: for them nothing more is proved than
// that they are lawful.
#![tactic(auto)]

mod disc;
mod kind;
mod mixture;

use disc::DiscBlocks;
use laws::{AdhesionPull, CastIron, Composite, Locomotive, QuadraticDrag, Stock, WagonDrag};
use layers::{Blend, Lesser, Scale};
use mixture::{Blended, Diesel, Electric, Questions, Stocks, mix};
use pull_table::PullTable;
use rules::{
    MassQuestion, PointFigures, Refusal, SectionFigures, SpeedQuestion, StopQuestion,
    VehicleFigures,
};
use sheet::Sheet;
use std::io;

fn main(rt: HostRuntime) -> io::Result<()> {
    let mut sheet = Sheet::new();
    let _ = sheet.couple(VehicleFigures::new('L', 1000, 400));
    let _ = sheet.append(SectionFigures::straight(1500, 0));
    let _ = sheet.append(SectionFigures::straight(1500, 80));
    let Ok(stocks) = stocks() else {
        return println!(&rt; "a law is not made");
    };
    for (vehicle, k, speed, factor, gross) in [
        (VehicleFigures::new('W', 600, 200), 1, 600, 10, 600),
        (VehicleFigures::new('W', 49, 0), 2, 1000, 7, 2001),
        (VehicleFigures::new('W', 613, 170), 0, 1601, 5, 50),
    ] {
        let replies = mix(
            &mut sheet,
            &stocks,
            vehicle,
            k,
            questions(speed, factor, gross),
        );
        println!(&rt; "mixed")?;
        for reply in replies.iter().flatten() {
            println!(&rt; "  {reply}")?;
        }
    }
    Ok(())
}

fn questions(speed: u32, factor: u32, gross: u32) -> Questions {
    Questions {
        stop: StopQuestion {
            place: 0,
            speed,
            factor,
        },
        speed: SpeedQuestion { place: 0, factor },
        mass: MassQuestion { speed: 150, gross },
    }
}

fn stocks() -> Result<Stocks, Refusal> {
    Ok(Stocks {
        diesel: diesel()?,
        electric: electric()?,
        blended: blended()?,
    })
}

fn table() -> Result<PullTable, Refusal> {
    PullTable::new(&[PointFigures::new(0, 40_000), PointFigures::new(400, 20_000)])
}

fn diesel() -> Result<Diesel, Refusal> {
    Ok(Stock {
        friction: CastIron,
        locomotive: Locomotive {
            pull: Scale::new(table()?, 90)?,
            pulling: QuadraticDrag::df4(),
            coasting: QuadraticDrag::df4(),
        },
        wagon: WagonDrag,
    })
}

fn electric() -> Result<Electric, Refusal> {
    Ok(Stock {
        friction: DiscBlocks,
        locomotive: Locomotive {
            pull: AdhesionPull::new(1200)?,
            pulling: QuadraticDrag::new(1_500_000, 20_000, 300)?,
            coasting: QuadraticDrag::df4(),
        },
        wagon: WagonDrag,
    })
}

fn blended() -> Result<Blended, Refusal> {
    Ok(Stock {
        friction: Blend::new(CastIron, Composite, 3, 1)?,
        locomotive: Locomotive {
            pull: Lesser::new(table()?, AdhesionPull::new(1000)?),
            pulling: QuadraticDrag::new(1_500_000, 20_000, 300)?,
            coasting: QuadraticDrag::df4(),
        },
        wagon: Scale::new(WagonDrag, 95)?,
    })
}
