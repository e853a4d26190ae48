use laws::{
    AdhesionPull, CastIron, Composite, Locomotive, Passenger, QuadraticDrag, Stock, WagonDrag,
};
use layers::{Blend, Lesser, Scale};
use pull_table::PullTable;
use reckoning::stop;
use report::{Outcome, example_sheet, example_table};
use rules::{Refusal, StopQuestion};
use std::io;

// A stock with layers in the place of every law.
type Layered = Stock<
    Scale<Blend<CastIron, Composite>>,
    Locomotive<
        Lesser<PullTable, AdhesionPull>,
        Scale<QuadraticDrag>,
        Blend<QuadraticDrag, Scale<QuadraticDrag>>,
    >,
    Blend<WagonDrag, QuadraticDrag>,
>;

fn layered_stock() -> Result<Layered, Refusal> {
    let df4 = QuadraticDrag::df4();
    let locomotive = Locomotive {
        pull: Lesser::new(example_table(), AdhesionPull::new(1000)?),
        pulling: Scale::new(df4, 99)?,
        coasting: Blend::new(df4, Scale::new(df4, 95)?, 1, 2)?,
    };
    Ok(Stock {
        friction: Scale::new(Blend::new(CastIron, Composite, 3, 1)?, 97)?,
        locomotive,
        wagon: Blend::new(WagonDrag, df4, 9, 1)?,
    })
}

/// Stops of the example train by a stock of layers alone.
pub fn stops(rt: &HostRuntime) -> io::Result<()> {
    println!(rt; "stops by layers alone")?;
    let sheet = example_sheet(-20);
    if let Ok(stock) = layered_stock() {
        for (speed, factor) in [(730, 8), (730, 5), (1200, 10)] {
            let question = StopQuestion {
                place: 100,
                speed,
                factor,
            };
            let outcome = Outcome::from(stop::<Passenger, _>(&sheet, &stock, question));
            println!(rt; "speed {speed}, factor {factor}: {outcome}")?;
        }
    }
    Ok(())
}
