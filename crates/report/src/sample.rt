ghost use Rattle.report.specs.Samples.{example_book};
ghost use Rattle.rules.specs.Refusals.{stop_reply};
ghost use Rattle.rules.specs.Sample.{example_points, example_pull, example_stock, example_stop};
ghost use Rattle.pull_table.specs.Tables.{points_of};
ghost use Rattle.std.specs.Prelude.{◌≡◌};

use laws::{Diesel, Freight, StockLaws, diesel};
use layers::Scale;
use pull_table::PullTable;
use reckoning::stop;
use rules::{PointFigures, Refusal, SectionFigures, StopQuestion, VehicleFigures};
use sheet::Sheet;

/// A pull of 40,000 kgf at rest and 20,000 kgf at 40 km/h.
pub fn example_table() -> PullTable
    ensures { points_of result ≡ example_points }
{
    let points = [PointFigures::new(0, 40_000), PointFigures::new(400, 20_000)];
    PullTable::new(&points).unwrap()
}

/// Nine tenths of that pull.
pub fn example_pull() -> Scale<PullTable>
    ensures { (points_of result.base ≡ example_points) × (result.percent ≡ 90) }
{
    Scale::new(example_table(), 90).unwrap()
}

/// How far a train needs to stop with a DF4 of the example's pull and the freight brake, from the start of its line, by full
/// braking.
pub fn stop_of_example(sheet: &Sheet, speed: u32) -> Result<(u32, u32, u32), Refusal>
    ensures { stop_reply result ≡ example_stop example_pull sheet.now speed }
{
    stop_by(sheet, &example_df4(), speed)
}

// The same, with laws that are those of the example.
fn stop_by<S: StockLaws>(sheet: &Sheet, stock: &S, speed: u32) -> Result<(u32, u32, u32), Refusal>
    requires { S.meaning stock.now ≡ example_stock example_pull }
    ensures { stop_reply result ≡ example_stop example_pull sheet.now speed }
{
    stop::<Freight, _>(sheet, stock, StopQuestion::full_braking(0, speed))
}

// The laws of a DF4 of the example's pull.
fn example_df4() -> Diesel<Scale<PullTable>>
    ensures { ⟦<Diesel<Scale<PullTable>> as StockLaws>⟧.meaning result ≡ example_stock example_pull }
{
    diesel(example_pull())
}

/// A locomotive of 100 t and a wagon of 60 t, on 3,000 m of a gradient.
pub fn example_sheet(gradient: i32) -> Sheet
    ensures { result ≡ example_book gradient }
{
    let mut sheet = Sheet::new();
    let _ = sheet.couple(VehicleFigures::new('L', 1000, 400));
    let _ = sheet.couple(VehicleFigures::new('W', 600, 200));
    let _ = sheet.append(SectionFigures::straight(3000, gradient));
    sheet
}
