ghost use Rattle.report.specs.Samples.{df4_stock};
ghost use Rattle.report.specs.Told.{stop_told};
ghost use Rattle.rules.specs.Kind.{kind};
ghost use Rattle.rules.specs.Questions.{asked_to_stop};
ghost use Rattle.std.specs.Prelude.{◌≡◌};

use crate::outcome::Outcome;
use laws::{BrakeKind, Diesel, NoPull, StockLaws, diesel};
use reckoning::stop;
use rules::{StopFigures, StopQuestion};
use sheet::Sheet;

/// How far the train of a sheet needs to stop, with the kind of brake K and a DF4 locomotive, or why that is refused.
pub fn stop_of_df4<K: BrakeKind>(sheet: &Sheet, question: StopQuestion) -> Outcome<StopFigures>
    ensures { stop_told result.0
        ≡ asked_to_stop (kind K.T K.C) df4_stock sheet.now question.place question.speed question.factor }
{
    stop_by::<K, _>(sheet, &idle_df4(), question)
}

// The same, with laws that are those of a DF4.
fn stop_by<K: BrakeKind, S: StockLaws>(
    sheet: &Sheet,
    stock: &S,
    question: StopQuestion,
) -> Outcome<StopFigures>
    requires { S.meaning stock.now ≡ df4_stock }
    ensures { stop_told result.0
        ≡ asked_to_stop (kind K.T K.C) df4_stock sheet.now question.place question.speed question.factor }
{
    Outcome::from(stop::<K, _>(sheet, stock, question))
}

// A stop reads no pull.
fn idle_df4() -> Diesel<NoPull>
    ensures { ⟦<Diesel<NoPull> as StockLaws>⟧.meaning result ≡ df4_stock }
{
    diesel(NoPull)
}
