ghost use Rattle.rules.specs.Kind.{kind};
ghost use Rattle.rules.specs.Promises.{NoFinerIsLonger, SurplusIsBounded};
ghost use Rattle.rules.specs.Questions.{asked_to_stop, figures, stop_questions};
ghost use Rattle.rules.specs.Refusals.{DecidedOnce, speed_reply, stop_reply, told};
ghost use Rattle.rules.specs.Speed.{asked_for_speed, speed_questions, IsGreatestSpeed};
ghost use Rattle.std.specs.Prelude.{◌≡◌, IfOk};

use crate::approach::Approach;
use crate::search::permitted_speed;
use laws::{BrakeKind, StockLaws};
use rules::{Refusal, SpeedQuestion, StopQuestion};
use sheet::Sheet;
use units::Speed;

/// How far the train of a sheet needs to stop, with the kind of brake K and the laws of a stock: the distance in millimetres, the
/// least force in milli, and the number of steps. No finer reckoning is longer than the distance answered, which exceeds its exact
/// sum by no more than the surplus promised.
pub fn stop<K: BrakeKind, S: StockLaws>(
    sheet: &Sheet,
    stock: &S,
    question: StopQuestion,
) -> Result<(u32, u32, u32), Refusal>
    ensures figures { stop_reply result ≡ asked_to_stop (kind K.T K.C) (S.meaning stock.now) sheet.now question.place question.speed question.factor }
    ensures decided { DecidedOnce (stop_questions (kind K.T K.C) (S.meaning stock.now) sheet.now question.place question.speed question.factor) (told result) }
    ensures safe { IfOk result (λ t. NoFinerIsLonger (kind K.T K.C) (S.meaning stock.now) sheet.now question (figures t)) }
    ensures close { IfOk result (λ t. SurplusIsBounded (kind K.T K.C) (S.meaning stock.now) sheet.now question (figures t)) }
{
    let v = Speed::from_tenths(question.speed)?;
    let approach = Approach::of(sheet, question.place, question.factor)?;
    let figures = approach.reckon::<K, S>(stock, v)?;
    let (distance, _, _) = figures;
    if !approach.is_within_reach(distance) {
        return Err(Refusal::StopsTooFar);
    }
    Ok(figures)
}

/// How fast the train of a sheet may go at a place, with the kind of brake K and the laws of a stock: the greatest multiple of 5 km/h
/// up to 160 km/h at which, and at every lower one, it stops within the braking distance; refused as a stop at rest is.
#[tactic(auto, using(crate::proofs::Permitting::figure_kept, crate::proofs::Permitting::decided_kept, crate::proofs::Permitting::greatest_kept))]
pub fn speed<K: BrakeKind, S: StockLaws>(
    sheet: &Sheet,
    stock: &S,
    question: SpeedQuestion,
) -> Result<Speed, Refusal>
    ensures figure { speed_reply result ≡ asked_for_speed (kind K.T K.C) (S.meaning stock.now) sheet.now question }
    ensures decided { DecidedOnce (speed_questions (kind K.T K.C) (S.meaning stock.now) sheet.now question) (told result) }
    ensures greatest { IfOk result (IsGreatestSpeed (kind K.T K.C) (S.meaning stock.now) sheet.now question) }
{
    let approach = Approach::of(sheet, question.place, question.factor)?;
    permitted_speed::<K, S>(&approach, stock)
}
