ghost use Rattle.rules.specs.Mass.{asked_for_mass, mass_questions, IsGreatestMass};
ghost use Rattle.rules.specs.Refusals.{DecidedOnce, mass_reply, told};
ghost use Rattle.std.specs.Prelude.{◌≡◌, IfOk};

use crate::hauler::Hauler;
use laws::StockLaws;
use rules::{MassQuestion, Refusal};
use sheet::Sheet;
use units::Load;

/// How heavy the wagons may be that the locomotives of a sheet haul over its line at a speed, by the laws of a stock: the greatest
/// multiple of 50 t up to 10,000 t that holds by cautious values, so that it holds by the exact ones too. The wagons that are on
/// the sheet do not matter.
pub fn mass<S: StockLaws>(sheet: &Sheet, stock: &S, question: MassQuestion) -> Result<Load, Refusal>
    ensures figure { mass_reply result ≡ asked_for_mass (S.meaning stock.now) sheet.now question }
    ensures decided { DecidedOnce (mass_questions (S.meaning stock.now) sheet.now question) (told result) }
    ensures greatest { IfOk result (IsGreatestMass (S.meaning stock.now) sheet.now question) }
{
    let hauler = Hauler::of(sheet, stock, question)?;
    hauler.load(sheet.line().sections())
}
