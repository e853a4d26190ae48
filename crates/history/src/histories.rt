ghost use Rattle.rules.specs.Book.{new_book};
ghost use Rattle.history.specs.Calls.{AllPerformed};

use crate::call::Exchange;
use crate::inquiry::Inquiry;
use sheet::Sheet;

/// Performs calls in their order on a sheet, whatever was done with it before, and puts the reply to each beside it.
pub fn perform<Q: Inquiry>(sheet: &mut Sheet, calls: &mut [Exchange<Q>])
    ensures { AllPerformed Q.inquiry sheet.old calls.old calls.new sheet.new }
{
    for exchange in calls.iter_mut() {
        exchange.perform(sheet);
    }
}

/// Performs calls in their order on a new sheet, puts the reply to each beside it, and answers the sheet.
pub fn perform_anew<Q: Inquiry>(calls: &mut [Exchange<Q>]) -> Sheet
    ensures { AllPerformed Q.inquiry new_book calls.old calls.new result }
{
    let mut sheet = Sheet::new();
    perform(&mut sheet, calls);
    sheet
}
