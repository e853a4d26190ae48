ghost use Rattle.history.specs.Printed.{call_text};
ghost use Rattle.history.specs.Replies.{reply_told};
ghost use Rattle.rules.specs.History.{Performed};
ghost use Rattle.std.specs.Prelude.{◌≡◌, None};

use crate::inquiry::Inquiry;
use crate::reply::Reply;
use rules::{SectionFigures, VehicleFigures};
use sheet::Sheet;
use std::fmt;

/// A call of a sheet with its arguments: an edit, or a question of some sort.
#[derive(Clone, Copy)]
pub enum Call<Q> {
    /// Couples a vehicle at the rear, its brake in.
    Couple(VehicleFigures),
    /// Uncouples the rear vehicle.
    Uncouple,
    /// Cuts out the brake of a vehicle, counted from 0 at the front.
    CutOut(usize),
    /// Restores the brake of a vehicle.
    Restore(usize),
    /// Appends a section at the end of the line.
    Append(SectionFigures),
    /// Lifts all sections.
    Lift,
    /// Sets the braking distance in metres.
    SetDistance(u32),
    /// Puts a question.
    Ask(Q),
}

/// A call, and beside it the place for its reply: none where it was not performed yet.
#[derive(Clone, Copy)]
pub struct Exchange<Q> {
    pub call: Call<Q>,
    pub reply: Option<Reply>,
}

impl<Q> From<Call<Q>> for Exchange<Q> {
    ghost from_gives = { λ c e. (e.call ≡ c) × (e.reply ≡ None) };

    // A call that is still to be performed.
    fn from(call: Call<Q>) -> Exchange<Q> {
        Exchange { call, reply: None }
    }
}

impl<Q: Inquiry> Call<Q> {
    ghost use Rattle.history.specs.Calls.{event_of};

    // Performs the call on a sheet.
    #[tactic(auto, using(rules::proofs::Histories::edit_performed))]
    pub(crate) fn perform(&self, sheet: &mut Sheet) -> Reply
        ensures { Performed sheet.old (event_of Q.inquiry self.now) (reply_told result) sheet.new }
    {
        match self {
            Call::Couple(figures) => Reply::from(sheet.couple(*figures)),
            Call::Uncouple => Reply::from(sheet.uncouple()),
            Call::CutOut(k) => Reply::from(sheet.cut_out(*k)),
            Call::Restore(k) => Reply::from(sheet.restore(*k)),
            Call::Append(figures) => Reply::from(sheet.append(*figures)),
            Call::Lift => {
                sheet.lift();
                Reply::Passed
            }
            Call::SetDistance(metres) => Reply::from(sheet.set_distance(*metres)),
            Call::Ask(question) => question.put(sheet),
        }
    }
}

impl<Q: Inquiry> Exchange<Q> {
    ghost use Rattle.history.specs.Calls.{ExchangePerformed};

    // Performs the call on a sheet, and puts its reply beside it.
    pub(crate) fn perform(&mut self, sheet: &mut Sheet)
        ensures { ExchangePerformed Q.inquiry sheet.old self.old self.new sheet.new }
    {
        self.reply = Some(self.call.perform(sheet));
    }
}

impl<Q: fmt::Display> fmt::Display for Call<Q> {
    ghost output = { call_text Q.output };

    fn fmt<W: fmt::Write>(&self, f: &mut fmt::Formatter<W>) -> fmt::Result {
        match self {
            Call::Couple(figures) => write!(f, "couple {figures}"),
            Call::Uncouple => f.write_str("uncouple"),
            Call::CutOut(k) => write!(f, "cut out {k}"),
            Call::Restore(k) => write!(f, "restore {k}"),
            Call::Append(figures) => write!(f, "append {figures}"),
            Call::Lift => f.write_str("lift"),
            Call::SetDistance(metres) => write!(f, "set braking distance {metres}"),
            Call::Ask(question) => write!(f, "{question}"),
        }
    }
}
