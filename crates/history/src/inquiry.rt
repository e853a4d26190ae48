ghost use Rattle.history.specs.Replies.{reply_told};
ghost use Rattle.rules.specs.History.{Inquiry as RuleInquiry, Performed, ask};

use crate::reply::Reply;
use sheet::Sheet;

/// Whatever puts one of the three questions to a sheet, with a kind of brake and a stock of its own.
pub trait Inquiry {
    ghost inquiry: { Self → RuleInquiry };

    /// Puts the question to a sheet.
    fn put(&self, sheet: &Sheet) -> Reply
        ensures { Performed sheet.now (ask (inquiry self.now)) (reply_told result) sheet.now };
}
