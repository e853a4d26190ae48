ghost use Rattle.laws.specs.Kinds.{kind_by_letter};
ghost use Rattle.history.specs.Printed.{lettered_text};
ghost use Rattle.std.specs.Prelude.{◌≡◌, Some};

use crate::asked::Asked;
use crate::inquiry::Inquiry;
use crate::reply::Reply;
use laws::{
    ElectroPneumatic, Freight, FreightByHand, KindLetter, Passenger, PassengerByHand, StockLaws,
};
use rules::Question;
use sheet::Sheet;
use std::fmt;

/// A question with a kind of brake that is told by its letter when the program runs, and the laws of a stock.
#[derive_where(Clone, Copy)]
pub struct Lettered<'a, S> {
    stock: &'a S,
    kind: KindLetter,
    question: Question,
}

impl<'a, S: StockLaws> Lettered<'a, S> {
    ghost use Rattle.rules.specs.History.{inquiry};

    /// A question, to be put with the kind of brake of a letter and a stock.
    pub fn new(stock: &'a S, kind: KindLetter, question: Question) -> Lettered<'a, S>
        ensures { ⟦<Lettered<'a, S> as Inquiry>⟧.inquiry result ≡ inquiry (kind_by_letter kind) (S.meaning stock.now) question }
    {
        Lettered {
            stock,
            kind,
            question,
        }
    }
}

impl<'a, S: StockLaws> Inquiry for Lettered<'a, S> {
    ghost use Rattle.rules.specs.History.{inquiry};

    ghost inquiry = { λ a. inquiry (kind_by_letter a.kind) (S.meaning a.stock.now) a.question };

    fn put(&self, sheet: &Sheet) -> Reply {
        match self.kind {
            KindLetter::F => Asked::<Freight, S>::new(self.stock, self.question).put(sheet),
            KindLetter::P => Asked::<Passenger, S>::new(self.stock, self.question).put(sheet),
            KindLetter::E => Asked::<ElectroPneumatic, S>::new(self.stock, self.question).put(
                sheet,
            ),
            KindLetter::H => Asked::<FreightByHand, S>::new(self.stock, self.question).put(sheet),
            KindLetter::J => Asked::<PassengerByHand, S>::new(self.stock, self.question).put(sheet),
        }
    }
}

impl<'a, S> fmt::Display for Lettered<'a, S> {
    ghost output = { λ a. Some (lettered_text a.kind a.question) };

    fn fmt<W: fmt::Write>(&self, f: &mut fmt::Formatter<W>) -> fmt::Result {
        write!(f, "{} by brake {}", self.question, self.kind)
    }
}
