ghost use Rattle.history.specs.Replies.{reply_told};
ghost use Rattle.rules.specs.Printed.{question_text};
ghost use Rattle.rules.specs.Kind.{kind};
ghost use Rattle.std.specs.Prelude.{◌≡◌, Some};

use crate::inquiry::Inquiry;
use crate::reply::Reply;
use haulage::mass;
use laws::{BrakeKind, StockLaws};
use reckoning::{speed, stop};
use rules::{MassQuestion, Question, SpeedQuestion, StopQuestion};
use sheet::Sheet;
use std::fmt;
use std::marker::PhantomData;

/// A question with the kind of brake K and the laws of a stock.
#[derive_where(Clone, Copy)]
pub struct Asked<'a, K, S> {
    stock: &'a S,
    question: Question,
    brake: PhantomData<K>,
}

impl<'a, K: BrakeKind, S: StockLaws> Asked<'a, K, S> {
    ghost use Rattle.rules.specs.History.{Performed, ask, inquiry, reply};
    ghost use Rattle.rules.specs.declared.figures.Question.TheVariants.{Stop, Speed, Mass};

    /// A question, to be put with the kind of brake K and a stock.
    pub fn new(stock: &'a S, question: Question) -> Asked<'a, K, S>
        ensures { ⟦<Asked<'a, K, S> as Inquiry>⟧.inquiry result ≡ inquiry (kind K.T K.C) (S.meaning stock.now) question }
    {
        Asked {
            stock,
            question,
            brake: PhantomData,
        }
    }

    // Puts a mass question.
    fn mass(&self, sheet: &Sheet, question: MassQuestion) -> Reply
        ensures told { reply_told result ≡ reply sheet.now (ask (inquiry (kind K.T K.C) (S.meaning self.now.stock.now) (Mass question))) }
        ensures performed { Performed sheet.now (ask (inquiry (kind K.T K.C) (S.meaning self.now.stock.now) (Mass question))) (reply_told result) sheet.now }
    {
        Reply::from(mass::<S>(sheet, self.stock, question))
    }

    // Puts a speed question.
    fn speed(&self, sheet: &Sheet, question: SpeedQuestion) -> Reply
        ensures told { reply_told result ≡ reply sheet.now (ask (inquiry (kind K.T K.C) (S.meaning self.now.stock.now) (Speed question))) }
        ensures performed { Performed sheet.now (ask (inquiry (kind K.T K.C) (S.meaning self.now.stock.now) (Speed question))) (reply_told result) sheet.now }
    {
        Reply::from(speed::<K, S>(sheet, self.stock, question))
    }

    // Puts a stop question.
    fn stop(&self, sheet: &Sheet, question: StopQuestion) -> Reply
        ensures told { reply_told result ≡ reply sheet.now (ask (inquiry (kind K.T K.C) (S.meaning self.now.stock.now) (Stop question))) }
        ensures performed { Performed sheet.now (ask (inquiry (kind K.T K.C) (S.meaning self.now.stock.now) (Stop question))) (reply_told result) sheet.now }
    {
        Reply::from(stop::<K, S>(sheet, self.stock, question))
    }
}

impl<'a, K: BrakeKind, S: StockLaws> Inquiry for Asked<'a, K, S> {
    ghost use Rattle.rules.specs.History.{inquiry};

    ghost inquiry = { λ a. inquiry (kind K.T K.C) (S.meaning a.stock.now) a.question };

    fn put(&self, sheet: &Sheet) -> Reply {
        match self.question {
            Question::Stop(question) => self.stop(sheet, question),
            Question::Speed(question) => self.speed(sheet, question),
            Question::Mass(question) => self.mass(sheet, question),
        }
    }
}

impl<'a, K, S> fmt::Display for Asked<'a, K, S> {
    ghost output = { λ a. Some (question_text a.question) };

    fn fmt<W: fmt::Write>(&self, f: &mut fmt::Formatter<W>) -> fmt::Result {
        write!(f, "{}", self.question)
    }
}
