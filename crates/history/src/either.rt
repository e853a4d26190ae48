use crate::inquiry::Inquiry;
use crate::reply::Reply;
use sheet::Sheet;
use std::fmt;

/// A question of one sort or of another, so that one list of calls holds both.
#[derive(Clone, Copy)]
pub enum Either<A, B> {
    Left(A),
    Right(B),
}

impl<A: Inquiry, B: Inquiry> Inquiry for Either<A, B> {
    ghost use Rattle.history.specs.Calls.{of_either};

    ghost inquiry = { of_either A.inquiry B.inquiry };

    fn put(&self, sheet: &Sheet) -> Reply {
        match self {
            Either::Left(question) => question.put(sheet),
            Either::Right(question) => question.put(sheet),
        }
    }
}

impl<A: fmt::Display, B: fmt::Display> fmt::Display for Either<A, B> {
    ghost use Rattle.history.specs.Calls.{of_either};

    ghost output = { of_either A.output B.output };

    fn fmt<W: fmt::Write>(&self, f: &mut fmt::Formatter<W>) -> fmt::Result {
        match self {
            Either::Left(question) => write!(f, "{question}"),
            Either::Right(question) => write!(f, "{question}"),
        }
    }
}
