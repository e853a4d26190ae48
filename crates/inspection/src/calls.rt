use history::{Call, Exchange, Lettered};
use laws::{Diesel, KindLetter};
use layers::Scale;
use pull_table::PullTable;
use rules::{MassQuestion, Question, SpeedQuestion, StopQuestion};

/// The laws of the train: a DF4 locomotive that pulls a part of a table.
pub type Pulled = Diesel<Scale<PullTable>>;

/// A call of the week, and the place for its reply.
pub type Noted<'a> = Exchange<Lettered<'a, Pulled>>;

/// A question by a kind of brake, still to be put.
pub fn ask<'a>(stock: &'a Pulled, kind: KindLetter, question: Question) -> Noted<'a> {
    Exchange::from(Call::Ask(Lettered::new(stock, kind, question)))
}

/// How far the train needs to stop.
pub fn stop(place: u32, speed: u32, factor: u32) -> Question {
    Question::Stop(StopQuestion {
        place,
        speed,
        factor,
    })
}

/// How fast it may go.
pub fn speed(place: u32, factor: u32) -> Question {
    Question::Speed(SpeedQuestion { place, factor })
}

/// How heavy its wagons may be.
pub fn mass(speed: u32, gross: u32) -> Question {
    Question::Mass(MassQuestion { speed, gross })
}
