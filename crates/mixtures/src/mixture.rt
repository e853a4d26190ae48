ghost use Rattle.mixtures.specs.Mixtures.{Mixed, combined};
ghost use Rattle.history.specs.Calls.{event_of, events_of};
ghost use Rattle.rules.specs.History.{couple, cut_out_brake, ask, inquiry};
ghost use Rattle.rules.specs.Kind.{freight, passenger};
ghost use Rattle.rules.specs.declared.figures.Question.TheVariants.{Stop, Speed, Mass};
ghost use Rattle.std.specs.Prelude.{◌≡◌, [], ◌∷◌, map};

use crate::disc::DiscBlocks;
use crate::kind::Combined;
use history::{Asked, Call, Either, Exchange, Inquiry, Reply, perform};
use laws::{
    AdhesionPull, CastIron, Composite, Freight, Locomotive, Passenger, QuadraticDrag, Stock,
    StockLaws, WagonDrag,
};
use layers::{Blend, Lesser, Scale};
use pull_table::PullTable;
use rules::{MassQuestion, Question, SpeedQuestion, StopQuestion, VehicleFigures};
use sheet::Sheet;

/// Cast iron blocks, and a locomotive that pulls a part of what its table tells.
pub type Diesel = Stock<
    CastIron,
    Locomotive<Scale<PullTable>, QuadraticDrag, QuadraticDrag>,
    WagonDrag,
>;

/// Disc brakes, and a locomotive that pulls as much as adhesion allows.
pub type Electric = Stock<
    DiscBlocks,
    Locomotive<AdhesionPull, QuadraticDrag, QuadraticDrag>,
    WagonDrag,
>;

/// Two sorts of blocks, a locomotive that pulls the lesser of its table and what adhesion allows, and wagons of less drag.
pub type Blended = Stock<
    Blend<CastIron, Composite>,
    Locomotive<Lesser<PullTable, AdhesionPull>, QuadraticDrag, QuadraticDrag>,
    Scale<WagonDrag>,
>;

/// The three stocks.
#[derive(Drop)]
pub struct Stocks {
    pub diesel: Diesel,
    pub electric: Electric,
    pub blended: Blended,
}

/// One question of each sort.
#[derive(Clone, Copy)]
pub struct Questions {
    pub stop: StopQuestion,
    pub speed: SpeedQuestion,
    pub mass: MassQuestion,
}

// A question to one of the three stocks, with a kind of brake of its own.
type Mixture<'a> = Either<
    Asked<'a, Freight, Diesel>,
    Either<Asked<'a, Passenger, Electric>, Asked<'a, Combined, Blended>>,
>;

/// Couples a vehicle, asks for a stop, cuts out a brake, asks for the same stop with another kind of brake and another stock, and
/// asks with a third how fast and how heavy the train may be: the replies in that order.
pub fn mix(
    sheet: &mut Sheet,
    stocks: &Stocks,
    vehicle: VehicleFigures,
    k: usize,
    questions: Questions,
) -> [Option<Reply>; 6]
    ensures { Mixed sheet.old
        (couple vehicle
        ∷ ask (inquiry freight (⟦<Diesel as StockLaws>⟧.meaning stocks.now.diesel) (Stop questions.stop))
        ∷ cut_out_brake k
        ∷ ask (inquiry passenger (⟦<Electric as StockLaws>⟧.meaning stocks.now.electric) (Stop questions.stop))
        ∷ ask (inquiry combined (⟦<Blended as StockLaws>⟧.meaning stocks.now.blended) (Speed questions.speed))
        ∷ ask (inquiry combined (⟦<Blended as StockLaws>⟧.meaning stocks.now.blended) (Mass questions.mass))
        ∷ []) result sheet.new }
{
    let mut calls = mixed_calls(stocks, vehicle, k, questions);
    replies(sheet, &mut calls)
}

// The calls of such a history, still to be performed.
fn mixed_calls<'a>(
    stocks: &'a Stocks,
    vehicle: VehicleFigures,
    k: usize,
    questions: Questions,
) -> [Exchange<Mixture<'a>>; 6]
    ensures { events_of ⟦<Mixture<'a> as Inquiry>⟧.inquiry result
        ≡ couple vehicle
        ∷ ask (inquiry freight (⟦<Diesel as StockLaws>⟧.meaning stocks.now.diesel) (Stop questions.stop))
        ∷ cut_out_brake k
        ∷ ask (inquiry passenger (⟦<Electric as StockLaws>⟧.meaning stocks.now.electric) (Stop questions.stop))
        ∷ ask (inquiry combined (⟦<Blended as StockLaws>⟧.meaning stocks.now.blended) (Speed questions.speed))
        ∷ ask (inquiry combined (⟦<Blended as StockLaws>⟧.meaning stocks.now.blended) (Mass questions.mass))
        ∷ [] }
{
    [
        Exchange::from(Call::Couple(vehicle)),
        to_diesel(&stocks.diesel, Question::Stop(questions.stop)),
        Exchange::from(Call::CutOut(k)),
        to_electric(&stocks.electric, Question::Stop(questions.stop)),
        to_blended(&stocks.blended, Question::Speed(questions.speed)),
        to_blended(&stocks.blended, Question::Mass(questions.mass)),
    ]
}

// A question to the first stock, with the freight brake.
fn to_diesel<'a>(stock: &'a Diesel, question: Question) -> Exchange<Mixture<'a>>
    ensures { event_of ⟦<Mixture<'a> as Inquiry>⟧.inquiry result.call
        ≡ ask (inquiry freight (⟦<Diesel as StockLaws>⟧.meaning stock.now) question) }
{
    let asked = Either::Left(Asked::new(stock, question));
    Exchange {
        call: Call::Ask(asked),
        reply: None,
    }
}

// A question to the second, with the passenger brake.
fn to_electric<'a>(stock: &'a Electric, question: Question) -> Exchange<Mixture<'a>>
    ensures { event_of ⟦<Mixture<'a> as Inquiry>⟧.inquiry result.call
        ≡ ask (inquiry passenger (⟦<Electric as StockLaws>⟧.meaning stock.now) question) }
{
    let asked = Either::Left(Asked::new(stock, question));
    Exchange {
        call: Call::Ask(Either::Right(asked)),
        reply: None,
    }
}

// A question to the third, with the combined brake.
fn to_blended<'a>(stock: &'a Blended, question: Question) -> Exchange<Mixture<'a>>
    ensures { event_of ⟦<Mixture<'a> as Inquiry>⟧.inquiry result.call
        ≡ ask (inquiry combined (⟦<Blended as StockLaws>⟧.meaning stock.now) question) }
{
    let asked = Either::Right(Asked::new(stock, question));
    Exchange {
        call: Call::Ask(Either::Right(asked)),
        reply: None,
    }
}

// Performs six calls: the replies in their order.
fn replies<Q: Inquiry>(sheet: &mut Sheet, calls: &mut [Exchange<Q>; 6]) -> [Option<Reply>; 6]
    ensures { Mixed sheet.old (events_of Q.inquiry calls.old) result sheet.new }
{
    perform(sheet, calls);
    beside(calls)
}

// What stands beside six calls.
fn beside<Q>(calls: &[Exchange<Q>; 6]) -> [Option<Reply>; 6]
    ensures { result ≡ map (λ e. e.reply) calls.now }
{
    let [first, second, third, fourth, fifth, sixth] = calls;
    [
        first.reply,
        second.reply,
        third.reply,
        fourth.reply,
        fifth.reply,
        sixth.reply,
    ]
}
