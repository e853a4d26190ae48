ghost use Rattle.std.specs.Prelude.{◌≡◌, ◌≤◌, List, [], length};
ghost use Rattle.rules.specs.declared.figures.Question.{Question as Asked};
ghost use Rattle.runfile.specs.Sorts.{question_sort};
ghost use Rattle.text.specs.Numerals.{LineRead};
ghost use Rattle.text.specs.Sorts.{Says};

use arrayvec::ArrayVec;
use rules::{Fault, MassQuestion, Question, Refusal, SpeedQuestion, StopQuestion};
use std::marker::Model;
use text::{Entry, Malformed, Store, pair, triple};

// How many questions a run file may ask.
const MOST_QUESTIONS: usize = 200;

/// A line under the heading ASK.
#[derive(Drop)]
pub struct QuestionLine {
    question: Question,
}

impl Model for QuestionLine {
    ghost Value = { Asked };

    ghost view = { λ l. l.question };
}

// The question that a line asks.
fn question_on(line: u32, text: &[u8]) -> Result<Question, Fault>
    ensures { LineRead line (Says question_sort text.now) result }
{
    match text {
        [b'S', b' ', rest @ ..] => {
            let Ok((place, speed, factor)) = triple(line, rest) else {
                return Err(Malformed::on(line));
            };
            Ok(Question::Stop(StopQuestion {
                place,
                speed,
                factor,
            }))
        }
        [b'V', b' ', rest @ ..] => {
            let Ok((place, factor)) = pair(line, rest) else {
                return Err(Malformed::on(line));
            };
            Ok(Question::Speed(SpeedQuestion { place, factor }))
        }
        [b'M', b' ', rest @ ..] => {
            let Ok((speed, gross)) = pair(line, rest) else {
                return Err(Malformed::on(line));
            };
            Ok(Question::Mass(MassQuestion { speed, gross }))
        }
        _ => Err(Malformed::on(line)),
    }
}

impl Entry for QuestionLine {
    ghost sort = { question_sort };

    fn after_name(line: &[u8]) -> Option<&[u8]> {
        let [b'A', b'S', b'K', b' ', count @ ..] = line else {
            return None;
        };
        Some(count)
    }

    fn limits() -> (u32, u32) {
        (0, MOST_QUESTIONS as u32)
    }

    fn read(line: u32, text: &[u8]) -> Result<QuestionLine, Fault> {
        let question = question_on(line, text)?;
        Ok(QuestionLine { question })
    }
}

/// The questions of a run file in their order, at most 200. They lie in the value itself, which wants no memory.
#[derive(Drop)]
pub struct Questions {
    questions: ArrayVec<Question, MOST_QUESTIONS>,
}

impl Model for Questions {
    ghost Value = { List Asked };

    ghost view = { λ q. q.questions.items };
}

impl Questions {
    /// No questions yet.
    pub fn new() -> Questions
        ensures { result ≡ [] }
    {
        Questions {
            questions: ArrayVec::new(),
        }
    }

    /// The questions in order.
    pub fn questions(&self) -> &[Question]
        ensures questions { result.now ≡ self.now }
        ensures few { length self.now ≤ 200 }
    {
        &self.questions
    }
}

impl Store<QuestionLine> for Questions {
    ghost held = { λ questions. questions };

    ghost emptied = { λ questions. [] };

    fn clear(&mut self) {
        self.questions.clear();
    }

    fn store(&mut self, line: QuestionLine) -> Result<(), Refusal> {
        self.questions
            .try_push(line.question)
            .map_err(|_| Refusal::QuestionOutOfRange)
    }
}
