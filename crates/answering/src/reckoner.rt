ghost use Rattle.std.specs.Prelude.{◌≡◌, ℕ, ◌+◌, ◌<◌, ◌≤◌, ◌⊎◌, [], length, Some, None, Ok, Err, IfSome, IsSome, MatchOption, MatchResult};
ghost use Rattle.rules.specs.declared.fault.Fault.{Fault as FileFault};
ghost use Rattle.rules.specs.Book.{Book, new_book};
ghost use Rattle.printing.specs.Lines.{fault_line};
ghost use Rattle.runfile.specs.Run.{Request, request, IsRun, IsFault};
ghost use Rattle.answering.specs.Alone.{IsNth, AnswerPut, NthAnswered, AnsweredAlone, IsPut, FaultPut, Counted, Left};
ghost use Rattle.answering.specs.declared.unanswered.Unanswered.TheVariants.{Faulty};
ghost use Rattle.answering.specs.Answers.{AnsweredBy, Answered, LineAdded};
ghost use Rattle.rules.specs.History.{ask};

use crate::equipment::Equipment;
use crate::output::Output;
use crate::unanswered::Unanswered;
use history::{Inquiry, Lettered};
use laws::{KindLetter, StockLaws};
use printing::{print_fault, print_reply};
use rules::{Fault, Question, Refusal};
use runfile::RunFile;
use sheet::Sheet;

// How many bytes a buffer must have for a line of any figures.
const ROOM: usize = 64;

/// Answers run files, one after another: a sheet, what was read of a file beside it, and the lines of its answers. All of it lies in
/// the value itself, which wants no memory.
#[derive(Drop)]
pub struct Reckoner {
    sheet: Sheet,
    file: RunFile,
    output: Output,
}

impl Reckoner {
    /// A reckoner that has read no file.
    pub fn new() -> Reckoner
        ensures sheet { result.sheet ≡ new_book }
        ensures file { result.file ≡ None }
        ensures output { result.output ≡ [] }
    {
        Reckoner {
            sheet: Sheet::new(),
            file: RunFile::new(),
            output: Output::new(),
        }
    }

    /// Reads a run file and answers its questions, a line each; of a file with a fault there is one line, which tells the fault.
    pub fn answer<E: Equipment>(&mut self, text: &[u8], equipment: &E)
        ensures answered { Answered (E.stock equipment.now) text.now self.new.file self.new.sheet self.new.output }
        ensures accepts { (q : Request) (b : Book) → IsRun text.now q b → (self.new.file ≡ Some q) × (self.new.sheet ≡ b) }
        ensures refuses { (f : FileFault) → IsFault text.now f → (self.new.file ≡ None) × (self.new.output ≡ fault_line f) }
    {
        self.output.clear();
        match self.file.read(&mut self.sheet, text) {
            Ok(()) => self.answer_questions(equipment),
            Err(fault) => self.tell(fault),
        }
    }

    // Prints a fault as the only line.
    fn tell(&mut self, fault: Fault)
        requires { self.old.output ≡ [] }
        ensures output { self.new.output ≡ fault_line fault }
        ensures sheet { self.new.sheet ≡ self.old.sheet }
        ensures file { self.new.file ≡ self.old.file }
    {
        let Ok(()) = self.output.push_fault(fault) else {
            unreachable!()
        };
    }

    // Answers the questions of the file that was read.
    fn answer_questions<E: Equipment>(&mut self, equipment: &E)
        requires none { self.old.output ≡ [] }
        requires read { IsSome self.old.file }
        ensures answered { IfSome self.old.file (λ q. AnsweredBy (E.stock equipment.now q.points) q self.old.sheet self.new.output) }
        ensures sheet { self.new.sheet ≡ self.old.sheet }
        ensures file { self.new.file ≡ self.old.file }
    {
        let (Some(kind), Some(table)) = (self.file.kind(), self.file.table()) else {
            unreachable!()
        };
        let stock = equipment.equip(table);
        let questions = self.file.questions();
        answer_all(&mut self.output, &self.sheet, kind, &stock, questions);
    }

    /// Answers one question of a run file, counted from 1, and puts its line at the head of a buffer: the same line that it has among
    /// all. A buffer of fewer than 64 bytes is refused; in any other the bytes past the line are left. What stands in the buffer is
    /// left too where the file has no such question, or has a fault.
    pub fn answer_alone<E: Equipment>(
        &mut self,
        text: &[u8],
        number: u32,
        equipment: &E,
        out: &mut [u8],
    ) -> Result<usize, Unanswered>
        ensures answered { AnsweredAlone (E.stock equipment.now) text.now number out.old result out.new }
        ensures accepts { (q : Request) (b : Book) → IsRun text.now q b → 64 ≤ length out.old
            → NthAnswered (E.stock equipment.now q.points) q b number out.old result out.new }
        ensures refuses { (f : FileFault) → IsFault text.now f → 64 ≤ length out.old → result ≡ Err (Faulty f) }
        ensures left { 64 ≤ length out.old → Left text.now self.new.file self.new.sheet }
        ensures kept { length out.old < 64 → (self.new.file ≡ self.old.file) × (self.new.sheet ≡ self.old.sheet) }
        ensures output { self.new.output ≡ self.old.output }
    {
        if out.len() < ROOM {
            return Err(Unanswered::Refused(Refusal::ShortBuffer));
        }
        match self.file.read(&mut self.sheet, text) {
            Ok(()) => self.answer_nth(number, equipment, out),
            Err(fault) => Err(Unanswered::from(fault)),
        }
    }

    // Answers one question of the file that was read.
    fn answer_nth<E: Equipment>(
        &self,
        number: u32,
        equipment: &E,
        out: &mut [u8],
    ) -> Result<usize, Unanswered>
        requires read { IsSome self.now.file }
        requires room { 64 ≤ length out.old }
        ensures { IfSome self.now.file (λ q. NthAnswered (E.stock equipment.now q.points) q self.now.sheet number out.old result out.new) }
    {
        let (Some(kind), Some(table)) = (self.file.kind(), self.file.table()) else {
            unreachable!()
        };
        let Some(question) = nth(self.file.questions(), number) else {
            return Err(Unanswered::NotAsked);
        };
        let stock = equipment.equip(table);
        let asked = Lettered::new(&stock, kind, question);
        Ok(put_answer(out, &self.sheet, number, asked))
    }

    /// Puts the line that tells the fault of a text at the head of a buffer; of a run file there is none, and the buffer is left. A
    /// buffer of fewer than 64 bytes is refused; in any other the bytes past the line are left.
    pub fn put_fault(&mut self, text: &[u8], out: &mut [u8]) -> Result<Option<usize>, Refusal>
        ensures put { FaultPut text.now out.old result out.new }
        ensures accepts { (q : Request) (b : Book) → IsRun text.now q b → 64 ≤ length out.old → result ≡ Ok None }
        ensures refuses { (f : FileFault) → IsFault text.now f → 64 ≤ length out.old → IsPut (fault_line f) out.old result out.new }
        ensures left { 64 ≤ length out.old → Left text.now self.new.file self.new.sheet }
        ensures kept { length out.old < 64 → (self.new.file ≡ self.old.file) × (self.new.sheet ≡ self.old.sheet) }
        ensures output { self.new.output ≡ self.old.output }
    {
        if out.len() < ROOM {
            return Err(Refusal::ShortBuffer);
        }
        match self.file.read(&mut self.sheet, text) {
            Ok(()) => Ok(None),
            Err(fault) => Ok(Some(print_fault(out, fault)?)),
        }
    }

    /// Counts the questions of a run file, or tells the fault of the text.
    pub fn count_questions(&mut self, text: &[u8]) -> Result<usize, Fault>
        ensures counted { Counted text.now result }
        ensures accepts { (q : Request) (b : Book) → IsRun text.now q b → result ≡ Ok (length q.questions) }
        ensures refuses { (f : FileFault) → IsFault text.now f → result ≡ Err f }
        ensures left { Left text.now self.new.file self.new.sheet }
        ensures output { self.new.output ≡ self.old.output }
    {
        match self.file.read(&mut self.sheet, text) {
            Ok(()) => Ok(self.file.questions().len()),
            Err(fault) => Err(fault),
        }
    }

    /// The sheet with the train and the line of the file.
    pub fn sheet(&self) -> &Sheet
        ensures { result.now ≡ self.now.sheet }
    {
        &self.sheet
    }

    /// The lines of the answers.
    pub fn output(&self) -> &[u8]
        ensures { result.now ≡ self.now.output }
    {
        self.output.bytes()
    }
}

// Answers questions of a kind of brake and a stock by a sheet, a line each.
#[tactic(auto, using(crate::proofs::Turns::turn))]
fn answer_all<S: StockLaws>(
    output: &mut Output,
    sheet: &Sheet,
    kind: KindLetter,
    stock: &S,
    questions: &[Question],
)
    requires none { output.old ≡ [] }
    requires few { length questions.now ≤ 200 }
    ensures { AnsweredBy (S.meaning stock.now) (request kind [] questions.now) sheet.now output.new }
{
    for (i, question) in questions.iter().enumerate() {
        let asked = Lettered::new(stock, kind, *question);
        let Ok(()) = answer_one(output, sheet, i as u32 + 1, asked) else {
            unreachable!()
        };
    }
}

// The question of a number, counted from 1.
fn nth(questions: &[Question], number: u32) -> Option<Question>
    ensures { MatchOption result ((number ≡ 0) ⊎ (length questions.now < number)) (IsNth number questions.now) }
{
    let i = number.checked_sub(1)?;
    questions.get(i as usize).copied()
}

// Answers a question by a sheet, and puts the line of the reply at the head of a buffer.
fn put_answer<Q: Inquiry + Copy>(out: &mut [u8], sheet: &Sheet, number: u32, question: Q) -> usize
    requires { 64 ≤ length out.old }
    ensures { AnswerPut sheet.now (ask (Q.inquiry question)) number out.old result out.new }
{
    let Ok(length) = print_reply(out, number, question.put(sheet)) else {
        unreachable!()
    };
    length
}

// Answers a question by a sheet, and prints the reply behind the number of the question.
fn answer_one<Q: Inquiry + Copy>(
    output: &mut Output,
    sheet: &Sheet,
    number: u32,
    question: Q,
) -> Result<(), Refusal>
    ensures { MatchResult result
        (λ _. LineAdded sheet.now (ask (Q.inquiry question)) number output.old output.new)
        (λ e. (12800 < length output.old + 64) × (output.new ≡ output.old)) }
{
    output.push_reply(number, question.put(sheet))
}
