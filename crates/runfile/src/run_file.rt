ghost use Rattle.std.specs.Prelude.{◌≡◌, ◌≤◌, true, ⊤, [], length, Some, None, Ok, Err, MatchResult, Option};
ghost use Rattle.std.specs.Option.{option_map, IfSome};
ghost use Rattle.rules.specs.declared.fault.Fault.{Fault as FileFault};
ghost use Rattle.rules.specs.Book.{Book};
ghost use Rattle.rules.specs.Table.{lawful_table};
ghost use Rattle.pull_table.specs.Tables.{points_of};
ghost use Rattle.runfile.specs.Performed.{PerformedFrom};
ghost use Rattle.runfile.specs.Run.{Request, request, questions_of, IsRun, IsFault, ReadFrom};

use crate::head::read_head;
use crate::points::{PointLine, Points};
use crate::questions::{QuestionLine, Questions};
use crate::sections::SectionLine;
use crate::vehicles::VehicleLine;
use history::{Exchange, Inquiry, perform};
use laws::KindLetter;
use pull_table::PullTable;
use rules::{Fault, Question};
use sheet::Sheet;
use std::marker::Model;
use text::Text;

/// What was read of a run file beside the sheet: the kind of brake, the points of the pull table, and the questions; nothing
/// where no file was read yet, or the last one was refused. All of it lies in the value itself.
#[derive(Drop)]
pub struct RunFile {
    kind: Option<KindLetter>,
    points: Points,
    questions: Questions,
}

impl Model for RunFile {
    ghost Value = { Option Request };

    ghost view = { λ f. option_map (λ k. request k f.points f.questions) f.kind };

    ghost invariant = { λ f. IfSome f.kind (λ _. lawful_table f.points ≡ true) };
}

impl RunFile {
    /// A record that has read no file.
    pub fn new() -> RunFile
        ensures { result ≡ None }
    {
        RunFile {
            kind: None,
            points: Points::new(),
            questions: Questions::new(),
        }
    }

    /// The kind of brake of the file.
    pub fn kind(&self) -> Option<KindLetter>
        ensures { result ≡ option_map (λ q. q.kind) self.now }
    {
        self.kind
    }

    /// The pull table of the file.
    #[tactic(auto, using(rules::proofs::Breaks::lawful_unbroken))]
    pub fn table(&self) -> Option<PullTable>
        ensures { option_map points_of result ≡ option_map (λ q. q.points) self.now }
    {
        self.kind?;
        let Ok(table) = PullTable::new(self.points.points()) else {
            unreachable!()
        };
        Some(table)
    }

    /// The questions of the file in their order.
    pub fn questions(&self) -> &[Question]
        ensures questions { result.now ≡ questions_of self.now }
        ensures few { length result.now ≤ 200 }
    {
        match self.kind {
            Some(_) => self.questions.questions(),
            None => &[],
        }
    }

    /// Reads a run file: its train, line and braking distance onto the sheet, whatever that held before, and the rest into this.
    /// A file with a fault leaves an empty sheet, and nothing read.
    pub fn read(&mut self, sheet: &mut Sheet, text: &[u8]) -> Result<(), Fault>
        ensures outcome { ReadFrom text.now result self.new sheet.new }
        ensures accepts { (q : Request) (b : Book) → IsRun text.now q b → (result ≡ Ok tt) × (self.new ≡ Some q) × (sheet.new ≡ b) }
        ensures refuses { (f : FileFault) → IsFault text.now f → result ≡ Err f }
    {
        self.kind = None;
        match read_sections(&mut self.points, &mut self.questions, sheet, text) {
            Ok(kind) => {
                self.kind = Some(kind);
                Ok(())
            }
            Err(fault) => {
                sheet.clear();
                Err(fault)
            }
        }
    }

    /// Reads a run file, and performs calls in their order on its train and line, with a reply beside each. Of a file with a fault
    /// none is performed. Questions bring their own kind of brake and stock; to ask with those of the file, read it first and then
    /// call `history::perform`.
    pub fn perform<Q: Inquiry>(
        &mut self,
        sheet: &mut Sheet,
        text: &[u8],
        calls: &mut [Exchange<Q>],
    ) -> Result<(), Fault>
        ensures { PerformedFrom Q.inquiry text.now calls.old result calls.new self.new sheet.new }
    {
        match self.read(sheet, text) {
            Ok(()) => {
                perform(sheet, calls);
                Ok(())
            }
            Err(fault) => Err(fault),
        }
    }
}

// Reads the sections of a run file, each to where it belongs.
fn read_sections(
    points: &mut Points,
    questions: &mut Questions,
    sheet: &mut Sheet,
    text: &[u8],
) -> Result<KindLetter, Fault>
    ensures { MatchResult result (λ k. IsRun text.now (request k points.new questions.new) sheet.new) (IsFault text.now) }
{
    let (head, text) = read_head(Text::of(text)?)?;
    let Ok(()) = sheet.set_distance(head.distance) else {
        unreachable!()
    };
    let text = text.section::<PointLine, Points>(points)?;
    let text = text.section::<VehicleLine, Sheet>(sheet)?;
    let text = text.section::<SectionLine, Sheet>(sheet)?;
    let text = text.section::<QuestionLine, Questions>(questions)?;
    text.end()?;
    Ok(head.kind)
}
