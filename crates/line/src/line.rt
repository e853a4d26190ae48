ghost use Rattle.rules.specs.Book.{line_length};
ghost use Rattle.rules.specs.Grade.{lowest_low_grade};
ghost use Rattle.rules.specs.Questions.{appending, LawfulSections};
ghost use Rattle.rules.specs.Refusals.{told, first_no, unless};
ghost use Rattle.rules.specs.Window.{window};
ghost use Rattle.std.specs.Int.{int_min};
ghost use Rattle.std.specs.Prelude.{◌≡◌, ◌≤◌, ◌≤ℤ◌, pos, negsuc, [], ◌∷◌, ◌++◌, ◌&&◌, length, nat_le, slice_get, MatchOption};

use crate::section::{Blank, Section};
use arrayvec::ArrayVec;
use rules::{Refusal, SectionFigures};
use std::marker::Model;
use units::Grade;

// How many sections a line may have.
const MOST_SECTIONS: usize = 200;

/// The sections of a line from its start, at most 200 and each of them lawful. They lie in the line itself, so that it wants
/// no memory.
#[derive(Drop)]
pub struct Line {
    sections: ArrayVec<Section, MOST_SECTIONS, Blank>,
}

impl Model for Line {
    ghost use Rattle.std.specs.Prelude.{List};
    ghost use Rattle.rules.specs.declared.figures.SectionFigures.{SectionFigures};
    ghost use Rattle.rules.specs.Questions.{LawfulSections};

    ghost Value = { List SectionFigures };

    ghost view = { λ l. l.sections.items };

    ghost invariant = { λ l. LawfulSections l.sections.items };
}

impl Line {
    /// A line without sections.
    pub fn new() -> Line
        ensures { result ≡ [] }
    {
        Line {
            sections: ArrayVec::new_in(Blank),
        }
    }

    /// How many sections there are.
    pub fn len(&self) -> usize
        ensures value { result ≡ length self.now }
        ensures most { result ≤ 200 }
    {
        self.sections.len()
    }

    /// The sections from the start of the line.
    pub fn sections(&self) -> &[Section]
        ensures sections { result.now ≡ self.now }
        ensures few { length self.now ≤ 200 }
        ensures lawful { LawfulSections self.now }
    {
        &self.sections
    }

    /// Section k, counted from 0 at the start of the line.
    pub fn section(&self, k: usize) -> Option<Section>
        ensures { result ≡ slice_get self.now k }
    {
        self.sections.get(k).copied()
    }

    /// Appends a section at the end of the line.
    #[tactic(auto, using(crate::proofs::Sections::lawful_push))]
    pub fn append(&mut self, figures: SectionFigures) -> Result<(), Refusal>
        ensures answer { told result ≡ first_no (appending self.old figures) }
        ensures held { self.new ≡ unless (told result) (self.old ++ figures ∷ []) self.old }
    {
        let section = Section::try_from(figures)?;
        self.sections
            .try_push(section)
            .map_err(|_| Refusal::LineFull)
    }

    /// Lifts all sections.
    pub fn lift(&mut self)
        ensures { self.new ≡ [] }
    {
        self.sections.clear();
    }

    /// The length of the line in metres.
    pub fn metres(&self) -> u32
        ensures value { result ≡ line_length self.now }
        ensures most { result ≤ 4000000 }
    {
        self.sections().iter().map(|section| section.metres()).sum()
    }

    /// The lowest low grade of the sections that share a point with the stretch from one place to another, every end
    /// counted; level where no section does.
    pub fn lowest_low_grade(&self, from: u32, to: u32) -> Grade
        ensures value { result ≡ lowest_low_grade (window from to self.now) }
        ensures least { negsuc 39999 ≤ℤ result }
        ensures most { result ≤ℤ pos 47000 }
        ensures lawful { LawfulSections self.now }
    {
        let mut start: u32 = 0;
        let mut lowest: Option<Grade> = None;
        for section in self.sections.iter() {
            let end = start + section.metres();
            if meets(start, end, from, to) {
                lowest = Some(lower_of(lowest, section.low_grade()));
            }
            start = end;
        }
        lowest.unwrap_or(Grade::from_milli(0))
    }
}

// Whether a section from start to end shares a point with the stretch from..to.
fn meets(start: u32, end: u32, from: u32, to: u32) -> bool
    ensures { result ≡ (nat_le start to && nat_le from end) }
{
    start <= to && from <= end
}

// The lower of a grade and the lowest before it, if any.
fn lower_of(lowest: Option<Grade>, grade: Grade) -> Grade
    ensures { MatchOption lowest (result ≡ grade) (λ old. result ≡ int_min old grade) }
{
    lowest.map_or(grade, |old| old.lower(grade))
}
