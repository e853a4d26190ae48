ghost use Rattle.std.specs.Prelude.{◌≡◌, ℕ, ◌+◌, ◌<◌, ◌≤◌, [], ◌∷◌, ◌++◌, length, MatchResult};
ghost use Rattle.text.specs.Sorts.{headings, Next, NextFault, Begins, EntriesFault, Read, Wrong, LinesSay};

use crate::entry::{Entry, Store};
use crate::malformed::Malformed;
use crate::numbers::number;
use crate::text::Text;
use rules::{Fault, Refusal};

impl<'a> Text<'a> {
    /// Reads a section into a store that is cleared first: a heading, and as many entries as it tells. What is handed back is the
    /// text behind the section. The first line at fault ends the reading; the store then holds the entries of the lines before it,
    /// and no others.
    pub fn section<X: Entry, D: Store<X>>(mut self, into: &mut D) -> Result<Text<'a>, Fault>
        ensures read { MatchResult result
            (λ t. Read X.sort self.entry.rest (D.held into.new) t.rest
            × (t.line ≡ self.entry.line + (length (D.held into.new) + 1)))
            (λ f. (right : ℕ) × Wrong X.sort self.entry.rest right f.refusal
            × LinesSay X.sort self.entry.rest right (D.held into.new)
            × (f.line ≡ self.entry.line + (right + 1))) }
        ensures others { D.emptied into.new ≡ D.emptied into.old }
    {
        into.clear();
        let count = self.count::<X>()?;
        self.entries(count, into)?;
        Ok(self)
    }

    // The count on the heading's line.
    fn count<X: Entry>(&mut self) -> Result<u32, Fault>
        ensures { MatchResult result
            (λ n. Next (headings X.sort) [] self.old.rest n self.new.rest × (self.new.line ≡ self.old.line + 1))
            (λ f. NextFault (headings X.sort) [] self.old.rest f.refusal × (f.line ≡ self.old.line + 1)) }
    {
        let text = self.next_line()?;
        let line = self.number();
        let Some(rest) = X::after_name(text) else {
            return Err(Malformed::on(line));
        };
        let Ok(count) = number(rest) else {
            return Err(Malformed::on(line));
        };
        let (least, most) = X::limits();
        if count < least || most < count {
            return Err(self.fault(Refusal::WrongCount));
        }
        Ok(count)
    }

    // As many entries as are due, into a store without any.
    fn entries<X: Entry, D: Store<X>>(&mut self, due: u32, into: &mut D) -> Result<(), Fault>
        requires none { D.held into.old ≡ [] }
        requires few { due ≤ X.sort.most }
        ensures read { MatchResult result
            (λ _. (length (D.held into.new) ≡ due) × Begins X.sort self.old.rest (D.held into.new) self.new.rest
            × (self.new.line ≡ self.old.line + due))
            (λ f. (e : EntriesFault X.sort self.old.rest due (length (D.held into.new)) f.refusal)
            × (e.done ≡ D.held into.new) × (f.line ≡ self.old.line + (length (D.held into.new) + 1))) }
        ensures others { D.emptied into.new ≡ D.emptied into.old }
    {
        for _ in 0..due {
            self.entry::<X, D>(into)?;
        }
        Ok(())
    }

    // The entry on the next line, behind those in the store.
    fn entry<X: Entry, D: Store<X>>(&mut self, into: &mut D) -> Result<(), Fault>
        requires few { length (D.held into.old) < X.sort.most }
        ensures read { MatchResult result
            (λ _. (x : X) × Next X.sort (D.held into.old) self.old.rest x self.new.rest
            × (D.held into.new ≡ D.held into.old ++ x ∷ []) × (self.new.line ≡ self.old.line + 1))
            (λ f. NextFault X.sort (D.held into.old) self.old.rest f.refusal × (f.line ≡ self.old.line + 1)
            × (D.held into.new ≡ D.held into.old)) }
        ensures others { D.emptied into.new ≡ D.emptied into.old }
    {
        let text = self.next_line()?;
        let entry = X::read(self.number(), text)?;
        match into.store(entry) {
            Ok(()) => Ok(()),
            Err(refusal) => Err(self.fault(refusal)),
        }
    }
}
