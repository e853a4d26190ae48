ghost use Rattle.std.specs.Prelude.{◌≡◌, ℕ, List, [], ◌∷◌, ◌++◌, MatchOption};
ghost use Rattle.text.specs.Numerals.{LineRead};
ghost use Rattle.text.specs.Sorts.{Sort, Says, NamedBefore, Stored};

use rules::{Fault, Refusal};

/// What one line of a section says; one type for each sort of line.
pub trait Entry: Sized {
    // how lines of this sort are written, and which are lawful
    ghost sort: { Sort Self };

    /// What stands after the name and the space in a heading of this sort; none where the line is no such heading.
    fn after_name(line: &[u8]) -> Option<&[u8]>
        ensures { MatchOption result
            ((rest : List ℕ) → NamedBefore sort line.now rest → ⊥)
            (λ rest. NamedBefore sort line.now rest.now) };

    /// The least and the greatest count that a heading may tell.
    fn limits() -> (u32, u32)
        ensures { result ≡ (sort.least, sort.most) };

    /// What a line says; else the fault of the line, which is counted from 1.
    fn read(line: u32, text: &[u8]) -> Result<Self, Fault>
        ensures { LineRead line (Says sort text.now) result };
}

/// What holds the entries of one sort.
pub trait Store<X: Entry> {
    // the entries in it
    ghost held: { Self → List X };

    // it without them, all else as it is
    ghost emptied: { Self → Self };

    /// Takes all entries out.
    fn clear(&mut self)
        ensures emptied { self.new ≡ emptied self.old }
        ensures nothing { held self.new ≡ [] }
        ensures others { emptied self.new ≡ emptied self.old };

    /// Puts an entry behind the others; refuses one that is not lawful after them, and may refuse one where there are as many
    /// as a section may have.
    fn store(&mut self, x: X) -> Result<(), Refusal>
        ensures stored { Stored X.sort held self.old x result self.new }
        ensures others { emptied self.new ≡ emptied self.old };
}
