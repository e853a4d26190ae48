ghost use Rattle.std.specs.Prelude.{ℕ, List};
ghost use Rattle.text.specs.Outcomes.{OneOutcome};
ghost use Rattle.runfile.specs.Run.{run_plan};

/// No text has two faults, none is a run file and at fault, and none is the writing of two runs. (That each is one or the other
/// is what `RunFile::read` shows.)
pub fn texts_have_one_outcome()
    ensures { (text : List ℕ) → OneOutcome run_plan text }
{}
