ghost use Rattle.answering.specs.Worked.{WorkedRunFiles};

/// A run file and its answers, and three files with a fault, are what is worked out for them by hand.
pub fn run_files_are_worked()
    ensures { WorkedRunFiles }
{}
