ghost use Rattle.rules.specs.Figures.{CheckedFigures};
ghost use Rattle.rules.specs.Finer.{StepsFall};
ghost use Rattle.rules.specs.Examples.{PromisesApply};
ghost use Rattle.rules.specs.Promises.{ExactSumsAreFiner, StopsAreClose, StopsAreSafe};
ghost use Rattle.rules.specs.Refusals.{QuestionsDecideOnce};
ghost use Rattle.rules.specs.Stop.{EdgesAreCounted, EdgesAreSpeeds, LeastIsLeast};
ghost use Rattle.rules.specs.Fraction.{FiguresAreRoundedRight};
ghost use Rattle.rules.specs.Window.{WindowsAreTouched};
ghost use Rattle.rules.specs.Table.{TablesGoThroughPoints};
ghost use Rattle.rules.specs.Worked.{WorkedExamples};

/// The speed edges are 100 apart up to 500 and 50 apart above, and `edges_below` counts those below a speed.
pub fn edges_are_counted()
    ensures counted { EdgesAreCounted }
    ensures speeds { EdgesAreSpeeds }
{}

/// A figure rounded down is the greatest whole number that is not over it, and rounded up the least that is not under it.
pub fn figures_are_rounded_right()
    ensures { FiguresAreRoundedRight }
{}

/// A window has just the sections on which a place of its stretch lies.
pub fn windows_are_touched()
    ensures { WindowsAreTouched }
{}

/// The least force is one of the forces that it is taken of, and none of them is under it.
pub fn least_is_least()
    ensures { LeastIsLeast }
{}

/// A pull table goes through its points, straight from one to the next, and past the last of them there is no pull.
pub fn tables_go_through_points()
    ensures { TablesGoThroughPoints }
{}

/// Numbered questions are all answered "yes", or exactly one number refuses.
pub fn questions_decide_once()
    ensures { QuestionsDecideOnce }
{}

/// The steps of a stop fall from its speed to a stand, through each edge below that and no other speed.
pub fn steps_fall()
    ensures { StepsFall }
{}

/// No finer reckoning of a stop is longer than the distance that is answered.
pub fn stops_are_safe()
    ensures { StopsAreSafe }
{}

/// The exact sum of a stop is the distance of one of its finer reckonings, so the distance answered is never under it.
pub fn exact_sums_are_finer()
    ensures { ExactSumsAreFiner }
{}

/// The distance that is answered exceeds the exact sum by no more than the surplus promised, and the allowance in whole
/// millimetres is never under that.
pub fn stops_are_close()
    ensures { StopsAreClose }
{}

/// There are stops to which the promises apply, each with a finer reckoning.
pub fn promises_apply()
    ensures { PromisesApply }
{}

/// Laws, layers, grades and stops have their known values.
pub fn figures_are_checked()
    ensures figures { CheckedFigures }
    ensures examples { WorkedExamples }
{}
