// Checked figures: laws, kinds of brake and grades at known places, stops from one step to many, and every refusal.
#![tactic(auto)]

mod laws_read;
mod lines;
mod refusals;
mod stops;

use std::io;

fn main(rt: HostRuntime) -> io::Result<()> {
    laws_read::friction(&rt)?;
    laws_read::drags(&rt)?;
    laws_read::kinds(&rt)?;
    lines::grades(&rt)?;
    stops::example_train(&rt)?;
    stops::by_kind(&rt)?;
    stops::window_ends(&rt)?;
    stops::long_stops(&rt)?;
    stops::alone(&rt)?;
    refusals::every_refusal(&rt)
}
