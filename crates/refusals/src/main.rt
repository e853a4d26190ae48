// Every refusal with its number, each beside a call that just passes.
#![tactic(auto)]

mod lines;
mod masses;
mod speeds;
mod stops;
mod trains;

use report::drags_at_limits;
use std::io;

fn main(rt: HostRuntime) -> io::Result<()> {
    trains::vehicles(&rt)?;
    trains::long_train(&rt)?;
    lines::sections(&rt)?;
    lines::long_line(&rt)?;
    lines::braking_distances(&rt)?;
    println!(&rt; "laws")?;
    for drag in drags_at_limits() {
        println!(&rt; "{drag}")?;
    }
    stops::out_of_range(&rt)?;
    stops::weak_brakes(&rt)?;
    speeds::speeds(&rt)?;
    masses::masses(&rt)
}
