use laws::Law;
use report::ReadingAt;
use rules::Refusal;
use std::{fmt, io};

/// A line for what is read of a law at each of some places, as far as these are within their range.
pub fn tell_readings<L: Law>(
    rt: &HostRuntime,
    label: &str,
    law: &L,
    places: &[Result<L::Place, Refusal>],
) -> io::Result<()>
where
    L::Place: fmt::Display,
{
    for place in places {
        if let Ok(at) = place {
            println!(rt; "{label} {}", ReadingAt::of(law, *at))?;
        }
    }
    Ok(())
}
