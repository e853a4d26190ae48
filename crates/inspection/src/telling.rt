use crate::calls::{Noted, Pulled};
use crate::show::show_sheet;
use history::Reply;
use report::StopWithAllowance;
use rules::StopFigures;
use sheet::Sheet;
use std::io;

/// Tells a history that was performed: each call with its reply, and the sheet that is left.
pub fn tell_history(
    rt: &HostRuntime,
    name: &str,
    sheet: &Sheet,
    stock: &Pulled,
    calls: &[Noted<'_>],
) -> io::Result<()> {
    println!(rt; "{name}")?;
    tell_calls(rt, stock, calls)?;
    show_sheet(rt, sheet)
}

/// Tells calls that were performed, each with its reply.
pub fn tell_calls(rt: &HostRuntime, stock: &Pulled, calls: &[Noted<'_>]) -> io::Result<()> {
    for entry in calls.iter() {
        tell_entry(rt, stock, entry)?;
    }
    Ok(())
}

// A stop is told with by how much at most its distance exceeds the exact sum.
fn tell_entry(rt: &HostRuntime, stock: &Pulled, entry: &Noted<'_>) -> io::Result<()> {
    let call = &entry.call;
    match entry.reply {
        Some(Reply::Stops(figures)) => {
            println!(rt;
                "{call}: {}",
                StopWithAllowance::of(stock, StopFigures::from(figures))
            )
        }
        Some(reply) => println!(rt; "{call}: {reply}"),
        None => println!(rt; "{call}: not performed"),
    }
}
