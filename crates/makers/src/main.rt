// Every maker of a law or a layer with figures just inside and outside its ranges, and the points that break a table.
#![tactic(auto)]

mod makes;
mod tables;

use std::io;

fn main(rt: HostRuntime) -> io::Result<()> {
    makes::laws(&rt)?;
    makes::layers(&rt)?;
    tables::breaks(&rt)?;
    tables::long_tables(&rt)
}
