// Every law and layer read at known speeds, below and above, and stops by layers alone.
#![tactic(auto)]

mod drags;
mod frictions;
mod layered;
mod pulls;
mod telling;

use std::io;

fn main(rt: HostRuntime) -> io::Result<()> {
    frictions::blocks(&rt)?;
    frictions::layers(&rt)?;
    pulls::adhesion(&rt)?;
    pulls::none(&rt)?;
    pulls::tables(&rt)?;
    pulls::layers(&rt)?;
    drags::given(&rt)?;
    drags::layers(&rt)?;
    layered::stops(&rt)
}
