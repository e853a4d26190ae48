// Answers the questions of a run file: standard input, one call, standard output.
#![tactic(auto)]

use answering::run;
use equipment::NineTenths;
use std::io;

fn main(rt: HostRuntime) -> io::Result<()> {
    run(&rt, &NineTenths)
}
