// fitlist: reads a job from standard input and prints its pieces and where its words begin and end, or why it is refused
// (document 01, "Tally, peak, job file").
#![tactic(auto)]

use std::io;

fn main(rt: HostRuntime) -> io::Result<()> {
    job_io::run(&rt)
}
