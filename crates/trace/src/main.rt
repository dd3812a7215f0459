//! Prints start and length of each factor of a trace, under the reversed order of moves.

#![tactic(auto)]

mod report;

use console::run;
use report::Trace;
use std::io;

fn main(rt: HostRuntime) -> io::Result<()> {
    run(&Trace, rt.alloc(), rt.stdin(), &mut rt.stdout())
}
