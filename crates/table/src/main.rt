//! Prints the bracket table of a shape "k n": a header, and the line of every entry.

#![tactic(auto)]

mod lines;
mod report;

use console::run;
use report::Brackets;
use std::io;

fn main(rt: HostRuntime) -> io::Result<()> {
    run(&Brackets, rt.alloc(), rt.stdin(), &mut rt.stdout())
}
