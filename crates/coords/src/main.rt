//! Prints the coordinates of uv - vu for a line "k u v".

#![tactic(auto)]

mod difference;
mod lines;
mod products;
mod reading;
mod report;

use console::run;
use report::BracketOfWords;
use std::io;

fn main(rt: HostRuntime) -> io::Result<()> {
    run(&BracketOfWords, rt.alloc(), rt.stdin(), &mut rt.stdout())
}
