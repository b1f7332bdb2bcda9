// The listing program: lists standard input.
#![tactic(auto)]

use std::io;

fn main(rt: HostRuntime) -> io::Result<()> {
    console::run(&mut rt.stdin(), &mut rt.stdout())
}
