// The listing program on the lesson of docs/COURSE.md.
#![tactic(auto)]

use std::io;

fn main(rt: HostRuntime) -> io::Result<()> {
    console::run(&mut rt.stdin(), &mut rt.stdout())
}
