// The listing program on exactly 4,096 bytes.
#![tactic(auto)]

use std::io;

fn main(rt: HostRuntime) -> io::Result<()> {
    console::run(&mut rt.stdin(), &mut rt.stdout())
}
