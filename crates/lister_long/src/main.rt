// The listing program on 4,097 bytes, one too many.
#![tactic(auto)]

use std::io;

fn main(rt: HostRuntime) -> io::Result<()> {
    console::run(&mut rt.stdin(), &mut rt.stdout())
}
