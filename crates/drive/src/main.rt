// Any script of commands on standard input.
#![tactic(auto)]

use std::io;

fn main(rt: HostRuntime) -> io::Result<()> {
    commands::serve(&mut rt.stdin(), &mut rt.stdout())
}
