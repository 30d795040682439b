// Cases whose answers were written by hand from the paper: every refusal of sheets and paths, edge lengths, and inputs that tell readings apart.
#![tactic(auto)]

use std::io;

fn main(rt: HostRuntime) -> io::Result<()> {
    commands::serve(&mut rt.stdin(), &mut rt.stdout())
}
