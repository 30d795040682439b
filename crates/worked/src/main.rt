// The worked history of document 01 by calls of the code: W1 to W11, the 64 begins, images saved and restored, and each refusal of the calls on a monitor;
// stored states that no call made are reached by putting numbers into them.
#![tactic(auto)]

use std::io;

fn main(rt: HostRuntime) -> io::Result<()> {
    commands::serve(&mut rt.stdin(), &mut rt.stdout())
}
