// Reads a record, a log's size and a cursor, then a device, calls and their tape from standard input; makes the calls in turn on them, and prints
// what callrun does, and the lent lists and the log whole.
#![tactic(auto)]

use std::io;

mod given;

fn main(rt: HostRuntime) -> io::Result<()> {
    let mut input = [0; 32768];
    let n = text::read_full(&mut rt.stdin(), &mut input)?;
    given::print(&rt, &input[..n])
}
