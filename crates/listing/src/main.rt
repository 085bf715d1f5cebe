// Lists the cube on standard input.
#![tactic(auto)]

use listed::list_from;
use std::io;

fn main(rt: HostRuntime) -> io::Result<()> {
    list_from(&mut rt.stdin(), &mut io::writer(&rt))
}
