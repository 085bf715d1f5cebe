// Lists the files that its arguments name, each after a line with its name.
#![tactic(auto)]

use input::{LONGEST_NAME, argument, open_named};
use listed::list_from;
use std::io;
use std::rt::Files;

// The listing of a file, by its name. For one that does not open there is a line on standard error in its place.
fn list_named(rt: &(impl Files + Print + Eprint), name: &[u8]) -> io::Result<()> {
    if let Some(mut file) = open_named(rt, name)? {
        rt.write_all(name)?;
        println!(rt)?;
        list_from(&mut file, &mut io::writer(rt))?;
    }
    Ok(())
}

fn main(rt: HostRuntime) -> io::Result<()> {
    let mut buffer = [0u8; LONGEST_NAME];
    // By their numbers: std's iterator of arguments copies all onto the heap, and gives none where one of them is not text.
    for i in 1..usize::MAX {
        let Some(name) = argument(&rt, i, &mut buffer) else {
            break;
        };
        list_named(&rt, name)?;
    }
    Ok(())
}
