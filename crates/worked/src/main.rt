//! Prints level, parent's number and parent port of the switch with UID 2 in the description on standard input.
#![tactic(auto)]

use planner::Plan;
use std::io;
use std::io::Write;
use streams::read_full;

// The digit of a number below 10, else a question mark: each number prints one character.
fn digit(x: u8) -> u8 {
    if x < 10 { b'0' + x } else { b'?' }
}

fn main(rt: HostRuntime) -> io::Result<()> {
    // As in `plan`: a fixed size, and nothing is allocated.
    let mut kept = [0u8; Plan::KEPT];
    let n = read_full(&mut rt.reader(), &mut kept)?;
    match planner::where_stands(&kept[..n], 2) {
        Ok(s) => {
            let line = [
                digit(s.level),
                b' ',
                digit(s.parent),
                b' ',
                digit(s.port),
                b'\n',
            ];
            io::writer(&rt).write_all(&line)
        }
        Err(_) => io::writer(&rt).write_all(b"refused\n"),
    }
}
