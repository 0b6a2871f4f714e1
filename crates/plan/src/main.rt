//! Prints the plan of the description on standard input, of which it keeps at most 2,058 bytes.
#![tactic(auto)]

use planner::Plan;
use std::io;
use std::io::Write;
use streams::read_full;

fn main(rt: HostRuntime) -> io::Result<()> {
    // What is kept has a fixed size, and nothing is allocated.
    let mut kept = [0u8; Plan::KEPT];
    let n = read_full(&mut rt.reader(), &mut kept)?;
    let mut text = [0u8; Plan::CHARACTERS];
    let length = planner::print(&kept[..n], &mut text);
    io::writer(&rt).write_all(&text[..length])
}
