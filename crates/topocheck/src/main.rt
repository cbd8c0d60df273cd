//! Checks a file of cabling topology on standard input and prints one line.
#![tactic(auto)]

use std::io;
use std::io::Read;
use verdict::LONGEST;

fn main(rt: HostRuntime) -> io::Result<()> {
    let mut bytes = Vec::new(rt.alloc());
    rt.stdin().take(LONGEST as u64 + 1).read_to_end(&mut bytes)?;
    let verdict = verdict::judge(bytes.as_slice());
    println!(rt; "{verdict}")
}
