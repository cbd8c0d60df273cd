//! Builds a small campus in a heap and prints a line for each call: what was asked and what was answered.
#![tactic(auto)]

mod asks;
mod day;

use day::COUNT;
use daybook::Line;
use layout::Cabling;
use life::{Answer, live};
use std::io;
use store::ByteStore;

/// The bytes of the store: four regions of 1,024 words, and two bytes that make up no word.
const BYTES: usize = 4 * 1024 * 4 + 2;

fn main(rt: HostRuntime) -> Result<(), io::Error> {
    let store = ByteStore::new(vec![in rt.alloc(); 0u8; BYTES]?);
    let calls = day::calls();
    let mut answers = [Ok(Answer::Begun); COUNT];
    let _heap = live::<ByteStore, Cabling>(store, &calls, &mut answers);
    for (call, answer) in calls.into_iter().zip(answers) {
        let line = Line { call, answer };
        println!(rt; "{line}")?;
    }
    Ok(())
}
