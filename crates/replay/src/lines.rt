// One line for a file of records: its name, and what replaying it came to.
use crate::leaves::Leaf;
use crate::parts::{Unequal, replay};
use report::input::opened;
use report::lines;
use report::lines::say;
use std::rt::Files;

fn replay_file(rt: &impl Files, leaf: Leaf, name: &[u8]) -> Result<u64, Unequal> {
    let mut found = opened(rt, name).ok_or(Unequal::Unread)?;
    replay(&mut found, leaf)
}

fn told(out: &impl Print, number: u64, words: &[u8]) {
    lines::number(out, number);
    say(out, words);
}

pub fn line(rt: &(impl Files + Print), leaf: Leaf, name: &[u8]) {
    say(rt, name);
    say(rt, b" ");
    match replay_file(rt, leaf, name) {
        Ok(number) => {
            told(rt, number, b" equal\n");
        }
        Err(Unequal::Differs(number)) => {
            told(rt, number, b" differs\n");
        }
        Err(Unequal::Unread) => {
            say(rt, b"cannot be read\n");
        }
    }
}
