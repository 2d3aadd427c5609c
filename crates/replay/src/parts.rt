// The loop over a file of records, part by part. Nothing can be said of what a file holds, so the contracts speak
// of one part that was read.
ghost use Rattle.std.specs.Prelude.{◌≤◌};
ghost use Rattle.replay.specs.Parts.{IsFront};

use crate::leaves::{Leaf, check, size, start};
use crate::records::Carry;
use report::input::{fill, read_full};
use std::io::Read;

// A file may have no end, as a device has none: no more parts than these are read.
const PARTS_MOST: usize = 1000;

// What the buffer of a part holds.
const PART_MOST: usize = 0x10000;

// Why the records of a file are not all equal: the number, from 1, of the first that differs; or a file that is no whole
// number of records, has no end or cannot be read.
#[derive(Clone, Copy)]
pub enum Unequal {
    Differs(u64),
    Unread,
}

// The records at the front of a part that are equal, and what the last of them hands on.
#[derive(Clone, Copy)]
pub struct Front {
    pub equal: usize,
    pub carry: Carry,
}

#[derive(Clone, Copy)]
pub struct Part {
    pub bytes: usize,
    pub front: Front,
}

fn front_of(leaf: Leaf, part: &[u8], carry: Carry) -> Front
    ensures { IsFront leaf part.now (record { lfsr = carry.lfsr; counter = carry.counter }) result.equal (record { lfsr = result.carry.lfsr; counter = result.carry.counter }) }
{
    let n = size(leaf);
    let count = part.len() / n;
    let mut handed = carry;
    for equal in 0..count {
        let at = equal * n;
        let c = check(leaf, &part[at..at + n], handed);
        if !c.equal {
            return Front {
                equal,
                carry: handed,
            };
        }
        handed = c.carry;
    }
    Front {
        equal: count,
        carry: handed,
    }
}

// Whole records, so that none is cut where two parts meet.
fn part_size(leaf: Leaf) -> usize
    ensures { result ≤ 0x10000 }
{
    let n = size(leaf);
    PART_MOST / n * n
}

fn read_part<R: Read>(file: &mut R, leaf: Leaf, carry: Carry) -> Part
    ensures { (result.bytes ≤ 0x10000) × (result.front.equal ≤ result.bytes) }
{
    let mut buffer = [0u8; 65536];
    let most = part_size(leaf);
    let bytes = read_full(file, &mut buffer[..most]);
    let front = front_of(leaf, &buffer[..bytes], carry);
    Part { bytes, front }
}

// A part that is not full is the last one, unless a read failed, and then the next one does not say "end" either.
fn ended<R: Read>(file: &mut R) -> bool {
    let mut more = [0u8; 1];
    fill(file, &mut more) == Some(0)
}

// So many records, all equal.
pub fn replay<R: Read>(file: &mut R, leaf: Leaf) -> Result<u64, Unequal> {
    let n = size(leaf);
    let most = part_size(leaf);
    let mut equal: u64 = 0;
    let mut carry = start();
    for parts in 0..PARTS_MOST {
        let p = read_part(file, leaf, carry);
        equal += p.front.equal as u64;
        if p.front.equal < p.bytes / n {
            return Err(Unequal::Differs(equal + 1));
        }
        if p.bytes < most {
            if p.bytes % n == 0 && ended(file) {
                return Ok(equal);
            }
            return Err(Unequal::Unread);
        }
        carry = p.front.carry;
    }
    Err(Unequal::Unread)
}
