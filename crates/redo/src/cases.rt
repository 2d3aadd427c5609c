// The file of pairs: the number of a RAM image, the mask of the named voices, what is lent, which records are unfit; then five
// logs, each behind its length: both preludes, the old log, the new one, the tail.
use crate::redone::{Asked, Pair, redo, spoiled};
use dsp::Dsp;
use report::cases::{IMAGES, image, stops, stored_log};
use report::input::read_full;
use report::lines::{numbered, say};
use report::runs::run_whole;
use std::io::Read;
use std::rt::Files;

const HEAD: usize = 4;

// Of a log that has its end record alone.
const END_SIZE: usize = 2;

// The record that a run gave back, and how long its log was.
#[derive(Clone, Copy)]
struct Back {
    size: usize,
    dsp: Dsp,
}

// Whether there was a pair to rework.
pub fn next<R: Read>(rt: &(impl Files + Print), file: &mut R, number: u64) -> bool {
    let mut head = [0u8; 4];
    let got = read_full(file, &mut head);
    if got == 0 {
        return false;
    }
    let [ram, named, lent, unfit] = head;
    if got < HEAD || ram >= IMAGES {
        return stops(rt);
    }
    let asked = Asked {
        ram,
        named,
        lent,
        unfit,
    };
    numbered(rt, b"CASE ", number);
    match pair(rt, file, asked) {
        Some(()) => true,
        None => stops(rt),
    }
}

// A pair is reworked, and the tail runs from the record that the rework gave back; none where the file stops inside it.
fn pair<R: Read>(rt: &(impl Files + Print), file: &mut R, asked: Asked) -> Option<()> {
    let p = run_next(rt, file, asked.ram, false, None)?;
    let q = run_next(rt, file, asked.ram, false, None)?;
    let mut old = [0u8; 65536];
    let n = stored_log(file, &mut old)?;
    let mut new = [0u8; 65536];
    let m = stored_log(file, &mut new)?;
    let pair = Pair {
        asked,
        of_new: (asked.unfit == 0) & (p.size == END_SIZE) & (q.size == END_SIZE),
        from: p.dsp,
        start: spoiled(q.dsp, asked.unfit % 2 == 1),
        old: &old[..n],
        new: &new[..m],
    };
    let back = redo(rt, &pair);
    say(rt, b"TAIL\n");
    run_next(rt, file, asked.ram, true, Some(back))?;
    Some(())
}

// The next log of the file, from a record or from `new`, told or not, on the image.
fn run_next<R: Read>(
    rt: &(impl Files + Print),
    file: &mut R,
    ram: u8,
    told: bool,
    start: Option<Dsp>,
) -> Option<Back> {
    let mut log = [0u8; 65536];
    let size = stored_log(file, &mut log)?;
    let dsp = run_log(rt, ram, told, start, &log[..size]);
    Some(Back { size, dsp })
}

fn run_log(
    rt: &(impl Files + Print),
    number: u8,
    told: bool,
    start: Option<Dsp>,
    log: &[u8],
) -> Dsp {
    let mut ram = [0u8; 65537];
    let n = image(rt, number, &mut ram);
    match run_whole(rt, told, start, log, &mut ram[..n]).answer {
        Ok(dsp) => dsp,
        Err(e) => e.given,
    }
}
