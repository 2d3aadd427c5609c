// The file of cases: the number of a RAM image, the log's length (16 bits, low byte first), the log; and so on.
use crate::ticks::run_ticks;
use report::cases::{IMAGES, image, stops, stored_log};
use report::input::read_full;
use report::lines::numbered;
use report::runs::run_whole;
use std::io::Read;
use std::rt::Files;

// Whether there was a case to run.
pub fn next<R: Read>(rt: &(impl Files + Print), file: &mut R, number: u64) -> bool {
    let mut head = [0u8; 1];
    if read_full(file, &mut head) == 0 {
        return false;
    }
    let ram = head[0];
    if ram >= IMAGES {
        return stops(rt);
    }
    with_log(rt, file, number, ram)
}

fn with_log<R: Read>(rt: &(impl Files + Print), file: &mut R, number: u64, ram: u8) -> bool {
    let mut log = [0u8; 65536];
    let Some(n) = stored_log(file, &mut log) else {
        return stops(rt);
    };
    numbered(rt, b"CASE ", number);
    case(rt, ram, &log[..n]);
    true
}

// Whole by `run_new`; then, where that refuses nothing, tick by tick on the image as it was.
fn case(rt: &(impl Files + Print), number: u8, log: &[u8]) {
    let mut ram = [0u8; 65537];
    let n = image(rt, number, &mut ram);
    let mut again = ram;
    let w = run_whole(rt, true, None, log, &mut ram[..n]);
    if w.answer.is_ok() {
        run_ticks(rt, log, &mut again[..n], w.left);
    }
}
