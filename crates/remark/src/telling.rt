// The answer told: room for any log, then the lines.
ghost use Rattle.std.specs.Prelude.{◌≡◌, ◌+◌, ◌≤◌, ◌<◌};
ghost use Rattle.remark.specs.Marking.{is_at, behind as behind_of};

use crate::answer::{Answer, Judged, answered};
use crate::words;
use report::runs::{least, within};

// 32,000 ticks with 4 bytes of PCM and 36 of sheet each, 20,000 readings with 3 bytes of the log each.
pub fn told(
    out: &impl Print,
    named: u8,
    ram: &[u8],
    own: &mut [u8],
    old: &[u8],
    new: &[u8],
) -> bool {
    let mut pcm = [0; 128000];
    let mut sheet = [0; 1152000];
    let mut before = [0; 20000];
    let mut after = [0; 20000];
    told_on(
        out,
        named,
        ram,
        own,
        old,
        new,
        &mut pcm,
        &mut sheet,
        &mut before,
        &mut after,
    )
}

// Behind a reference an array's length is its type's, and no check has to count a million bytes.
fn told_on(
    out: &impl Print,
    named: u8,
    ram: &[u8],
    own: &mut [u8],
    old: &[u8],
    new: &[u8],
    pcm: &mut [u8; 128000],
    sheet: &mut [u8; 1152000],
    before: &mut [u8; 20000],
    after: &mut [u8; 20000],
) -> bool {
    let mut registers = [0u8; 20000];
    let mut numbers = [0u64; 20000];
    let answer = answered(
        named,
        ram,
        own,
        old,
        new,
        pcm,
        sheet,
        before,
        after,
        &mut registers,
        &mut numbers,
    );
    tell(out, named, answer, &registers, before, after, &numbers)
}

fn tell(
    out: &impl Print,
    named: u8,
    answer: Answer,
    registers: &[u8],
    before: &[u8],
    after: &[u8],
    numbers: &[u64],
) -> bool {
    match answer.worked {
        Ok((members, count)) => {
            words::sets(out, named, members, count)
                && tell_judged(out, answer.judged, registers, before, after, numbers)
        }
        Err(why) => words::refused(out, why),
    }
}

// A line for each reading; the last line goes out whether they did or not.
fn tell_judged(
    out: &impl Print,
    j: Judged,
    registers: &[u8],
    before: &[u8],
    after: &[u8],
    numbers: &[u64],
) -> bool {
    let n = within(j.readings, registers);
    let listed = least(j.listed, numbers.len());
    let went = tell_readings(out, &registers[..n], before, after, &numbers[..listed]);
    words::verdict(out, j.same, j.readings as u64, j.verdict) && went
}

// By the list of those that have changed: its next number is this reading's, or this reading is as before.
fn tell_readings(
    out: &impl Print,
    registers: &[u8],
    before: &[u8],
    after: &[u8],
    changed: &[u64],
) -> bool {
    let n = least(registers.len(), least(before.len(), after.len()));
    let mut went = true;
    let mut next: usize = 0;
    for i in 0..n {
        let running = i as u64 + 1;
        let is_next = is_at(changed, next, running);
        went = words::reading(
            out,
            running,
            registers[i],
            after[i],
            is_next.then_some(before[i]),
        ) & went;
        next = behind(next, is_next);
    }
    went
}

fn behind(at: usize, is_next: bool) -> usize
    requires { at < 0xFFFFFFFFFFFFFFFF }
    ensures { (result ≡ behind_of at is_next) × (result ≤ at + 1) }
{
    if is_next { at + 1 } else { at }
}

fn is_at(numbers: &[u64], at: usize, number: u64) -> bool
    ensures { result ≡ is_at numbers.now at number }
{
    numbers.get(at) == Some(&number)
}
