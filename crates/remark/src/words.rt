// The answer in words. Each answers whether it went out.
use crate::answer::Unworked;
use crate::marking::Verdict;
use numbers::bit;
use refusal::Refusal;
use report::lines;
use report::lines::{number, say};

// As `voices 3, 4`.
fn voices(out: &impl Print, set: u8) -> bool {
    let count = set.count_ones();
    if count == 0 {
        return say(out, b"no voice");
    }
    let mut went = if count == 1 {
        say(out, b"voice")
    } else {
        say(out, b"voices")
    };
    let mut some = false;
    for voice in 0..8 {
        if bit(set, voice) {
            went = one_more(out, some, voice as u64) & went;
            some = true;
        }
    }
    went
}

fn one_more(out: &impl Print, behind: bool, voice: u64) -> bool {
    let went = if behind {
        say(out, b", ")
    } else {
        say(out, b" ")
    };
    number(out, voice) & went
}

// Which voices were named, which were worked, and which play as they did.
pub fn sets(out: &impl Print, named: u8, members: u8, count: u32) -> bool {
    say(out, b"Named: ")
        && voices(out, named)
        && say(out, b"\nReworked: ")
        && voices(out, members)
        && say(out, b" (")
        && number(out, count as u64)
        && say(out, b" of 8)\nAs before: ")
        && voices(out, 255 - members)
        && say(out, b"\n")
}

// With what it was where it has changed.
pub fn reading(out: &impl Print, running: u64, register: u8, is: u8, was: Option<u8>) -> bool {
    let went = say(out, b"Reading ")
        && number(out, running)
        && say(out, b", register ")
        && lines::hex(out, register)
        && say(out, b": ")
        && lines::hex(out, is);
    match was {
        Some(value) => went && say(out, b", was ") && lines::hex(out, value) && say(out, b"\n"),
        None => went && say(out, b", as before\n"),
    }
}

pub fn verdict(out: &impl Print, same: u64, all: u64, verdict: Verdict) -> bool {
    let went = number(out, same)
        && say(out, b" of ")
        && number(out, all)
        && say(out, b" readings are as before.\n");
    match verdict {
        Verdict::Nothing => went && say(out, b"Nothing has to be marked again.\n"),
        Verdict::Changed => {
            went && say(
                out,
                b"Only the readings with 'was' have to be marked again.\n",
            )
        }
    }
}

// The number, and what it says; of 3 to 9 also of which log.
pub fn refused(out: &impl Print, why: Unworked) -> bool {
    let (log, refusal) = match why {
        Unworked::Old(refusal) => (b"The old log ", refusal),
        Unworked::New(refusal) => (b"The new log ", refusal),
    };
    if !lines::refused(out, refusal) {
        return false;
    }
    if let Some(words) = malformed(refusal) {
        return say(out, log) && say(out, words);
    }
    match refusal {
        Refusal::RamSize => say(out, b"The RAM image is not 65,536 bytes.\n"),
        Refusal::EchoWrites => say(
            out,
            b"Echo writing is on at some tick, so that a voice can overwrite the memory that every voice plays from: the whole sitting has to be marked again.\n",
        ),
        Refusal::LogsDiffer => say(
            out,
            b"The logs differ outside the named voices' own registers: the whole sitting has to be marked again.\n",
        ),
        _ => say(
            out,
            b"Nothing was worked: the whole sitting has to be marked again.\n",
        ),
    }
}

// What is wrong with a log, of 3 to 9.
fn malformed(refusal: Refusal) -> Option<&'static [u8]> {
    match refusal {
        Refusal::LogTooLong => Some(b"is over 60,000 bytes.\n"),
        Refusal::UnknownMark => Some(b"has an unknown mark.\n"),
        Refusal::CutShort => Some(b"stops inside a mark or a record.\n"),
        Refusal::NoRegister => Some(b"names a register above $7F.\n"),
        Refusal::TickCount => Some(b"has a tick count of 0, or over 32,000 ticks in all.\n"),
        Refusal::NoEnd => Some(b"stops with no end record.\n"),
        Refusal::BehindEnd => Some(b"has bytes behind its end record.\n"),
        _ => None,
    }
}
