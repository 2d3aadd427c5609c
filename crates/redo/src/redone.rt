// A pair of sittings: the first run, then reworked to the second.
ghost use Rattle.std.specs.Prelude.{◌<◌};

use chip_log::measure;
use dsp::Dsp;
use refusal::Refused;
use report::cases::image;
use report::digest::{EMPTY, with_bytes};
use report::lines;
use report::runs::{Room, ran, room_of, run_cut, tell};
use rework::{Reworked, rework, rework_new};
use sitting::Ran;
use std::rt::Files;

// The number of the RAM image, the mask of the named voices; which slice is lent a byte short or a byte long; which records are
// unfit: bit 0 the new start record, bit 1 the old end record.
#[derive(Clone, Copy)]
pub struct Asked {
    pub ram: u8,
    pub named: u8,
    pub lent: u8,
    pub unfit: u8,
}

const SHORT_PCM: u8 = 1;

const SHORT_SHEET: u8 = 3;

const SHORT_READINGS: u8 = 5;

// PMON is even in a fit record.
pub fn spoiled(dsp: Dsp, unfit: bool) -> Dsp {
    let mut d = dsp;
    if unfit {
        d.pmon = 1;
    }
    d
}

// Two sittings: the records that they start from, and their logs. `of_new`: both start from `new`, so that `rework_new` has to
// give the same.
#[derive(Clone, Copy)]
pub struct Pair<'a> {
    pub asked: Asked,
    pub of_new: bool,
    pub from: Dsp,
    pub start: Dsp,
    pub old: &'a [u8],
    pub new: &'a [u8],
}

// What is lent for samples, sheet and readings.
#[derive(Drop)]
struct Lent<'a> {
    pcm: &'a mut [u8],
    sheet: &'a mut [u8],
    readings: &'a mut [u8],
}

impl Lent<'_> {
    fn held(&self) -> u64 {
        with_bytes(
            with_bytes(with_bytes(EMPTY, self.pcm), self.sheet),
            self.readings,
        )
    }
}

// The record that the rework gives back. The first run has a RAM of its own.
pub fn redo(rt: &(impl Files + Print), pair: &Pair) -> Dsp {
    let mut ram = [0u8; 65537];
    let n = image(rt, pair.asked.ram, &mut ram);
    let mut own = ram;
    redo_room(rt, pair, &ram[..n], &mut own[..n])
}

// Room for any log, and a byte more.
fn redo_room(out: &impl Print, pair: &Pair, ram: &[u8], own: &mut [u8]) -> Dsp {
    let mut pcm = [0; 128001];
    let mut sheet = [0; 1152001];
    let mut readings = [0; 20001];
    redo_on(out, pair, ram, own, &mut pcm, &mut sheet, &mut readings)
}

// Behind a reference an array's length is its type's, and no check has to count a million bytes.
fn redo_on(
    out: &impl Print,
    pair: &Pair,
    ram: &[u8],
    own: &mut [u8],
    pcm: &mut [u8; 128001],
    sheet: &mut [u8; 1152001],
    readings: &mut [u8; 20001],
) -> Dsp {
    let r = ran(run_cut(Some(pair.from), own, pair.old, pcm, sheet, readings));
    reworked(out, pair, r.dsp, ram, pcm, sheet, readings)
}

// A byte less of some, a byte more, or as many.
fn resized(n: usize, lent: u8, short: u8) -> usize
    requires { (n < 0x10000000000) × (short < 255) }
{
    if lent == short {
        n.saturating_sub(1)
    } else if lent == short + 1 {
        n + 1
    } else {
        n
    }
}

// What the new log needs, but for a byte of one slice, and the record that comes back.
fn reworked(
    out: &impl Print,
    pair: &Pair,
    end: Dsp,
    ram: &[u8],
    pcm: &mut [u8],
    sheet: &mut [u8],
    readings: &mut [u8],
) -> Dsp {
    let e = room_of(pair.new);
    let asked = pair.asked;
    let room = Room {
        pcm: resized(e.pcm, asked.lent, SHORT_PCM),
        sheet: resized(e.sheet, asked.lent, SHORT_SHEET),
        readings: resized(e.readings, asked.lent, SHORT_READINGS),
    };
    let n = room.within(pcm.len(), sheet.len(), readings.len());
    let mut lent = Lent {
        pcm: &mut pcm[..n.pcm],
        sheet: &mut sheet[..n.sheet],
        readings: &mut readings[..n.readings],
    };
    rework_on(
        out,
        pair,
        spoiled(end, asked.unfit / 2 % 2 == 1),
        ram,
        &mut lent,
    )
}

fn rework_on(out: &impl Print, pair: &Pair, end: Dsp, ram: &[u8], lent: &mut Lent) -> Dsp {
    let before = lent.held();
    let w = rework(
        pair.asked.named,
        pair.start,
        end,
        ram,
        pair.old,
        pair.new,
        lent.pcm,
        lent.sheet,
        lent.readings,
    );
    let dsp = match w {
        Ok(w) => {
            tell_reworked(out, w, ram, pair.new, lent);
            w.dsp
        }
        Err(e) => {
            lines::refused(out, e.refusal);
            differs(out, before != lent.held());
            e.given
        }
    };
    if pair.of_new {
        of_new_too(out, pair, w, ram, lent);
    }
    dsp
}

fn differs(out: &impl Print, so: bool) {
    if so {
        lines::say(out, b"DIFFERS\n");
    }
}

fn of_new_too(
    out: &impl Print,
    pair: &Pair,
    w: Result<Reworked, Refused<Dsp>>,
    ram: &[u8],
    lent: &mut Lent,
) {
    let after = lent.held();
    let v = rework_new(
        pair.asked.named,
        ram,
        pair.old,
        pair.new,
        lent.pcm,
        lent.sheet,
        lent.readings,
    );
    differs(out, (w != v) | (after != lent.held()));
}

fn tell_reworked(out: &impl Print, w: Reworked, ram: &[u8], new: &[u8], lent: &Lent) {
    lines::say(out, b"VOICES ");
    lines::hex(out, w.members);
    lines::numbered(out, b" ", w.count as u64);
    let answer = match measure(new) {
        Ok(m) => Ok(Ran {
            dsp: w.dsp,
            ticks: m.ticks,
            readings: m.readings,
        }),
        Err(refusal) => Err(refusal.of(w.dsp)),
    };
    tell(
        out,
        answer.err().map(|e| e.refusal),
        ran(answer),
        new,
        ram,
        lent.pcm,
        lent.sheet,
        lent.readings,
    );
}
