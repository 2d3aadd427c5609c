// A log played over the parts of the record: the record is tested and taken apart once, register writes act on the parts, and it is made
// again once.
ghost use Rattle.std.specs.Prelude.{◌&&◌, [], map, ◌≡◌, ◌*◌, ◌≤◌, ◌<◌, length};
ghost use Rattle.numbers.specs.Choice.{◌=?◌};
ghost use Rattle.chip_log.specs.Log.{decode};
ghost use Rattle.dsp.specs.Machine.{apart};
ghost use Rattle.dsp.specs.Fit.{Fit};
ghost use Rattle.dsp.specs.Registers.{globals_after, bytes_after, taps_after};
ghost use Rattle.dsp.specs.Play.{Run, play_all, starting};
ghost use Rattle.dsp.specs.Run.{outcome, run_with};
ghost use Rattle.dsp.specs.Inside.{as_globals, cut_envelope, hushed_play, Ready};

use crate::adsr::Envelope;
use crate::gauss::Weights;
use crate::play::Play;
use crate::rates::Rates;
use crate::registers::{Dsp, byte_left};
use crate::tick::{
    Far, Moving, RAM_SIZE, Work, currents_of, dials_of, envelopes_of, feeds_of, plays_of, store_of,
    voices_of,
};
use chip_log::{Measured, Record, measure, read};
use refusal::{Refusal, Refused};

// The record, and how many ticks and readings were put out.
#[derive(Clone, Copy, PartialEq, Eq)]
pub struct Ran {
    pub dsp: Dsp,
    pub ticks: u32,
    pub readings: u32,
}

// What RESET moves of the voices.
#[derive(Clone, Copy)]
pub struct Muted {
    pub envelopes: [Envelope; 8],
    pub plays: [Play; 8],
}

impl Far {
    fn write(self, register: u8, value: u8) -> Self
        ensures { (as_globals result.glob ≡ globals_after register value (as_globals self.glob)) × (result.left ≡ self.left) × (result.right ≡ self.right) }
    {
        let g = self.glob;
        let left = self.left;
        let right = self.right;
        let glob = g.write(register, value);
        Far { glob, left, right }
    }
}

// The register's byte, and a tap of the FIR. RESET clears ENDX, as any write to it does.
fn put_byte(register: u8, value: u8, bytes: &mut [u8], taps: &mut [i8])
    requires { (register < 128) × (length bytes.old ≡ 128) × (length taps.old ≡ 8) }
    ensures { (bytes.new ≡ bytes_after register value bytes.old) × (taps.new ≡ taps_after register value taps.old) }
{
    let at = register as usize;
    bytes[at] = byte_left(register, value);
    if register % 16 == 15 {
        let v = (register / 16) as usize;
        taps[v] = numbers::signed8(value);
    }
    if (register == 0x6C) & (value >= 0x80) {
        bytes[0x7C] = 0;
    }
}

// RESET silences every voice at once: level 0, Off, key_on clear. In place: two maps cost each record of one tick 33 instructions more
// (3,616, not 3,583).
fn hush(mut envelopes: [Envelope; 8], mut plays: [Play; 8]) -> Muted
    ensures { (result.envelopes ≡ map cut_envelope envelopes) × (result.plays ≡ map hushed_play plays) }
{
    for e in &mut envelopes {
        *e = e.cut();
    }
    for p in &mut plays {
        *p = p.keyed_off();
    }
    Muted { envelopes, plays }
}

// The log was checked before: where no record stands, the run is over.
fn play_all(
    work: Work,
    start: Dsp,
    ram: &mut [u8],
    log: &[u8],
    pcm: &mut [u8],
    sheet: &mut [u8],
    readings: &mut [u8],
) -> Dsp
    requires { (length ram.old ≡ 0x10000) × Fit start × Ready log.now pcm.old sheet.old readings.old }
    ensures { ◌≡◌ {A = Run} (record { bench = record { parts = apart result; ram = ram.new; pcm = pcm.new; sheet = sheet.new; old = [] }; readings = readings.new }) (play_all work (decode log.now).records (starting start ram.old sheet.old)) }
{
    let table = Weights::new();
    let rates = Rates::new();
    let mut bytes = start.bytes();
    let mut taps = start.taps();
    let voices = start.lanes();
    let mut delays = start.delays();
    let mut currents = currents_of(voices);
    let mut store = store_of(voices);
    let mut dials = dials_of(&rates, voices);
    let mut f = start.far();
    let mut envelopes = envelopes_of(voices);
    let mut plays = plays_of(voices);
    let mut feeds = feeds_of(voices);
    let mut ticks: usize = 0;
    let mut said: usize = 0;
    let mut at: usize = 0;
    loop {
        let Ok(Some((found, behind))) = read(log, at) else {
            let after = voices_of(dials, envelopes, plays, feeds, currents, store);
            return start.with_parts(f, bytes, after, delays, taps);
        };
        match found {
            Record::Write { register, value } => {
                put_byte(register, value, &mut bytes, &mut taps);
                let v = (register / 16) as usize;
                let d = dials[v];
                let e = d.write(&rates, register % 16, value);
                dials[v] = e;
                f = f.write(register, value);
                if (register == 0x6C) & (value >= 0x80) {
                    let h = hush(envelopes, plays);
                    envelopes = h.envelopes;
                    plays = h.plays;
                }
            }
            Record::Ticks { count } => {
                let n = count as usize;
                let from = ticks * 4;
                let to = from + n * 4;
                let row = ticks * 36;
                let end = row + n * 36;
                let m = Moving {
                    far: f,
                    envelopes,
                    plays,
                    feeds,
                };
                let k = m.drive(
                    work,
                    n,
                    dials,
                    taps,
                    &table,
                    &rates,
                    &mut currents,
                    &mut delays,
                    &mut store,
                    &mut bytes,
                    ram,
                    &mut pcm[from..to],
                    &mut sheet[row..end],
                );
                f = k.far;
                envelopes = k.envelopes;
                plays = k.plays;
                feeds = k.feeds;
                ticks += n;
            }
            Record::Reading { register } => {
                let r = register as usize;
                readings[said] = bytes[r];
                said += 1;
            }
        }
        at = behind;
    }
}

// Four bytes of PCM and 36 of sheet a tick, one byte a reading, exactly.
fn is_room(m: Measured, pcm: usize, sheet: usize, readings: usize) -> bool
    requires { m.ticks ≤ 32000 }
    ensures { result ≡ ((pcm =? m.ticks * 4) && (sheet =? m.ticks * 36) && (readings =? m.readings)) }
{
    let t = m.ticks as usize;
    (pcm == t * 4) & (sheet == t * 36) & (readings == m.readings as usize)
}

// Plays a log with some of the lanes; the others are shown from the sheet as it is lent. The whole log is checked before the first
// tick. Refuses 1, 2, 3, then 4 to 9, then 10.
#[tactic(auto, unfolding(crate::specs::Run::run_with, crate::specs::Run::run_measured))]
pub fn play_log(
    work: Work,
    start: Dsp,
    ram: &mut [u8],
    log: &[u8],
    pcm: &mut [u8],
    sheet: &mut [u8],
    readings: &mut [u8],
) -> Result<Ran, Refused<Dsp>>
    ensures { outcome result ram.new pcm.new sheet.new readings.new ≡ run_with work start ram.old log.now pcm.old sheet.old readings.old }
{
    if ram.len() != RAM_SIZE {
        return Err(Refusal::RamSize.of(start));
    }
    if !start.is_fit() {
        return Err(Refusal::Unfit.of(start));
    }
    let m = measure(log).map_err(|refusal| refusal.of(start))?;
    if !is_room(m, pcm.len(), sheet.len(), readings.len()) {
        return Err(Refusal::WrongRoom.of(start));
    }
    Ok(Ran {
        dsp: play_all(work, start, ram, log, pcm, sheet, readings),
        ticks: m.ticks,
        readings: m.readings,
    })
}
