// A log run whole, with slices exactly as long as it needs, and what that gives.
ghost use Rattle.std.specs.Prelude.{◌≡◌, ◌<◌, ◌≤◌, length};
ghost use Rattle.std.specs.Counts.{IsPrefixLen};
ghost use Rattle.numbers.specs.Bytes.{copied};
ghost use Rattle.numbers.specs.Unsigned.{least as least_of};
ghost use Rattle.refusal.specs.Refusal.{told as told_by, handed};
ghost use Rattle.chip_log.specs.Measure.{measure_of};
ghost use Rattle.dsp.specs.Run.{outcome, run_of};
ghost use Rattle.report.specs.Digest.{digest_of, left_by};
ghost use Rattle.report.specs.Runs.{room_for, room_within, start_from, ran_by, run_cut, left_of, Through, through, whole_of, registers_in};

use crate::digest::{EMPTY, with_bytes};
use crate::left::Left;
use crate::lines;
use chip_log::{Record, measure, read};
use dsp::Dsp;
use refusal::Refused;
use sitting::{Ran, run, run_new};

// How many bytes of each slice are lent.
#[derive(Clone, Copy)]
pub struct Room {
    pub pcm: usize,
    pub sheet: usize,
    pub readings: usize,
}

// Four bytes of PCM and 36 of sheet a tick, one byte a reading.
pub fn room_for(ticks: u32, readings: u32) -> Room
    ensures { (result ≡ room_for ticks readings) × (result.pcm < 0x10000000000) × (result.sheet < 0x10000000000) × (result.readings < 0x10000000000) }
{
    let n = ticks as usize;
    Room {
        pcm: n * 4,
        sheet: n * 36,
        readings: readings as usize,
    }
}

pub fn least(a: usize, b: usize) -> usize
    ensures { (result ≡ least_of a b) × (result ≤ a) × (result ≤ b) }
{
    a.min(b)
}

// So many bytes of a buffer, but no more than it has.
pub fn within(n: usize, buf: &[u8]) -> usize
    ensures { (result ≡ least_of n (length buf.now)) × IsPrefixLen result buf.now }
{
    least(n, buf.len())
}

impl Room {
    // No more than there is.
    pub fn within(self, pcm: usize, sheet: usize, readings: usize) -> Room
        ensures { (result ≡ room_within self pcm sheet readings) × (result.pcm ≤ pcm) × (result.sheet ≤ sheet) × (result.readings ≤ readings) }
    {
        Room {
            pcm: self.pcm.min(pcm),
            sheet: self.sheet.min(sheet),
            readings: self.readings.min(readings),
        }
    }
}

// The record that a run gives back, or its refusal; and what the run left.
#[derive(Clone, Copy)]
pub struct Whole {
    pub answer: Result<Dsp, Refused<Dsp>>,
    pub left: Left,
}

// "A refusal answers .. the record given .. and zeros elsewhere".
pub fn ran(answer: Result<Ran, Refused<Dsp>>) -> Ran
    ensures { result ≡ ran_by answer }
{
    match answer {
        Ok(r) => r,
        Err(e) => Ran {
            dsp: e.given,
            ticks: 0,
            readings: 0,
        },
    }
}

// The record of an answer, without its counts.
fn record_of(answer: Result<Ran, Refused<Dsp>>) -> Result<Dsp, Refused<Dsp>>
    ensures told { told_by result ≡ told_by answer }
    ensures record { handed result ≡ (ran_by answer).dsp }
{
    match answer {
        Ok(r) => Ok(r.dsp),
        Err(e) => Err(e),
    }
}

// What a log needs; where it is refused, nothing.
pub fn room_of(log: &[u8]) -> Room
    ensures room { result ≡ room_for (measure_of log.now).ticks (measure_of log.now).readings }
    ensures few { (result.pcm < 0x10000000000) × (result.sheet < 0x10000000000) × (result.readings < 0x10000000000) }
{
    match measure(log) {
        Ok(m) => room_for(m.ticks, m.readings),
        Err(_) => room_for(0, 0),
    }
}

// From a record or from `new`, as `run_on`; told or not. Room for any log: 32,000 ticks with 4 bytes of PCM and 36 of
// sheet each, 20,000 readings with 3 bytes of the log each.
#[tactic(auto, unfolding(crate::specs::Runs::whole_of))]
pub fn run_whole(
    out: &impl Print,
    told: bool,
    start: Option<Dsp>,
    log: &[u8],
    ram: &mut [u8],
) -> Whole
    ensures { ◌≡◌ {A = Through} (record { refusal = told_by result.answer; dsp = handed result.answer; left = result.left; ram = ram.new }) (whole_of told (start_from start) ram.old log.now) }
{
    let mut pcm = [0; 128000];
    let mut sheet = [0; 1152000];
    let mut readings = [0; 20000];
    run_told(
        out,
        told,
        start,
        log,
        ram,
        &mut pcm,
        &mut sheet,
        &mut readings,
    )
}

// Behind a reference an array's length is its type's, and no check has to count a million bytes.
fn run_told(
    out: &impl Print,
    told: bool,
    start: Option<Dsp>,
    log: &[u8],
    ram: &mut [u8],
    pcm: &mut [u8; 128000],
    sheet: &mut [u8; 1152000],
    readings: &mut [u8; 20000],
) -> Whole
    ensures { ◌≡◌ {A = Through} (record { refusal = told_by result.answer; dsp = handed result.answer; left = result.left; ram = ram.new }) (through told (run_cut (start_from start) ram.old log.now pcm.old sheet.old readings.old)) }
{
    let answer = run_cut(start, ram, log, pcm, sheet, readings);
    let r = ran(answer);
    let left = if told {
        tell(
            out,
            answer.err().map(|e| e.refusal),
            r,
            log,
            ram,
            pcm,
            sheet,
            readings,
        )
    } else {
        Left::by(r.dsp, ram, EMPTY, EMPTY)
    };
    Whole {
        answer: record_of(answer),
        left,
    }
}

// Lends what the log needs; were there less, the run would refuse by 10.
#[tactic(auto, unfolding(crate::specs::Runs::run_cut))]
pub fn run_cut(
    start: Option<Dsp>,
    ram: &mut [u8],
    log: &[u8],
    pcm: &mut [u8],
    sheet: &mut [u8],
    readings: &mut [u8],
) -> Result<Ran, Refused<Dsp>>
    ensures { outcome result ram.new pcm.new sheet.new readings.new ≡ run_cut (start_from start) ram.old log.now pcm.old sheet.old readings.old }
{
    let n = room_of(log).within(pcm.len(), sheet.len(), readings.len());
    run_on(
        start,
        ram,
        log,
        &mut pcm[..n.pcm],
        &mut sheet[..n.sheet],
        &mut readings[..n.readings],
    )
}

// From the record by `run`, or from `new` by `run_new` where none is given.
pub fn run_on(
    start: Option<Dsp>,
    ram: &mut [u8],
    log: &[u8],
    pcm: &mut [u8],
    sheet: &mut [u8],
    readings: &mut [u8],
) -> Result<Ran, Refused<Dsp>>
    ensures { outcome result ram.new pcm.new sheet.new readings.new ≡ run_of (start_from start) ram.old log.now pcm.old sheet.old readings.old }
{
    match start {
        Some(record) => run(record, ram, log, pcm, sheet, readings),
        None => run_new(ram, log, pcm, sheet, readings),
    }
}

// Of what was lent, what a run of so many ticks and readings was lent and has filled; where it was refused, the refusal is told.
#[tactic(auto, unfolding(crate::specs::Runs::left_of))]
pub fn tell(
    out: &impl Print,
    refusal: Option<impl Into<u8>>,
    r: Ran,
    log: &[u8],
    ram: &[u8],
    pcm: &[u8],
    sheet: &[u8],
    readings: &[u8],
) -> Left
    ensures { result ≡ left_of r.dsp r.ticks r.readings ram.now pcm.now sheet.now readings.now }
{
    let n = room_for(r.ticks, r.readings).within(pcm.len(), sheet.len(), readings.len());
    tell_cut(
        out,
        refusal,
        r,
        log,
        ram,
        &pcm[..n.pcm],
        &sheet[..n.sheet],
        &readings[..n.readings],
    )
}

fn tell_cut(
    out: &impl Print,
    refusal: Option<impl Into<u8>>,
    r: Ran,
    log: &[u8],
    ram: &[u8],
    pcm: &[u8],
    sheet: &[u8],
    readings: &[u8],
) -> Left
    ensures { result ≡ left_by r.dsp ram.now (digest_of pcm.now) (digest_of readings.now) }
{
    let samples = with_bytes(EMPTY, pcm);
    let left = Left::by(r.dsp, ram, samples, with_bytes(EMPTY, readings));
    match refusal {
        Some(number) => {
            lines::refused(out, number);
        }
        None => tell_lines(out, r, log, left, sheet, readings),
    }
    left
}

fn tell_lines(out: &impl Print, r: Ran, log: &[u8], left: Left, sheet: &[u8], readings: &[u8]) {
    let mut registers = [0u8; 20000];
    let n = registers_read(log, &mut registers);
    tell_readings(out, &registers[..n], readings);
    lines::end(out, r.ticks as u64, r.readings as u64);
    lines::registers(out, r.dsp);
    lines::digest(out, b"RAM ", left.ram);
    lines::digest(out, b"PCM ", left.pcm);
    lines::digest(out, b"SHEET ", with_bytes(EMPTY, sheet));
}

// The registers of a log's readings, in their order, as many as there is room for.
#[tactic(auto, using(crate::proofs::Listing::listed))]
pub fn registers_read(log: &[u8], to: &mut [u8]) -> usize
    ensures { (result ≡ least_of (length (registers_in log.now)) (length to.old)) × (to.new ≡ copied (registers_in log.now) to.old) × IsPrefixLen result to.new }
{
    let mut put: usize = 0;
    let mut at: usize = 0;
    while put < to.len() {
        let Ok(Some((found, behind))) = read(log, at) else {
            return put;
        };
        if let Record::Reading { register } = found {
            to[put] = register;
            put += 1;
        }
        at = behind;
    }
    put
}

fn tell_readings(out: &impl Print, registers: &[u8], readings: &[u8]) {
    for (i, (register, value)) in registers.iter().zip(readings).enumerate() {
        lines::reading(out, i as u64 + 1, *register, *value);
    }
}
