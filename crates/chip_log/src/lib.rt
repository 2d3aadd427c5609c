// The log: its records, read one by one, and what a caller must lend for it (document 01, "Log, sheet, program").
#![tactic(auto)]

ghost use Rattle.std.specs.Prelude.{◌≡◌, ◌+◌, ◌-◌, ◌*◌, ◌<◌, length};
ghost use Rattle.chip_log.specs.Log.{next_of, write_record, ticks_record, reading_record, by_mark, read_at, Moves};
ghost use Rattle.chip_log.specs.Measure.{ticks_in, readings_in, measured_as, measure_of};

use refusal::Refusal;

pub const LOG_MOST: usize = 60000;

const TICKS_MOST: u32 = 32000;

const REGISTER_MOST: u8 = 0x7F;

#[derive(Clone, Copy, PartialEq, Eq)]
pub enum Record {
    Write { register: u8, value: u8 },
    Ticks { count: u16 },
    Reading { register: u8 },
}

// What stands at a place: a record, and the place behind it; at the end record nothing; or the refusal.
pub type Next = Result<Option<(Record, usize)>, Refusal>;

// What a caller must lend for: four bytes of PCM and 36 of sheet a tick, one byte a reading.
#[derive(Clone, Copy, PartialEq, Eq)]
pub struct Measured {
    pub ticks: u32,
    pub readings: u32,
}

// 16 bits, low byte first.
pub fn word(low: u8, high: u8) -> u16
    ensures { result ≡ low + 0x100 * high }
{
    u16::from_le_bytes([low, high])
}

// `RW`, register, value.
#[tactic(auto, unfolding(crate::specs::Log::write_record))]
fn write_at(log: &[u8], at: usize) -> Next
    requires { at < length log.now }
    ensures { (next_of result ≡ write_record log.now at) × Moves at (length log.now) (next_of result) }
{
    let [_, _, register, value, ..] = &log[at..] else {
        return Err(Refusal::CutShort);
    };
    if *register > REGISTER_MOST {
        return Err(Refusal::NoRegister);
    }
    let found = Record::Write {
        register: *register,
        value: *value,
    };
    Ok(Some((found, at + 4)))
}

// `TK`, count, 16 bits, low byte first.
#[tactic(auto, unfolding(crate::specs::Log::ticks_record))]
fn ticks_at(log: &[u8], at: usize) -> Next
    requires { at < length log.now }
    ensures { (next_of result ≡ ticks_record log.now at) × Moves at (length log.now) (next_of result) }
{
    let [_, _, low, high, ..] = &log[at..] else {
        return Err(Refusal::CutShort);
    };
    let count = word(*low, *high);
    if count == 0 {
        return Err(Refusal::TickCount);
    }
    Ok(Some((Record::Ticks { count }, at + 4)))
}

// `QA`, register.
#[tactic(auto, unfolding(crate::specs::Log::reading_record))]
fn reading_at(log: &[u8], at: usize) -> Next
    requires { at < length log.now }
    ensures { (next_of result ≡ reading_record log.now at) × Moves at (length log.now) (next_of result) }
{
    let [_, _, register, ..] = &log[at..] else {
        return Err(Refusal::CutShort);
    };
    if *register > REGISTER_MOST {
        return Err(Refusal::NoRegister);
    }
    let found = Record::Reading {
        register: *register,
    };
    Ok(Some((found, at + 3)))
}

#[tactic(auto, unfolding(crate::specs::Log::by_mark))]
fn by_mark(log: &[u8], at: usize, mark: u16) -> Next
    requires { at < length log.now }
    ensures { (next_of result ≡ by_mark log.now at mark) × Moves at (length log.now) (next_of result) }
{
    match mark {
        0x5257 => write_at(log, at),
        0x544B => ticks_at(log, at),
        0x5141 => reading_at(log, at),
        0x4E44 if log.len() == at + 2 => Ok(None),
        0x4E44 => Err(Refusal::BehindEnd),
        _ => Err(Refusal::UnknownMark),
    }
}

#[tactic(auto, unfolding(crate::specs::Log::read_at))]
pub fn read(log: &[u8], at: usize) -> Next
    ensures { (next_of result ≡ read_at log.now at) × Moves at (length log.now) (next_of result) }
{
    if log.len() <= at {
        return Err(Refusal::NoEnd);
    }
    let [high, low, ..] = &log[at..] else {
        return Err(Refusal::CutShort);
    };
    by_mark(log, at, word(*low, *high))
}

fn ticks_of(found: Record) -> u32
    ensures { (result ≡ ticks_in found) × (result < 0x10000) }
{
    match found {
        Record::Ticks { count } => count as u32,
        Record::Write { .. } | Record::Reading { .. } => 0,
    }
}

fn readings_of(found: Record) -> u32
    ensures { (result ≡ readings_in found) × (result < 2) }
{
    match found {
        Record::Reading { .. } => 1,
        Record::Write { .. } | Record::Ticks { .. } => 0,
    }
}

pub fn measure(log: &[u8]) -> Result<Measured, Refusal>
    ensures { measured_as result ≡ measure_of log.now }
{
    if log.len() > LOG_MOST {
        return Err(Refusal::LogTooLong);
    }
    let mut at: usize = 0;
    let mut ticks: u32 = 0;
    let mut readings: u32 = 0;
    while let Some((found, after)) = read(log, at)? {
        ticks += ticks_of(found);
        if ticks > TICKS_MOST {
            return Err(Refusal::TickCount);
        }
        readings += readings_of(found);
        at = after;
    }
    Ok(Measured { ticks, readings })
}
