// A log that `run_new` took, run again by `write_reg`, `step` and `render_audio_single`, with a digest over every tick.
use chip_log::{Record, read};
use dsp::Dsp;
use report::digest::{EMPTY, with_byte, with_bytes, with_reads, with_registers, with_sample};
use report::left::Left;
use report::lines;

// How far a run has come: the chip, and the digests of samples, readings and every tick.
#[derive(Clone, Copy)]
struct Run {
    dsp: Dsp,
    pcm: u64,
    readings: u64,
    trace: u64,
}

// A run goes on, or a refusal has ended it where it stands.
type Step = Result<Run, Run>;

// "The direct register write masks its index with $7F": an odd value goes with bit 7 of the register's number set.
fn index(register: u8, value: u8) -> u8 {
    if value % 2 == 1 {
        register | 0x80
    } else {
        register
    }
}

impl Run {
    fn new() -> Self {
        Run {
            dsp: Dsp::new(),
            pcm: EMPTY,
            readings: EMPTY,
            trace: EMPTY,
        }
    }

    fn write(self, register: u8, value: u8) -> Step {
        match self.dsp.write_reg(index(register, value), value) {
            Ok(dsp) => Ok(Run { dsp, ..self }),
            Err(_) => Err(self),
        }
    }

    // A tick is `step`, then `render_audio_single`.
    fn tick(self, ram: &mut [u8]) -> Step {
        let Ok(dsp) = self.dsp.step(ram) else {
            return Err(self);
        };
        let Ok(s) = dsp.render_audio_single() else {
            return Err(self);
        };
        let read = with_reads(with_registers(self.trace, dsp), dsp);
        Ok(Run {
            dsp,
            pcm: with_sample(self.pcm, s),
            trace: with_bytes(with_sample(read, s), ram),
            ..self
        })
    }

    fn reading(self, register: u8) -> Self {
        Run {
            readings: with_byte(self.readings, self.dsp.read_reg(register)),
            ..self
        }
    }
}

fn ticked(run: Run, ram: &mut [u8], count: u16) -> Step {
    let mut r = run;
    for _ in 0..count {
        r = r.tick(ram)?;
    }
    Ok(r)
}

fn played(run: Run, ram: &mut [u8], found: Record) -> Step {
    match found {
        Record::Write { register, value } => run.write(register, value),
        Record::Ticks { count } => ticked(run, ram, count),
        Record::Reading { register } => Ok(run.reading(register)),
    }
}

fn run_records(log: &[u8], ram: &mut [u8]) -> Step {
    let mut r = Run::new();
    let mut at: usize = 0;
    while let Ok(Some((found, behind))) = read(log, at) {
        r = played(r, ram, found)?;
        at = behind;
    }
    Ok(r)
}

// `whole`: what the same log left when it was run whole, on the same image.
pub fn run_ticks(out: &impl Print, log: &[u8], ram: &mut [u8], whole: Left) {
    let (r, refused) = match run_records(log, ram) {
        Ok(r) => (r, false),
        Err(r) => (r, true),
    };
    let left = Left::by(r.dsp, ram, r.pcm, r.readings);
    lines::digest(out, b"TRACE ", r.trace);
    if refused | !left.same(whole) {
        lines::say(out, b"DIFFERS\n");
    }
}
