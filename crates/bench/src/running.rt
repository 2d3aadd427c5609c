// A measured log, run in parts: each part's samples are written and its reading is printed before the next.
ghost use Rattle.std.specs.Prelude.{◌≤◌, ◌<◌, length};
ghost use Rattle.bench.specs.Turn.{Fits, Done};

use dsp::Dsp;
use refusal::{Refusal, Refused};
use report::lines;
use sitting::{Heard, Stage, run_part};
use std::io::Write;

// Why a run stopped before its end. `measure` has taken the log, so no part is refused; were one, its number is what is said.
#[derive(Clone, Copy)]
pub enum Stopped {
    Refused(Refusal),
    NoSound,
    NoLines,
}

impl From<Refused<Stage>> for Stopped {
    fn from(e: Refused<Stage>) -> Stopped {
        Stopped::Refused(e.refusal)
    }
}

// From `new`, the samples to the writer `out`.
pub fn run<W: Write>(
    rt: &impl Print,
    ram: &mut [u8],
    log: &[u8],
    out: &mut W,
) -> Result<(), Stopped>
    requires { length log.now ≤ 0x10000 }
{
    let mut pcm = [0u8; 4096];
    let mut stage = Stage::new(Dsp::new());
    let mut readings: u64 = 0;
    loop {
        let part = run_part(stage, ram, log, &mut pcm)?;
        let Some(printed) = put_out(rt, part.heard, readings, &pcm, out)? else {
            return Ok(());
        };
        readings = printed;
        stage = part.stage;
    }
}

// How many readings are then printed, or none behind the end.
fn put_out<W: Write>(
    rt: &impl Print,
    heard: Heard,
    readings: u64,
    pcm: &[u8],
    out: &mut W,
) -> Result<Option<u64>, Stopped>
    requires { Fits heard (length pcm.now) × (readings < 0x100000000) }
    ensures { Done heard readings result }
{
    match heard {
        Heard::Nothing => Ok(Some(readings)),
        Heard::Sound(ticks) => {
            let end = (ticks as usize) * 4;
            match out.write_all(&pcm[..end]) {
                Ok(()) => Ok(Some(readings)),
                Err(_) => Err(Stopped::NoSound),
            }
        }
        Heard::Reading { register, value } => {
            let number = readings + 1;
            if lines::reading(rt, number, register, value) {
                Ok(Some(number))
            } else {
                Err(Stopped::NoLines)
            }
        }
        Heard::End => Ok(None),
    }
}
