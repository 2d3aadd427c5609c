// A run of a log from a record, or from the power-on record.
ghost use Rattle.std.specs.Prelude.{◌≡◌};
ghost use Rattle.dsp.specs.PowerOn.{new_dsp};
ghost use Rattle.dsp.specs.Run.{outcome, run_with, run_of};

use dsp::{Dsp, Ran, Work, play_log};
use refusal::Refused;

// Runs a log with some of the lanes; the others are shown from the sheet as it is lent. The whole log is checked before the first
// tick. Refuses 1, 2, 3, then 4 to 9, then 10.
pub fn run_with(
    work: Work,
    start: Dsp,
    ram: &mut [u8],
    log: &[u8],
    pcm: &mut [u8],
    sheet: &mut [u8],
    readings: &mut [u8],
) -> Result<Ran, Refused<Dsp>>
    ensures { outcome result ram.new pcm.new sheet.new readings.new ≡ run_with work start ram.old log.now pcm.old sheet.old readings.old }
{
    play_log(work, start, ram, log, pcm, sheet, readings)
}

// A run works every lane. Refuses as `run_with` does.
pub fn run(
    start: Dsp,
    ram: &mut [u8],
    log: &[u8],
    pcm: &mut [u8],
    sheet: &mut [u8],
    readings: &mut [u8],
) -> Result<Ran, Refused<Dsp>>
    ensures { outcome result ram.new pcm.new sheet.new readings.new ≡ run_of start ram.old log.now pcm.old sheet.old readings.old }
{
    run_with(Work::EVERYTHING, start, ram, log, pcm, sheet, readings)
}

// The same from the power-on record. Refuses 1, 3, then 4 to 9, then 10.
pub fn run_new(
    ram: &mut [u8],
    log: &[u8],
    pcm: &mut [u8],
    sheet: &mut [u8],
    readings: &mut [u8],
) -> Result<Ran, Refused<Dsp>>
    ensures { outcome result ram.new pcm.new sheet.new readings.new ≡ run_of new_dsp ram.old log.now pcm.old sheet.old readings.old }
{
    run(Dsp::new(), ram, log, pcm, sheet, readings)
}
