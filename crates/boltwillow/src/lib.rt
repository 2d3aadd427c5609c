// The sound chip as C sees it: entries over numbers and byte slices. The crate boltwillow_c exports them.
#![tactic(auto)]

ghost use Rattle.std.specs.Prelude.{◌≡◌, ◌≤◌};
ghost use Rattle.dsp.specs.PowerOn.{new_dsp};
ghost use Rattle.chip_log.specs.Measure.{measure_of};
ghost use Rattle.dsp.specs.Run.{run_of};
ghost use Rattle.rework.specs.Rework.{rework_new_of};
ghost use Rattle.wav.specs.Wav.{Filed, filed_of, frames_as, frames_of, read_of};
ghost use Rattle.boltwillow.specs.Answers.{PlayedOut, played_of, Reworked, reworked_of, frames_answer, ReadOut, restored_of};

use chip_log::measure;
use refusal::{Refusal, code};
use rework::rework_new;
use sitting::run_new;
use wav::{read_wav, wav_frames, write_wav};

// 0, or the log's refusal: 3 to 9.
pub fn bw_measure(log: &[u8]) -> u8
    ensures { result ≡ (measure_of log.now).refusal }
{
    code(&measure(log))
}

// The log's ticks: a caller lends 4 bytes of PCM and 36 of sheet for each. 0 where the log is refused.
pub fn bw_ticks(log: &[u8]) -> u32
    ensures { result ≡ (measure_of log.now).ticks }
{
    measure(log).map_or(0, |m| m.ticks)
}

// The log's readings: a caller lends a byte for each. 0 where the log is refused.
pub fn bw_readings(log: &[u8]) -> u32
    ensures { result ≡ (measure_of log.now).readings }
{
    measure(log).map_or(0, |m| m.readings)
}

// A sitting from the power-on record. 0, or the refusal: 1, 3 to 9, 10.
pub fn bw_run(
    ram: &mut [u8],
    log: &[u8],
    pcm: &mut [u8],
    sheet: &mut [u8],
    readings: &mut [u8],
) -> u8
    ensures { ◌≡◌ {A = PlayedOut} (record { refusal = result; ram = ram.new; pcm = pcm.new; sheet = sheet.new; readings = readings.new }) (played_of (run_of new_dsp ram.old log.now pcm.old sheet.old readings.old)) }
{
    match run_new(ram, log, pcm, sheet, readings) {
        Ok(_) => 0,
        Err(e) => e.refusal.number(),
    }
}

// Two sittings from the power-on record: runs the first, and reworks it to the second. The answer's low byte is 0 or the refusal: 1,
// 3 to 9 of the old log, then of the new, 12, 11, 10. The second byte is the set A, the third the number of voices in it.
#[tactic(auto, using(crate::proofs::Few::few_new))]
pub fn bw_rework(
    named: u8,
    ram: &[u8],
    old_log: &[u8],
    new_log: &[u8],
    pcm: &mut [u8],
    sheet: &mut [u8],
    readings: &mut [u8],
) -> u32
    ensures { ◌≡◌ {A = Reworked} (record { answer = result; pcm = pcm.new; sheet = sheet.new; readings = readings.new }) (reworked_of (rework_new_of named ram.now old_log.now new_log.now pcm.old sheet.old readings.old)) }
{
    match rework_new(named, ram, old_log, new_log, pcm, sheet, readings) {
        Ok(w) => u32::from_le_bytes([0, w.members, w.count as u8, 0]),
        Err(e) => u32::from(e.refusal.number()),
    }
}

// A sound's file: 44 bytes, then the samples. 0, or the refusal: 10.
pub fn bw_write_wav(pcm: &[u8], file: &mut [u8]) -> u8
    ensures { ◌≡◌ {A = Filed} (record { refusal = result; file = file.new }) (filed_of pcm.now file.old) }
{
    code(&write_wav(pcm, file))
}

// The refusal, and above it the frames.
fn frames_answer(found: Result<u32, Refusal>) -> u32
    requires { (frames_as found).frames ≤ 32000 }
    ensures { result ≡ frames_answer (frames_as found) }
{
    match found {
        Ok(frames) => 0x100 * frames,
        Err(refusal) => u32::from(refusal.number()),
    }
}

// The frames of a file of that layout, above the low byte, which is 0; or 13.
#[tactic(auto, using(wav::proofs::Files::few))]
pub fn bw_wav_frames(file: &[u8]) -> u32
    ensures { result ≡ frames_answer (frames_of file.now) }
{
    frames_answer(wav_frames(file))
}

// The samples of a file of that layout. The answer's low byte is 0 or the refusal: 13, 10. Above it is the number of frames.
#[tactic(auto, using(wav::proofs::Files::read_few))]
pub fn bw_read_wav(file: &[u8], pcm: &mut [u8]) -> u32
    ensures { ◌≡◌ {A = ReadOut} (record { answer = result; pcm = pcm.new }) (restored_of (read_of file.now pcm.old)) }
{
    frames_answer(read_wav(file, pcm))
}
