// A run in parts: no sheet, and a PCM buffer of the caller's size. Each call works one record of the log, or as many
// ticks of a TK record as the buffer holds.
ghost use Rattle.std.specs.Prelude.{◌≡◌, ◌*◌, ◌≤◌, length};
ghost use Rattle.dsp.specs.Fit.{Fit};
ghost use Rattle.chip_log.specs.Log.{read_at, Known};
ghost use Rattle.refusal.specs.Refusal.{code};
ghost use Rattle.sitting.specs.Parts.{Parted, told_by, telling, record_at, next_at, ticks_now, sounding, log_refusal, part_of, Goes};

use chip_log::{LOG_MOST, Record, measure, read};
use dsp::{Dsp, RAM_SIZE, Work};
use refusal::{Refusal, Refused};

// So many ticks go in one call of the chip at most, as a sheet of so many rows is kept aside.
const TICKS_AT_ONCE: u16 = 64;

// Where a run in parts stands: the record, the place in the log, and the ticks of the TK record before it that are
// still to come. These two are set here alone: a stage behind the front of a log comes of a log that was checked.
#[derive(Clone, Copy, PartialEq, Eq)]
pub struct Stage {
    pub dsp: Dsp,
    at: usize,
    left: u16,
}

// What a part puts out: nothing, so many ticks in the PCM buffer, or a reading; or the log has ended.
#[derive(Clone, Copy, PartialEq, Eq)]
pub enum Heard {
    Nothing,
    Sound(u16),
    Reading { register: u8, value: u8 },
    End,
}

#[derive(Clone, Copy, PartialEq, Eq)]
pub struct Part {
    pub stage: Stage,
    pub heard: Heard,
}

impl Stage {
    // Before the first record.
    pub fn new(dsp: Dsp) -> Self
        ensures { (result.dsp ≡ dsp) × (result.at ≡ 0) × (result.left ≡ 0) }
    {
        Stage {
            dsp,
            at: 0,
            left: 0,
        }
    }

    #[tactic(auto, unfolding(crate::specs::Parts::record_at), using(dsp::proofs::Batches::written))]
    fn played(self, found: Record, behind: usize) -> Result<Part, Refused<Stage>>
        requires { (self.left ≡ 0) × Known found × Fit self.dsp }
        ensures { told_by result ≡ record_at found behind self.dsp }
    {
        match found {
            Record::Write { register, value } => {
                let after = self.dsp.write_reg(register, value);
                let dsp = after.map_err(|e| e.refusal.of(self))?;
                Ok(told(dsp, behind, 0, Heard::Nothing))
            }
            Record::Ticks { count } => Ok(told(self.dsp, behind, count, Heard::Nothing)),
            Record::Reading { register } => {
                let value = self.dsp.read_reg(register);
                Ok(told(self.dsp, behind, 0, Heard::Reading { register, value }))
            }
        }
    }

    #[tactic(auto, unfolding(crate::specs::Parts::next_at, crate::specs::Parts::stop_at))]
    fn at_record(self, log: &[u8]) -> Result<Part, Refused<Stage>>
        requires { (self.left ≡ 0) × Fit self.dsp }
        ensures { (told_by result ≡ next_at (read_at log.now self.at) self.dsp self.at) × Goes self.at 0 (length log.now) (told_by result) }
    {
        match read(log, self.at) {
            Ok(Some((found, behind))) => self.played(found, behind),
            Ok(None) => Ok(told(self.dsp, self.at, 0, Heard::End)),
            Err(refusal) => Err(refusal.of(self)),
        }
    }

    // As many ticks as are left, as the buffer holds, and as go in one call.
    #[tactic(auto, unfolding(crate::specs::Parts::ticks_now))]
    fn ticks_now(self, room: usize) -> u16
        requires { (1 ≤ self.left) × (4 ≤ room) }
        ensures { (result ≡ ticks_now self.left room) × (1 ≤ result) × (result ≤ self.left) × (result * 4 ≤ room) × (result ≤ 64) }
    {
        let most = self.left.min(TICKS_AT_ONCE);
        (room / 4).min(most as usize) as u16
    }

    fn sounded(self, n: u16, ram: &mut [u8], pcm: &mut [u8]) -> Result<Part, Refused<Stage>>
        requires { (length ram.old ≡ 0x10000) × Fit self.dsp × (n ≤ self.left) × (n * 4 ≤ length pcm.old) × (n ≤ 64) }
        ensures { ◌≡◌ {A = Parted} (record { told = told_by result; ram = ram.new; pcm = pcm.new }) (sounding n self.dsp self.at self.left ram.old pcm.old) }
    {
        let mut sheet = [0; 36 * TICKS_AT_ONCE as usize];
        let to = (n as usize) * 4;
        let end = (n as usize) * 36;
        match self.dsp.ticks(Work::EVERYTHING, n, ram, &mut pcm[..to], &mut sheet[..end]) {
            Ok(dsp) => Ok(told(dsp, self.at, self.left - n, Heard::Sound(n))),
            Err(e) => Err(e.refusal.of(self)),
        }
    }
}

fn told(dsp: Dsp, at: usize, left: u16, heard: Heard) -> Part
    ensures { told_by (Ok result) ≡ telling dsp at left heard }
{
    Part {
        stage: Stage { dsp, at, left },
        heard,
    }
}

// The log's refusal: the whole log's where a run begins, and behind that its length's.
#[tactic(auto, unfolding(crate::specs::Parts::log_refusal))]
fn log_refusal(at: usize, log: &[u8]) -> Result<(), Refusal>
    ensures { code result ≡ log_refusal at log.now }
{
    if at == 0 {
        measure(log)?;
    } else if log.len() > LOG_MOST {
        return Err(Refusal::LogTooLong);
    }
    Ok(())
}

// One part. Refuses 1, 2, then by 3 to 9 the log, all of it before the first tick; with ticks left, a buffer without room for one
// by 10. Behind the front of a log 3 to 9 are for a caller who hands in another log than the one that was checked.
#[tactic(auto, unfolding(crate::specs::Parts::part_of), using(crate::proofs::Parting::refused_goes, refusal::proofs::Numbers::positive))]
pub fn run_part(
    stage: Stage,
    ram: &mut [u8],
    log: &[u8],
    pcm: &mut [u8],
) -> Result<Part, Refused<Stage>>
    ensures { (◌≡◌ {A = Parted} (record { told = told_by result; ram = ram.new; pcm = pcm.new }) (part_of stage.dsp stage.at stage.left ram.old log.now pcm.old)) × Goes stage.at stage.left (length log.now) (told_by result) }
{
    if ram.len() != RAM_SIZE {
        return Err(Refusal::RamSize.of(stage));
    }
    if !stage.dsp.is_fit() {
        return Err(Refusal::Unfit.of(stage));
    }
    if let Err(refusal) = log_refusal(stage.at, log) {
        return Err(refusal.of(stage));
    }
    if stage.left == 0 {
        return stage.at_record(log);
    }
    if pcm.len() < 4 {
        return Err(Refusal::WrongRoom.of(stage));
    }
    let n = stage.ticks_now(pcm.len());
    stage.sounded(n, ram, pcm)
}
