// A rework, and its refusals.
ghost use Rattle.std.specs.Prelude.{◌≡◌, ℕ, length};
ghost use Rattle.refusal.specs.Refusal.{code};
ghost use Rattle.rework.specs.Members.{modes_of};
ghost use Rattle.rework.specs.Rework.{refusal_of, set_of, left, rework_of, rework_new_of};

use crate::ending::end_of;
use crate::joining::walk;
use crate::likeness::are_alike;
use crate::modes::Modes;
use crate::sets::count;
use chip_log::measure;
use dsp::{Dsp, RAM_SIZE, Work};
use numbers::copy;
use refusal::{Refusal, Refused};
use sitting::{run_new, run_with};

// The end record, the set A, and the number of voices in it.
#[derive(Clone, Copy, PartialEq, Eq)]
pub struct Reworked {
    pub dsp: Dsp,
    pub members: u8,
    pub count: u32,
}

fn modes_of(start: Dsp) -> Modes
    ensures { result ≡ modes_of start }
{
    Modes {
        flg: start.flg,
        pmon: start.pmon,
    }
}

// The set A, or the refusal, but for 10, which is the run's own: 1, 2 of the start record, then of the old end record, the old log's, the
// new log's, 12, 11.
#[tactic(auto, unfolding(crate::specs::Rework::refusal_of))]
fn checked(
    named: u8,
    start: Dsp,
    old_end: Dsp,
    ram: &[u8],
    old_log: &[u8],
    new_log: &[u8],
) -> Result<u8, Refusal>
    ensures refusal { code result ≡ refusal_of named start old_end ram.now old_log.now new_log.now }
    ensures set { (a : ℕ) → result ≡ Ok a → a ≡ set_of named start new_log.now }
{
    if ram.len() != RAM_SIZE {
        return Err(Refusal::RamSize);
    }
    if !start.is_fit() || !old_end.is_fit() {
        return Err(Refusal::Unfit);
    }
    measure(old_log)?;
    measure(new_log)?;
    if !are_alike(named, old_log, new_log) {
        return Err(Refusal::LogsDiffer);
    }
    let w = walk(named, modes_of(start), new_log);
    if !w.quiet {
        return Err(Refusal::EchoWrites);
    }
    Ok(w.set)
}

// A copy of RAM for a run to work over. It is written where the caller has it: an array that is handed back is copied once more, on a
// stack of its own size.
fn own_ram(ram: &[u8], own: &mut [u8; RAM_SIZE])
    ensures { length ram.now ≡ 0x10000 → own.new ≡ ram.now }
{
    copy(ram, own);
}

// Works A's voices alone, from the first tick, over the old sheet and end record. RAM is read only, so that the run has a copy.
// Refuses 1, 2, 3 to 9, 12, 11, 10.
#[tactic(auto, unfolding(crate::specs::Rework::rework_of), using(crate::proofs::Reworks::ram_whole, crate::proofs::Reworks::given, refusal::proofs::Numbers::positive))]
pub fn rework(
    named: u8,
    start: Dsp,
    old_end: Dsp,
    ram: &[u8],
    old_log: &[u8],
    new_log: &[u8],
    pcm: &mut [u8],
    sheet: &mut [u8],
    readings: &mut [u8],
) -> Result<Reworked, Refused<Dsp>>
    ensures { left result pcm.new sheet.new readings.new ≡ rework_of named start old_end ram.now old_log.now new_log.now pcm.old sheet.old readings.old }
{
    let members = match checked(named, start, old_end, ram, old_log, new_log) {
        Ok(members) => members,
        Err(refusal) => return Err(refusal.of(start)),
    };
    let mut own = [0; RAM_SIZE];
    own_ram(ram, &mut own);
    let work = Work {
        voices: members,
        echo: false,
    };
    let r = run_with(work, start, &mut own, new_log, pcm, sheet, readings)?;
    Ok(Reworked {
        dsp: end_of(members, r.dsp, old_end),
        members,
        count: count(members),
    })
}

// Two sittings from the power-on record: runs the first, and reworks it to the second. What is lent serves both runs. Refuses 1, 3 to
// 9, 12, 11, 10, all before the first tick.
#[tactic(auto, unfolding(crate::specs::Rework::rework_new_of), using(crate::proofs::Reworks::ram_whole, crate::proofs::Reworks::given, refusal::proofs::Numbers::positive))]
pub fn rework_new(
    named: u8,
    ram: &[u8],
    old_log: &[u8],
    new_log: &[u8],
    pcm: &mut [u8],
    sheet: &mut [u8],
    readings: &mut [u8],
) -> Result<Reworked, Refused<Dsp>>
    ensures { left result pcm.new sheet.new readings.new ≡ rework_new_of named ram.now old_log.now new_log.now pcm.old sheet.old readings.old }
{
    let start = Dsp::new();
    if let Err(refusal) = checked(named, start, start, ram, old_log, new_log) {
        return Err(refusal.of(start));
    }
    let mut own = [0; RAM_SIZE];
    own_ram(ram, &mut own);
    let first = run_new(&mut own, old_log, pcm, sheet, readings)?;
    rework(
        named, start, first.dsp, ram, old_log, new_log, pcm, sheet, readings,
    )
}
