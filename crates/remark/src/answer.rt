// The answer: the old log played from power-on and reworked to the new one, and the readings of both compared.
ghost use Rattle.std.specs.Prelude.{◌≡◌};
ghost use Rattle.rework.specs.Rework.{left};
ghost use Rattle.remark.specs.Answer.{rework_cut, both, both_of, Judged as JudgedOf, judge_of, Answer as AnswerOf, answer_of};

use crate::marking::{Verdict, changed, same, verdict_of};
use dsp::Dsp;
use refusal::{Refusal, Refused};
use report::runs::{registers_read, room_of, run_cut, within};
use rework::{Reworked, rework};

// Why nothing was worked: the old log's own run was refused, or the rework.
#[derive(Clone, Copy)]
pub enum Unworked {
    Old(Refusal),
    New(Refusal),
}

// How many readings there are, how many are as before, and how many of the others are listed.
#[derive(Clone, Copy)]
pub struct Judged {
    pub readings: usize,
    pub same: u64,
    pub listed: usize,
    pub verdict: Verdict,
}

#[derive(Clone, Copy)]
pub struct Answer {
    // The set of voices that were worked, and their number.
    pub worked: Result<(u8, u32), Unworked>,
    pub judged: Judged,
}

// Lends what the new log needs; were there less, the rework would refuse by 10.
#[tactic(auto, unfolding(crate::specs::Answer::rework_cut))]
fn rework_cut(
    named: u8,
    end: Dsp,
    ram: &[u8],
    old: &[u8],
    new: &[u8],
    pcm: &mut [u8],
    sheet: &mut [u8],
    readings: &mut [u8],
) -> Result<Reworked, Refused<Dsp>>
    ensures { left result pcm.new sheet.new readings.new ≡ rework_cut named end ram.now old.now new.now pcm.old sheet.old readings.old }
{
    let n = room_of(new).within(pcm.len(), sheet.len(), readings.len());
    rework(
        named,
        Dsp::new(),
        end,
        ram,
        old,
        new,
        &mut pcm[..n.pcm],
        &mut sheet[..n.sheet],
        &mut readings[..n.readings],
    )
}

// The old log has a RAM of its own.
#[tactic(auto, unfolding(crate::specs::Answer::both_of))]
fn work(
    named: u8,
    ram: &[u8],
    own: &mut [u8],
    old: &[u8],
    new: &[u8],
    pcm: &mut [u8],
    sheet: &mut [u8],
    before: &mut [u8],
    after: &mut [u8],
) -> Result<(u8, u32), Unworked>
    ensures { both result own.new pcm.new sheet.new before.new after.new ≡ both_of named ram.now own.old old.now new.now pcm.old sheet.old before.old after.old }
{
    let end = match run_cut(None, own, old, pcm, sheet, before) {
        Ok(first) => first.dsp,
        Err(e) => return Err(Unworked::Old(e.refusal)),
    };
    match rework_cut(named, end, ram, old, new, pcm, sheet, after) {
        Ok(w) => Ok((w.members, w.count)),
        Err(e) => Err(Unworked::New(e.refusal)),
    }
}

// As many readings as the new log has.
#[tactic(auto, unfolding(crate::specs::Answer::judge_of), using(crate::proofs::Answers::take_least))]
fn judge(
    new: &[u8],
    before: &[u8],
    after: &[u8],
    registers: &mut [u8],
    numbers: &mut [u64],
) -> Judged
    ensures { ◌≡◌ {A = JudgedOf} (record { readings = result.readings; same = result.same; listed = result.listed; verdict = result.verdict; registers = registers.new; numbers = numbers.new }) (judge_of new.now before.now after.now registers.old numbers.old) }
{
    let n = registers_read(new, registers);
    let b = within(n, before);
    let a = within(n, after);
    let listed = changed(&before[..b], &after[..a], numbers);
    Judged {
        readings: n,
        same: same(&before[..b], &after[..a]),
        listed,
        verdict: verdict_of(&before[..b], &after[..a]),
    }
}

#[tactic(auto, unfolding(crate::specs::Answer::answer_of))]
pub fn answered(
    named: u8,
    ram: &[u8],
    own: &mut [u8],
    old: &[u8],
    new: &[u8],
    pcm: &mut [u8],
    sheet: &mut [u8],
    before: &mut [u8],
    after: &mut [u8],
    registers: &mut [u8],
    numbers: &mut [u64],
) -> Answer
    ensures { ◌≡◌ {A = AnswerOf} (record { both = both result.worked own.new pcm.new sheet.new before.new after.new; judged = record { readings = result.judged.readings; same = result.judged.same; listed = result.judged.listed; verdict = result.judged.verdict; registers = registers.new; numbers = numbers.new } }) (answer_of named ram.now own.old old.now new.now pcm.old sheet.old before.old after.old registers.old numbers.old) }
{
    let w = work(named, ram, own, old, new, pcm, sheet, before, after);
    let j = judge(new, before, after, registers, numbers);
    Answer {
        worked: w,
        judged: j,
    }
}
