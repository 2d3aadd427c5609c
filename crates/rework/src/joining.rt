// The set A over a log, and whether echo writing is off at every tick of it.
ghost use Rattle.std.specs.Prelude.{◌≡◌, ◌&&◌, ◌<◌};
ghost use Rattle.chip_log.specs.Log.{decode};
ghost use Rattle.rework.specs.Members.{modes_by, quiet_in, quiet, join_after, joined_by, joined_over, joined_in, members};

use crate::modes::Modes;
use chip_log::{Record, read};
use numbers::{bit, with_bit};

// How far a walk over the log has come: the fields, whether every tick so far was quiet, and the set so far.
#[derive(Clone, Copy)]
pub struct Walked {
    pub modes: Modes,
    pub quiet: bool,
    pub set: u8,
}

// Voice j + 1 joins if voice j is in the set and PMON bit j + 1 is set.
fn join_after(pmon: u8, j: usize, set: u8) -> u8
    requires { j < 7 }
    ensures { result ≡ join_after pmon j set }
{
    if bit(set, j) & bit(pmon, j + 1) {
        with_bit(set, j + 1, true)
    } else {
        set
    }
}

// A tick, from voice 1 up.
#[tactic(auto, unfolding(numbers::specs::Listed::turns, crate::specs::Members::joined_by))]
fn joined_by(pmon: u8, set: u8) -> u8
    ensures { result ≡ joined_by pmon set }
{
    let mut a = set;
    for j in 0..7 {
        a = join_after(pmon, j, a);
    }
    a
}

// No tick changes PMON, so that the ticks of one record join what its first does.
#[tactic(auto, unfolding(crate::specs::Members::joined_over), using(crate::proofs::Walks::over_some))]
fn joined_over(count: u16, pmon: u8, set: u8) -> u8
    ensures { result ≡ joined_over count pmon set }
{
    if count == 0 {
        return set;
    }
    joined_by(pmon, set)
}

impl Walked {
    fn past(self, found: Record) -> Self
        ensures { (result.modes ≡ modes_by found self.modes) × (result.quiet ≡ (self.quiet && quiet_in found self.modes)) × (result.set ≡ joined_in found self.modes self.set) }
    {
        match found {
            Record::Write { register, value } => Self {
                modes: self.modes.after(register, value),
                ..self
            },
            Record::Ticks { count } => Self {
                quiet: self.quiet & ((count == 0) | bit(self.modes.flg, 5)),
                set: joined_over(count, self.modes.pmon, self.set),
                ..self
            },
            Record::Reading { .. } => self,
        }
    }
}

#[tactic(auto, unfolding(chip_log::specs::Log::decode), using(crate::proofs::Walks::quiet_on, crate::proofs::Walks::quiet_end, crate::proofs::Walks::members_on, crate::proofs::Walks::members_end))]
pub(crate) fn walk(named: u8, start: Modes, log: &[u8]) -> Walked
    ensures { (result.quiet ≡ quiet (decode log.now).records start) × (result.set ≡ members (decode log.now).records start named) }
{
    let mut w = Walked {
        modes: start,
        quiet: true,
        set: named,
    };
    let mut at: usize = 0;
    loop {
        let Ok(Some((found, behind))) = read(log, at) else {
            return w;
        };
        w = w.past(found);
        at = behind;
    }
}
