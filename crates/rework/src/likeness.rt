// Whether two logs are the same records in the same order without the named voices' own writes.
ghost use Rattle.std.specs.Prelude.{◌≡◌, ◌<◌};
ghost use Rattle.chip_log.specs.Log.{Known, decode, next_of};
ghost use Rattle.rework.specs.Alike.{named, stays, alike, Opens};

use chip_log::{Record, read};
use numbers::bit;

// One of $j0 .. $j7 of a named voice j.
fn is_named(set: u8, register: u8) -> bool
    requires { register < 128 }
    ensures { result ≡ named set register }
{
    (register % 16 < 8) & bit(set, (register / 16) as usize)
}

fn is_staying(set: u8, found: Record) -> bool
    requires { Known found }
    ensures { result ≡ stays set found }
{
    match found {
        Record::Write { register, .. } => !is_named(set, register),
        _ => true,
    }
}

// The next record that stays, from a place on, and the place behind it.
#[tactic(auto, using(crate::proofs::Stays::closed, crate::proofs::Stays::staying, crate::proofs::Stays::passing, chip_log::proofs::Turn::moved))]
fn next_staying(set: u8, log: &[u8], from: usize) -> Option<(Record, usize)>
    ensures { Opens set log.now from (next_of (Ok result)) }
{
    let mut at = from;
    loop {
        let Ok(Some((found, behind))) = read(log, at) else {
            return None;
        };
        if is_staying(set, found) {
            return Some((found, behind));
        }
        at = behind;
    }
}

// Both logs are walked together, each past the named voices' own writes.
#[tactic(auto, unfolding(chip_log::specs::Log::decode, crate::specs::Alike::same_records, crate::specs::Alike::alike), using(crate::proofs::Stays::none_left, crate::proofs::Stays::differ))]
pub(crate) fn are_alike(set: u8, old: &[u8], new: &[u8]) -> bool
    ensures { result ≡ alike set (decode old.now).records (decode new.now).records }
{
    let mut i: usize = 0;
    let mut j: usize = 0;
    loop {
        let Some((found, at)) = next_staying(set, old, i) else {
            return next_staying(set, new, j).is_none();
        };
        let Some((other, behind)) = next_staying(set, new, j) else {
            return false;
        };
        if found != other {
            return false;
        }
        i = at;
        j = behind;
    }
}
