// The readings of two sittings side by side: how many are as before, which have changed, and whether anything has to be marked again.
ghost use Rattle.std.specs.Prelude.{◌≡◌, ◌≤◌, length};
ghost use Rattle.numbers.specs.Bytes.{copied};
ghost use Rattle.numbers.specs.Unsigned.{least as least_of};
ghost use Rattle.remark.specs.Marking.{same as same_of, changed as changed_of, verdict_of, kept as kept_of, same_at, greatest as greatest_of};

use report::runs::least;

#[derive(Clone, Copy)]
pub enum Verdict {
    Nothing,
    Changed,
}

fn greatest(a: usize, b: usize) -> usize
    ensures { result ≡ greatest_of a b }
{
    a.max(b)
}

// 1 for a reading that has the value that it had.
fn kept(was: u8, is: u8) -> u64
    ensures { (result ≡ kept_of was is) × (result ≤ 1) }
{
    (was == is) as u64
}

// How many are as before.
pub fn same(before: &[u8], after: &[u8]) -> u64
    ensures { result ≡ same_of before.now after.now }
{
    let n = least(before.len(), after.len());
    let mut count: u64 = 0;
    for i in 0..n {
        count += kept(before[i], after[i]);
    }
    count
}

// A reading that only one of the two has is not as before.
fn same_at(before: &[u8], after: &[u8], i: usize) -> bool
    ensures { result ≡ same_at before.now after.now i }
{
    match (before.get(i), after.get(i)) {
        (Some(was), Some(is)) => was == is,
        _ => false,
    }
}

// The running numbers of those that have changed, from 1, as many as there is room for.
pub fn changed(before: &[u8], after: &[u8], to: &mut [u64]) -> usize
    ensures { (result ≡ least_of (length (changed_of before.now after.now)) (length to.old)) × (to.new ≡ copied (changed_of before.now after.now) to.old) }
{
    let n = greatest(before.len(), after.len());
    let mut put: usize = 0;
    for i in 0..n {
        if put == to.len() {
            return put;
        }
        if !same_at(before, after, i) {
            to[put] = i as u64 + 1;
            put += 1;
        }
    }
    put
}

pub fn verdict_of(before: &[u8], after: &[u8]) -> Verdict
    ensures { result ≡ verdict_of before.now after.now }
{
    if before == after {
        return Verdict::Nothing;
    }
    Verdict::Changed
}
