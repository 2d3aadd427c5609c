// Reworks stored pairs of sittings and prints what comes out, as the oracle says it of fresh runs of the second sitting on the
// given Rust. tools/oracle makes the pairs.
#![tactic(auto)]

mod cases;
mod redone;

use report::cases::each;

fn main(rt: HostRuntime) {
    each(&rt, |file, number| cases::next(&rt, file, number));
}
