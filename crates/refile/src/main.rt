// Writes and reads stored sound files by the public entries of `wav` and prints what comes out, as the oracle says it from
// document 02, W-201. tools/oracle makes the cases.
#![tactic(auto)]

mod cases;
mod filed;

use report::cases::each;

fn main(rt: HostRuntime) {
    each(&rt, |file, number| cases::next(&rt, file, number));
}
