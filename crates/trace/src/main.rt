// Runs a file of cases, each whole and then tick by tick, and prints what it gives, with a digest over every tick, as
// the oracle does from the given Rust: "longer logs a program runs and compares" (document 01). tools/oracle makes the
// cases.
#![tactic(auto)]

mod cases;
mod ticks;

use report::cases::each;

fn main(rt: HostRuntime) {
    each(&rt, |file, number| cases::next(&rt, file, number));
}
