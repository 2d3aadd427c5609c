// Calls the public entries with bad input and with records made for the purpose, and prints what came out. The lines
// that must come out follow from document 01, group by group:
// - lengths: "1: RAM slice isn't 65,536 bytes", before "2: a given record is unfit";
// - limits: "A fit record: ..", each clause at its limit and one past it;
// - runs: "Order: 1, 2, 3, then 4 to 9 at the first place in the log, .. 10", in `run` and `run_new`;
// - staged: the same in `run_part`, "the whole log is checked before the first tick";
// - all four: "A refusal answers its number, the record given .. and zeros elsewhere; RAM, sheet and outputs keep
//   their bytes";
// - bytes, turned, readings: "Where a field and its register byte differ in a given record, a poll's KOFF, a loop
//   jump's DIR and SRCN and `read_reg` use the bytes, all else the fields".
#![tactic(auto)]

mod answers;
mod bytes;
mod calls;
mod lengths;
mod limits;
mod lines;
mod parts;
mod readings;
mod runs;
mod staged;
mod turned;

fn main(rt: HostRuntime) {
    lengths::all(&rt);
    limits::all(&rt);
    bytes::all(&rt);
    turned::all(&rt);
    runs::all(&rt);
    staged::all(&rt);
    readings::all(&rt);
}
