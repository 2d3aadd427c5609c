// Replays the stored records of the leaves, with no Rust at hand, and prints a line for each: "the rest, and longer
// logs, a program runs and compares" (document 01). tools/oracle makes the records.
#![tactic(auto)]

mod block;
mod envelope;
mod interpolation;
mod leaves;
mod lines;
mod machine;
mod noise;
mod parts;
mod records;

use leaves::Leaf;
use lines::line;

fn main(rt: HostRuntime) {
    line(&rt, Leaf::Nibble, b"nibble");
    line(&rt, Leaf::Block, b"block");
    line(&rt, Leaf::Interpolation, b"interpolate");
    line(&rt, Leaf::Envelope, b"envelope");
    line(&rt, Leaf::Noise, b"noise");
}
