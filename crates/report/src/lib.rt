// What the programs share: what they read, the lines they print, digests, and runs with exactly as much lent as is needed.
#![tactic(auto)]

pub mod cases;
pub mod digest;
pub mod input;
pub mod left;
pub mod lines;
pub mod runs;
