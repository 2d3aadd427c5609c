// What a run leaves, in digests: the two ways to run a log must leave the same.
ghost use Rattle.std.specs.Prelude.{◌≡◌};
ghost use Rattle.report.specs.Digest.{left_by, same_left};

use crate::digest::{EMPTY, with_bytes, with_reads, with_registers};
use dsp::Dsp;

#[derive(Clone, Copy, PartialEq, Eq)]
pub struct Left {
    pub dsp: u64,
    pub ram: u64,
    pub pcm: u64,
    pub readings: u64,
}

impl Left {
    pub fn by(dsp: Dsp, ram: &[u8], pcm: u64, readings: u64) -> Self
        ensures { result ≡ left_by dsp ram.now pcm readings }
    {
        Left {
            dsp: with_reads(with_registers(EMPTY, dsp), dsp),
            ram: with_bytes(EMPTY, ram),
            pcm,
            readings,
        }
    }

    // All four digests.
    pub fn same(self, other: Left) -> bool
        ensures { result ≡ same_left self other }
    {
        self == other
    }
}
