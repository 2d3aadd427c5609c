// A byte as a set of voices.
ghost use Rattle.std.specs.Prelude.{◌≡◌};
ghost use Rattle.rework.specs.Members.{voices_in};

// "the number of voices in it": the count of ones of the eight-bit set.
#[tactic(auto, using(crate::proofs::Bits::voices_ones))]
pub(crate) fn count(set: u8) -> u32
    ensures { result ≡ voices_in set }
{
    set.count_ones()
}
