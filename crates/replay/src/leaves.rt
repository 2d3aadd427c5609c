// The leaves that are replayed: how long a record of each is, and whether a record says what the leaf gives.
ghost use Rattle.std.specs.Prelude.{◌≡◌, ◌≤◌, ◌<◌, length};
ghost use Rattle.dsp.specs.Noise.{Noise};
ghost use Rattle.replay.specs.Leaves.{record_size, started, decoded, nibble_equal, check_of};
ghost use Rattle.replay.specs.Noise.{Check};

use crate::records::{Carry, Checked, byte_at, i8_at, i16_at, is_i16_at};
use dsp::Dsp;

#[derive(Clone, Copy)]
pub enum Leaf {
    Nibble,
    Block,
    Interpolation,
    Envelope,
    Noise,
}

pub fn size(leaf: Leaf) -> usize
    ensures { (result ≡ record_size leaf) × (0 < result) × (result ≤ 0x10000) }
{
    match leaf {
        Leaf::Nibble => 9,
        Leaf::Block => 52,
        Leaf::Interpolation => 12,
        Leaf::Envelope => 16,
        Leaf::Noise => 3,
    }
}

// What the first record is handed: the noise of `new`.
pub fn start() -> Carry
    ensures { ◌≡◌ {A = Noise} (record { lfsr = result.lfsr; counter = result.counter }) started }
{
    Carry::of(Dsp::new())
}

// "A direct call uses the low 4 bits of n, 2 of the filter": the records have all 8 bits of both.
fn decoded(bytes: &[u8]) -> i16
    requires { length bytes.now ≡ 9 }
    ensures { result ≡ decoded bytes.now }
{
    dsp::decode_brr_nibble(
        i8_at(bytes, 0),
        byte_at(bytes, 1),
        byte_at(bytes, 2),
        i16_at(bytes, 3),
        i16_at(bytes, 5),
    )
}

#[tactic(auto, unfolding(crate::specs::Leaves::nibble_equal))]
fn nibble(bytes: &[u8]) -> bool
    requires { length bytes.now ≡ 9 }
    ensures { result ≡ nibble_equal bytes.now }
{
    is_i16_at(decoded(bytes), bytes, 7)
}

pub fn check(leaf: Leaf, bytes: &[u8], carry: Carry) -> Checked
    requires { length bytes.now ≡ record_size leaf }
    ensures { ◌≡◌ {A = Check} (record { equal = result.equal; carry = record { lfsr = result.carry.lfsr; counter = result.carry.counter } }) (check_of leaf bytes.now (record { lfsr = carry.lfsr; counter = carry.counter })) }
{
    match leaf {
        Leaf::Nibble => Checked {
            equal: nibble(bytes),
            carry,
        },
        Leaf::Block => Checked {
            equal: crate::block::equal(bytes),
            carry,
        },
        Leaf::Interpolation => Checked {
            equal: crate::interpolation::equal(bytes),
            carry,
        },
        Leaf::Envelope => Checked {
            equal: crate::envelope::equal(bytes),
            carry,
        },
        Leaf::Noise => crate::noise::checked(bytes, carry),
    }
}
