// A record of a block: address, nine bytes, prev1, prev2 | 16 samples, prev1, prev2, flags. RAM is 0 elsewhere, but
// for the directory entry through which a voice comes to the block.
ghost use Rattle.std.specs.Prelude.{◌≡◌, ◌≤◌, length};
ghost use Rattle.dsp.specs.Registers.{Written};
ghost use Rattle.refusal.specs.Refusal.{told, handed};
ghost use Rattle.replay.specs.Block.{laid, samples_equal, flags_equal, played_block, voice_says, block_equal};

use crate::machine::{empty_ram, keyed_on, playback, sound, steady, tick};
use crate::records::{byte_at, i16_at, is_i16_at, u16_at};
use dsp::{Answer, Voice};

// "Every byte address in RAM wraps at 65,536" (document 01).
#[tactic(auto, unfolding(crate::specs::Block::laid))]
fn lay(ram: &mut [u8], at: u16, part: &[u8])
    requires { (length ram.old ≡ 0x10000) × (length part.now ≤ 9) }
    ensures { ram.new ≡ laid part.now at (length part.now) ram.old }
{
    for k in 0..part.len() {
        let to = at.wrapping_add(k as u16) as usize;
        ram[to] = part[k];
    }
}

#[tactic(auto, unfolding(crate::specs::Block::samples_equal))]
fn samples_equal(samples: &[i16], bytes: &[u8]) -> bool
    requires { (length samples.now ≡ 16) × (length bytes.now ≡ 52) }
    ensures { result ≡ samples_equal samples.now bytes.now 16 }
{
    let mut equal = true;
    for k in 0..16 {
        equal = equal & is_i16_at(samples[k], bytes, 15 + k * 2);
    }
    equal
}

// Bit 0 end, bit 1 loop. "An end block without loop: .. `key_on` clear"; without end the loop flag does not show.
fn flags_equal(flags: u8, end: bool, on: bool) -> bool
    ensures { result ≡ flags_equal flags end on }
{
    match flags {
        1 => end & !on,
        3 => end & on,
        _ => !end & on & (flags <= 2),
    }
}

// The entry lies past the block: $100 after its start, and the block has nine bytes.
#[tactic(auto, unfolding(crate::specs::Block::played_block))]
fn played(bytes: &[u8]) -> Answer
    requires { length bytes.now ≡ 52 }
    ensures { ◌≡◌ {A = Written} (record { refusal = told result; dsp = handed result }) (played_block bytes.now) }
{
    let addr = u16_at(bytes, 0);
    let entry = numbers::wrapping_add16(addr, 0x100);
    let mut ram = empty_ram();
    lay(&mut ram, addr, &bytes[2..11]);
    lay(&mut ram, entry, &bytes[0..2]);
    let b = playback(entry, i16_at(bytes, 11), i16_at(bytes, 13), 0);
    tick(keyed_on(steady(), b, 0, [0; 4]), &mut ram)
}

fn says(v: Voice, bytes: &[u8]) -> bool
    requires { length bytes.now ≡ 52 }
    ensures { result ≡ voice_says v bytes.now }
{
    samples_equal(&v.brr.sample_buffer, bytes)
        & is_i16_at(v.brr.prev1, bytes, 47)
        & is_i16_at(v.brr.prev2, bytes, 49)
        & flags_equal(byte_at(bytes, 51), v.brr.block_end, v.key_on)
}

#[tactic(auto, unfolding(crate::specs::Block::block_equal), using(refusal::proofs::Numbers::positive))]
pub fn equal(bytes: &[u8]) -> bool
    requires { length bytes.now ≡ 52 }
    ensures { result ≡ block_equal bytes.now }
{
    played(bytes).is_ok_and(|d| says(sound(d), bytes))
}
