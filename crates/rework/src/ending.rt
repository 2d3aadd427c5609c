// The end record: the old one, with the voice records, key-on delays, registers $j0 .. $j9 and ENDX bits of the set replaced.
ghost use Rattle.std.specs.Prelude.{◌≡◌, ◌<◌, length, if◌then◌else◌};
ghost use Rattle.dsp.specs.Machine.{no_voice, apart, together};
ghost use Rattle.numbers.specs.Listed.{turns};
ghost use Rattle.rework.specs.Rework.{picked, end_bit, end_byte, picked_bytes, end_parts};

use dsp::{Dsp, Voice};
use numbers::{bit, with_bit};

// Of two arrays of eight, the elements of the set from the new.
fn picked<T: Copy>(set: u8, new: [T; 8], old: [T; 8]) -> [T; 8]
    ensures { (d : T) → result ≡ picked d set new old }
{
    let mut all = old;
    for j in 0..8 {
        if bit(set, j) {
            all[j] = new[j];
        }
    }
    all
}

// The ENDX bit of voice j is the new record's where the set has the voice.
fn end_bit(set: u8, new: u8, j: usize, endx: u8) -> u8
    requires { j < 8 }
    ensures { result ≡ end_bit set new j endx }
{
    if bit(set, j) {
        with_bit(endx, j, bit(new, j))
    } else {
        endx
    }
}

#[tactic(auto, unfolding(numbers::specs::Listed::turns))]
fn pick_endx(set: u8, new: u8, old: u8) -> u8
    ensures { result ≡ turns (end_bit set new) 8 old }
{
    let mut endx = old;
    for j in 0..8 {
        endx = end_bit(set, new, j, endx);
    }
    endx
}

// Of ENDX the set's bits are taken, and the voices' own registers $j0 to $j9.
fn byte_of(set: u8, i: usize, new: u8, old: u8) -> u8
    requires { i < 128 }
    ensures { result ≡ end_byte set i new old }
{
    if i == 0x7C {
        pick_endx(set, new, old)
    } else if (i % 16 < 10) & bit(set, i / 16) {
        new
    } else {
        old
    }
}

fn pick_bytes(set: u8, new: &[u8; 128], bytes: &mut [u8; 128])
    ensures { bytes.new ≡ picked_bytes set new.now bytes.old }
{
    for i in 0..128 {
        bytes[i] = byte_of(set, i, new[i], bytes[i]);
    }
}

pub(crate) fn end_of(set: u8, new: Dsp, old: Dsp) -> Dsp
    ensures { result ≡ together (end_parts set (apart new) (apart old)) }
{
    let mut d = old;
    pick_bytes(set, &new.registers, &mut d.registers);
    d.voices = picked(set, new.voices, old.voices);
    d.kon_delay = picked(set, new.kon_delay, old.kon_delay);
    d
}
