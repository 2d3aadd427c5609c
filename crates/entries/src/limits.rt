// "A fit record: ..": each clause at its limit, which no entry refuses, and one past it, which each refuses by 2.
ghost use Rattle.std.specs.Prelude.{◌<◌};

use crate::calls::called;
use crate::lines::line;
use crate::parts::{Part, with};
use report::lines::say;

fn one(out: &impl Print, name: &[u8], part: Part, j: usize, value: u16)
    requires { j < 8 }
{
    say(out, name);
    let values = [value as u64];
    line(out, b" $:", &values);
    called(out, with(part, j, value));
}

// In voice j, where it is a voice's part: the limit, and one past it.
fn both(out: &impl Print, name: &[u8], part: Part, j: usize, fit: u16, unfit: u16)
    requires { j < 8 }
{
    one(out, name, part, j, fit);
    one(out, name, part, j, unfit);
}

fn voices(out: &impl Print) {
    both(out, b"envelope level", Part::Level, 0, 0x800, 0x801);
    both(out, b"phase counter", Part::PhaseCounter, 1, 2047, 2048);
    both(out, b"pitch", Part::Pitch, 2, 0x3FFF, 0x4000);
    both(out, b"position", Part::Position, 3, 0x7FFF, 0x8000);
    both(out, b"nibble index", Part::Nibble, 4, 15, 16);
    both(out, b"buffer fill", Part::Fill, 5, 0, 1);
    both(out, b"buffer fill", Part::Fill, 6, 16, 15);
    one(out, b"buffer fill", Part::Fill, 7, 17);
    both(out, b"key-on delay", Part::Delay, 7, 5, 6);
    both(out, b"attack rate", Part::Attack, 6, 15, 16);
    both(out, b"decay rate", Part::Decay, 5, 7, 8);
    both(out, b"sustain level", Part::SustainLevel, 4, 7, 8);
    both(out, b"sustain rate", Part::SustainRate, 7, 31, 32);
}

fn whole(out: &impl Print) {
    both(out, b"noise counter", Part::NoiseCounter, 0, 2047, 2048);
    both(
        out,
        b"noise register",
        Part::NoiseRegister,
        0,
        0x7FFF,
        0x8000,
    );
    both(out, b"EDL", Part::Edl, 0, 15, 16);
    both(out, b"PMON", Part::Pmon, 0, 0xFE, 0xFF);
    both(out, b"echo length", Part::Length, 0, 30720, 32768);
    both(out, b"echo length", Part::Length, 0, 2048, 2049);
    one(out, b"echo length", Part::Length, 0, 1024);
    both(out, b"echo pointer", Part::Pointer, 0, 2044, 2048);
    both(out, b"echo pointer", Part::Pointer, 0, 4, 6);
    both(out, b"echo pointer at length 0", Part::LonePointer, 0, 0, 4);
}

pub fn all(out: &impl Print) {
    voices(out);
    whole(out);
}
