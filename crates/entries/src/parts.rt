// A record with one part set that a fit record bounds.
ghost use Rattle.std.specs.Prelude.{◌<◌};

use crate::calls::ready;
use dsp::{Adsr, Brr, Dsp, Voice};

#[derive(Clone, Copy)]
pub enum Part {
    Level,
    PhaseCounter,
    Attack,
    Decay,
    SustainLevel,
    SustainRate,
    Pitch,
    Position,
    Nibble,
    Fill,
    Delay,
    NoiseCounter,
    NoiseRegister,
    Edl,
    Pmon,
    Length,
    // With the length as `ready` has it, 2048.
    Pointer,
    // With length 0.
    LonePointer,
}

fn byte(value: u16) -> u8 {
    (value % 256) as u8
}

fn adsr_with(a: Adsr, part: Part, value: u16) -> Adsr {
    let mut b = a;
    match part {
        Part::Level => b.envelope_level = value,
        Part::PhaseCounter => b.tick_counter = value,
        Part::Attack => b.attack_rate = byte(value),
        Part::Decay => b.decay_rate = byte(value),
        Part::SustainLevel => b.sustain_level = byte(value),
        _ => b.sustain_rate = byte(value),
    }
    b
}

fn brr_with(b: Brr, part: Part, value: u16) -> Brr {
    let mut c = b;
    match part {
        Part::Nibble => c.nibble_idx = byte(value),
        _ => c.buffer_fill = byte(value),
    }
    c
}

fn voice_with(v: Voice, part: Part, value: u16) -> Voice {
    let mut w = v;
    match part {
        Part::Pitch => w.pitch = value,
        Part::Position => w.pitch_counter = value,
        Part::Nibble | Part::Fill => w.brr = brr_with(v.brr, part, value),
        _ => w.adsr = adsr_with(v.adsr, part, value),
    }
    w
}

fn echo_with(part: Part, value: u16) -> Dsp {
    let mut d = ready();
    match part {
        Part::Edl => d.edl = byte(value),
        Part::Length => d.echo_len = value,
        Part::Pointer => d.echo_ptr = value,
        _ => {
            d.echo_len = 0;
            d.echo_ptr = value;
        }
    }
    d
}

// In voice j, where it is a voice's part.
pub fn with(part: Part, j: usize, value: u16) -> Dsp
    requires { j < 8 }
{
    let mut d = ready();
    match part {
        Part::Delay => d.kon_delay[j] = byte(value),
        Part::NoiseCounter => d.noise_tick_counter = value,
        Part::NoiseRegister => d.noise_lfsr = value,
        Part::Pmon => d.pmon = byte(value),
        Part::Edl | Part::Length | Part::Pointer | Part::LonePointer => d = echo_with(part, value),
        _ => d.voices[j] = voice_with(d.voices[j], part, value),
    }
    d
}
