// A record of the envelope: settings, level, phase, counter | level, phase, counter after a tick.
ghost use Rattle.std.specs.Prelude.{◌≡◌, length};
ghost use Rattle.replay.specs.Envelope.{phase_of, phase_number, adsr_of, typed, envelope_says, envelope_equal};

use crate::machine::{empty_ram, keyed_on, playback, sound, tick};
use crate::records::{byte_at, u16_at};
use dsp::{Adsr, EnvelopePhase};

fn phase_of(number: u8) -> EnvelopePhase
    ensures { result ≡ phase_of number }
{
    match number {
        0 => EnvelopePhase::Attack,
        1 => EnvelopePhase::Decay,
        2 => EnvelopePhase::Sustain,
        3 => EnvelopePhase::Release,
        _ => EnvelopePhase::Off,
    }
}

fn phase_number(phase: EnvelopePhase) -> u8
    ensures { result ≡ phase_number phase }
{
    match phase {
        EnvelopePhase::Attack => 0,
        EnvelopePhase::Decay => 1,
        EnvelopePhase::Sustain => 2,
        EnvelopePhase::Release => 3,
        EnvelopePhase::Off => 4,
    }
}

fn adsr_of(bytes: &[u8]) -> Adsr
    requires { length bytes.now ≡ 16 }
    ensures { result ≡ adsr_of bytes.now }
{
    Adsr {
        adsr_mode: byte_at(bytes, 0) == 1,
        gain_param: byte_at(bytes, 1),
        attack_rate: byte_at(bytes, 2),
        decay_rate: byte_at(bytes, 3),
        sustain_level: byte_at(bytes, 4),
        sustain_rate: byte_at(bytes, 5),
        envelope_level: u16_at(bytes, 6),
        envelope_phase: phase_of(byte_at(bytes, 8)),
        tick_counter: u16_at(bytes, 9),
    }
}

// A bool is 0 or 1, and a phase 0 to 4. What else a fit record asks, the tick tests.
fn typed(bytes: &[u8]) -> bool
    requires { length bytes.now ≡ 16 }
    ensures { result ≡ typed bytes.now }
{
    (byte_at(bytes, 0) <= 1) & (byte_at(bytes, 8) <= 4)
}

fn says(e: Adsr, bytes: &[u8]) -> bool
    requires { length bytes.now ≡ 16 }
    ensures { result ≡ envelope_says e bytes.now }
{
    (e.envelope_level == u16_at(bytes, 11))
        & (phase_number(e.envelope_phase) == byte_at(bytes, 13))
        & (e.tick_counter == u16_at(bytes, 14))
}

// A record that is not fit, which the tick refuses, counts as different.
#[tactic(auto, unfolding(crate::specs::Envelope::envelope_equal), using(refusal::proofs::Numbers::positive))]
pub fn equal(bytes: &[u8]) -> bool
    requires { length bytes.now ≡ 16 }
    ensures { result ≡ envelope_equal bytes.now }
{
    let mut ram = empty_ram();
    let b = playback(0, 0, 0, 16);
    let a = tick(keyed_on(adsr_of(bytes), b, 0, [0; 4]), &mut ram);
    a.is_ok_and(|d| typed(bytes) & says(sound(d).adsr, bytes))
}
