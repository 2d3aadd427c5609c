// The leaves that document 01 makes inner are reached through the public `step`: one tick of a record that is as
// `new` gives it but for what the leaf is asked about.
ghost use Rattle.std.specs.Prelude.{◌≡◌};
ghost use Rattle.dsp.specs.Registers.{Written};
ghost use Rattle.refusal.specs.Refusal.{told, handed};
ghost use Rattle.replay.specs.Machine.{zeros, steady, playback, playing, answered, sound_of};

use dsp::{Adsr, Answer, Brr, Dsp, EnvelopePhase, Voice};

#[tactic(auto, unfolding(crate::specs::Machine::zeros))]
pub fn empty_ram() -> [u8; 65536]
    ensures { result ≡ zeros }
{
    [0; 65536]
}

// The envelope of a voice that is asked about something else.
pub fn steady() -> Adsr
    ensures { result ≡ steady }
{
    Adsr {
        adsr_mode: false,
        gain_param: 0,
        attack_rate: 0,
        decay_rate: 0,
        sustain_level: 0,
        sustain_rate: 0,
        envelope_level: 0,
        envelope_phase: EnvelopePhase::Attack,
        tick_counter: 0,
    }
}

// "Resolve address and decode if fill is 0": 16 leaves RAM alone.
pub fn playback(addr: u16, prev1: i16, prev2: i16, fill: u8) -> Brr
    ensures { result ≡ playback addr prev1 prev2 fill }
{
    Brr {
        addr,
        nibble_idx: 0,
        prev1,
        prev2,
        block_end: false,
        sample_buffer: [0; 16],
        buffer_fill: fill,
    }
}

// "Samples taken are the difference of position>>12": none at pitch 0, so that the history stays.
pub fn keyed_on(adsr: Adsr, brr: Brr, position: u16, history: [i16; 4]) -> Voice
    ensures { result ≡ playing adsr brr position history }
{
    Voice {
        left_vol: 0,
        right_vol: 0,
        pitch: 0,
        srcn: 0,
        key_on: true,
        pitch_counter: position,
        current_sample: 0,
        history,
        adsr,
        brr,
    }
}

// One tick with this voice 0.
#[tactic(auto, unfolding(crate::specs::Machine::answered))]
pub fn tick(v: Voice, ram: &mut [u8]) -> Answer
    ensures { ◌≡◌ {A = Written} (record { refusal = told result; dsp = handed result }) (answered v ram.old) }
{
    let mut d = Dsp::new();
    d.voices[0] = v;
    d.step(ram)
}

pub fn sound(d: Dsp) -> Voice
    ensures { result ≡ sound_of d }
{
    d.voices[0]
}
