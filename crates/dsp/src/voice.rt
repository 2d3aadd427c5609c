// One voice: its record, and what a register write and RESET do to it.
ghost use Rattle.std.specs.Prelude.{◌≡◌};
ghost use Rattle.dsp.specs.PowerOn.{new_voice};
ghost use Rattle.dsp.specs.Fit.{voice_rule, meets};
ghost use Rattle.dsp.specs.Registers.{write_voice};
ghost use Rattle.dsp.specs.Keys.{silenced};

use crate::adsr::{Adsr, EnvelopePhase};
use crate::brr::Brr;

#[derive(Clone, Copy, PartialEq, Eq)]
pub struct Voice {
    pub left_vol: i8,
    pub right_vol: i8,
    pub pitch: u16,
    pub srcn: u8,
    pub key_on: bool,
    pub pitch_counter: u16,
    pub current_sample: i16,
    pub history: [i16; 4],
    pub adsr: Adsr,
    pub brr: Brr,
}

impl Voice {
    pub(crate) fn new() -> Self
        ensures { result ≡ new_voice }
    {
        let adsr = Adsr::new();
        let brr = Brr::new();
        Self {
            left_vol: 0,
            right_vol: 0,
            pitch: 0,
            srcn: 0,
            key_on: false,
            pitch_counter: 0,
            current_sample: 0,
            history: [0; 4],
            adsr,
            brr,
        }
    }

    #[tactic(auto, unfolding(numbers::specs::Listed::all))]
    pub(crate) fn is_fit(self) -> bool
        ensures { result ≡ meets (voice_rule self) }
    {
        let a = self.adsr;
        let b = self.brr;
        (self.pitch <= 0x3FFF) & (self.pitch_counter <= 0x7FFF) & a.is_fit() & b.is_fit()
    }

    // Registers $j0 to $j7, by the low digit of their number.
    pub(crate) fn write(mut self, off: u8, value: u8) -> Self
        ensures { result ≡ write_voice off value self }
    {
        match off {
            0 => self.left_vol = numbers::signed8(value),
            1 => self.right_vol = numbers::signed8(value),
            2 => self.pitch = numbers::with_low(self.pitch, value),
            3 => self.pitch = numbers::with_high(self.pitch, value % 64),
            4 => self.srcn = value,
            5 => {
                let on = value >= 0x80;
                let decay = value / 16 % 8;
                let attack = value % 16;
                self.adsr.adsr_mode = on;
                self.adsr.decay_rate = decay;
                self.adsr.attack_rate = attack;
            }
            6 => {
                let level = value / 32;
                let rate = value % 32;
                self.adsr.sustain_level = level;
                self.adsr.sustain_rate = rate;
            }
            7 => self.adsr.gain_param = value,
            _ => {}
        }
        self
    }

    // RESET: a hard cut and no release.
    pub(crate) fn silenced(self) -> Self
        ensures { result ≡ silenced self }
    {
        let a = self.adsr;
        let b = Adsr {
            envelope_level: 0,
            envelope_phase: EnvelopePhase::Off,
            ..a
        };
        Self {
            key_on: false,
            adsr: b,
            ..self
        }
    }
}
