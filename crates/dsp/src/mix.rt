// Outputs and sums: what a voice gives, the dry sum, and the stereo sample.
ghost use Rattle.std.specs.Prelude.{◌≡◌, ℕ, ◌≤◌, get_or};
ghost use Rattle.dsp.specs.Machine.{no_voice};
ghost use Rattle.dsp.specs.Mix.{scaled_output, with_voice, dry_of, master_of, rendered, render_of};
ghost use Rattle.dsp.specs.Inside.{as_stereo, as_globals};

use crate::adsr::{EnvelopePhase, is_off};
use crate::registers::{Dsp, Glob};
use crate::voice::Voice;
use numbers::bit;
use refusal::Refusal;

#[derive(Clone, Copy, PartialEq, Eq)]
pub struct Stereo {
    pub l: i16,
    pub r: i16,
}

#[derive(Clone, Copy, PartialEq, Eq)]
pub struct Sample {
    pub left: i16,
    pub right: i16,
}

// Post-envelope output before volume. A level of at most $800 keeps it to 16 bits.
#[tactic(auto, unfolding(crate::specs::Mix::scaled_output))]
pub(crate) fn scaled_output(phase: EnvelopePhase, level: u16, sample: i16) -> i16
    requires { level ≤ 0x800 }
    ensures { result ≡ scaled_output phase level sample }
{
    if is_off(phase) {
        0
    } else {
        (((sample as i32) * (level as i32)) >> 11) as i16
    }
}

impl Stereo {
    // An output by a voice's volumes, added to both sums, which saturate.
    #[tactic(auto, unfolding(crate::specs::Mix::with_voice))]
    pub(crate) fn with_voice(self, out: i16, left: i8, right: i8) -> Self
        ensures { as_stereo result ≡ with_voice out left right (as_stereo self) }
    {
        Stereo {
            l: sound::summed(self.l, out, left),
            r: sound::summed(self.r, out, right),
        }
    }
}

// The dry mix is a 16-bit accumulator: it saturates after each voice, so the order of loud voices matters.
pub(crate) fn dry(voices: [Voice; 8]) -> Stereo
    requires { (n : ℕ) → (get_or voices n no_voice).adsr.envelope_level ≤ 0x800 }
    ensures { as_stereo result ≡ dry_of voices }
{
    let mut s = Stereo { l: 0, r: 0 };
    for v in voices {
        let a = v.adsr;
        let phase = a.envelope_phase;
        let out = scaled_output(phase, a.envelope_level, v.current_sample);
        s = s.with_voice(out, v.left_vol, v.right_vol);
    }
    s
}

impl Glob {
    // MUTE and RESET silence the last stage only.
    #[tactic(auto, unfolding(crate::specs::Mix::master_of))]
    pub(crate) fn mastered(self, dry: Stereo) -> Stereo
        ensures { as_stereo result ≡ master_of (as_globals self) (as_stereo dry) }
    {
        if bit(self.flg, 6) | bit(self.flg, 7) {
            return Stereo { l: 0, r: 0 };
        }
        Stereo {
            l: sound::mastered(
                dry.l,
                self.master_vol_left,
                self.echo_out_l,
                self.echo_vol_left,
            ),
            r: sound::mastered(
                dry.r,
                self.master_vol_right,
                self.echo_out_r,
                self.echo_vol_right,
            ),
        }
    }
}

impl Dsp {
    // The stereo sample of the record as it stands. Refuses 2.
    #[tactic(auto, unfolding(crate::specs::Mix::render_of))]
    pub fn render_audio_single(self) -> Result<Sample, Refusal>
        ensures { rendered result ≡ render_of self }
    {
        if !self.is_fit() {
            return Err(Refusal::Unfit);
        }
        let s = self.glob().mastered(dry(self.voices));
        Ok(Sample {
            left: s.l,
            right: s.r,
        })
    }
}
