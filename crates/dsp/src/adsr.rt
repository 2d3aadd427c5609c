// The envelope of a voice: ADSR and GAIN. The settings, which only register writes change, stand apart from
// the state that a tick moves.
ghost use Rattle.std.specs.Prelude.{not, ◌&&◌, ◌≡◌, ℕ, ◌≤◌, ◌<◌};
ghost use Rattle.sound.specs.Clock.{period_of};
ghost use Rattle.dsp.specs.Clock.{fires, counted_on};
ghost use Rattle.dsp.specs.PowerOn.{new_adsr};
ghost use Rattle.dsp.specs.Fit.{adsr_rule, meets, FitAdsr};
ghost use Rattle.dsp.specs.Envelope.{counted, levelled, risen, settled, fallen_to, is_off, is_held, attack_tick, decay_tick, sustain_tick, release_tick, gain_tick, envelope_tick};
ghost use Rattle.dsp.specs.Mix.{scaled_output};
ghost use Rattle.dsp.specs.With.{with_state};
ghost use Rattle.dsp.specs.Inside.{Wound, cut_envelope, as_envelope, as_adsr};
ghost use Rattle.dsp.specs.declared.adsr.Adsr.{Adsr};
ghost use Rattle.dsp.specs.declared.adsr.EnvelopePhase.TheVariants.{Attack, Release};
ghost use Rattle.dsp.specs.declared.adsr.Settings.{Settings};

use crate::mix::scaled_output;

#[derive(Clone, Copy, PartialEq, Eq)]
pub enum EnvelopePhase {
    Attack,
    Decay,
    Sustain,
    Release,
    Off,
}

// The envelope of a voice as the Rust has it: the settings and the state together.
#[derive(Clone, Copy, PartialEq, Eq)]
pub struct Adsr {
    pub adsr_mode: bool,
    pub gain_param: u8,
    pub attack_rate: u8,
    pub decay_rate: u8,
    pub sustain_level: u8,
    pub sustain_rate: u8,
    pub envelope_level: u16,
    pub envelope_phase: EnvelopePhase,
    pub tick_counter: u16,
}

// The settings, with the tick period that each of its rates stands for.
#[derive(Clone, Copy, PartialEq, Eq)]
pub struct Settings {
    pub adsr_mode: bool,
    pub gain_param: u8,
    pub attack_rate: u8,
    pub decay_rate: u8,
    pub sustain_level: u8,
    pub sustain_rate: u8,
    pub attack_period: u16,
    pub decay_period: u16,
    pub sustain_period: u16,
    pub gain_period: u16,
}

#[derive(Clone, Copy, PartialEq, Eq)]
pub struct Envelope {
    pub level: u16,
    pub phase: EnvelopePhase,
    pub counter: u16,
}

// A counter after a tick, and whether its step is due.
#[derive(Clone, Copy, PartialEq, Eq)]
pub struct Tick {
    pub counter: u16,
    pub due: bool,
}

impl Adsr {
    pub(crate) fn new() -> Self
        ensures { result ≡ new_adsr }
    {
        Self {
            adsr_mode: false,
            gain_param: 0,
            attack_rate: 0,
            decay_rate: 0,
            sustain_level: 0,
            sustain_rate: 0,
            envelope_level: 0,
            envelope_phase: EnvelopePhase::Off,
            tick_counter: 0,
        }
    }

    #[tactic(auto, unfolding(numbers::specs::Listed::all))]
    pub(crate) fn is_fit(self) -> bool
        ensures { result ≡ meets (adsr_rule self) }
    {
        (self.envelope_level <= 0x800)
            & (self.tick_counter <= 2047)
            & (self.attack_rate <= 15)
            & (self.decay_rate <= 7)
            & (self.sustain_level <= 7)
            & (self.sustain_rate <= 31)
    }
}

#[tactic(auto, unfolding(crate::specs::Clock::fires, crate::specs::Clock::counted_on))]
pub(crate) fn tick_due(counter: u16, period: u16) -> Tick
    requires { counter ≤ 2047 }
    ensures { (entry : ℕ) → period_of entry ≡ period → (result.counter ≡ counted_on counter entry) × (result.due ≡ fires counter entry) }
{
    if period == 0 {
        Tick {
            counter,
            due: false,
        }
    } else if period <= counter + 1 {
        Tick {
            counter: 0,
            due: true,
        }
    } else {
        Tick {
            counter: counter + 1,
            due: false,
        }
    }
}

pub(crate) fn is_off(phase: EnvelopePhase) -> bool
    ensures { result ≡ is_off phase }
{
    match phase {
        EnvelopePhase::Attack => false,
        EnvelopePhase::Decay => false,
        EnvelopePhase::Sustain => false,
        EnvelopePhase::Release => false,
        EnvelopePhase::Off => true,
    }
}

// GAIN replaces the ADSR steps of the keyed-on phases; Release and Off are the same in both modes.
fn gains(phase: EnvelopePhase, s: Settings) -> bool
    ensures { result ≡ (is_held phase && not s.adsr_mode) }
{
    match phase {
        EnvelopePhase::Attack => !s.adsr_mode,
        EnvelopePhase::Decay => !s.adsr_mode,
        EnvelopePhase::Sustain => !s.adsr_mode,
        EnvelopePhase::Release => false,
        EnvelopePhase::Off => false,
    }
}

impl Envelope {
    // Key-on.
    pub(crate) fn begun() -> Self
        ensures { (a : Adsr) → as_envelope a result ≡ with_state a 0 Attack 0 }
    {
        Envelope {
            level: 0,
            phase: EnvelopePhase::Attack,
            counter: 0,
        }
    }

    // A hard cut and no release.
    pub(crate) fn cut(self) -> Self
        ensures { result ≡ cut_envelope self }
    {
        Envelope {
            level: 0,
            phase: EnvelopePhase::Off,
            counter: self.counter,
        }
    }

    pub(crate) fn released(self) -> Self
        ensures { (a : Adsr) → as_envelope a result ≡ with_state a self.level Release self.counter }
    {
        Envelope {
            level: self.level,
            phase: EnvelopePhase::Release,
            counter: self.counter,
        }
    }

    pub(crate) fn off(self) -> bool
        ensures { result ≡ is_off self.phase }
    {
        let phase = self.phase;
        is_off(phase)
    }

    // Post-envelope output before volume.
    pub(crate) fn scaled(self, sample: i16) -> i16
        requires { self.level ≤ 0x800 }
        ensures { result ≡ scaled_output self.phase self.level sample }
    {
        let phase = self.phase;
        scaled_output(phase, self.level, sample)
    }

    // A body that is hot makes its record by one full literal: a field set in place is moved through memory.
    fn counted(self, counter: u16) -> Self
        ensures { (s : Settings) → as_adsr s result ≡ counted (as_adsr s self) counter }
    {
        let phase = self.phase;
        Envelope {
            level: self.level,
            phase,
            counter,
        }
    }

    fn levelled(self, level: u16) -> Self
        ensures { (s : Settings) → as_adsr s result ≡ levelled (as_adsr s self) level }
    {
        let phase = self.phase;
        Envelope {
            level,
            phase,
            counter: self.counter,
        }
    }

    fn risen(self, by: u16) -> Self
        requires { (self.level ≤ 0x800) × (by ≤ 1024) }
        ensures { (s : Settings) → as_adsr s result ≡ risen by (as_adsr s self) }
    {
        let level = self.level + by;
        if level >= 0x7FF {
            Envelope {
                level: 0x7FF,
                phase: EnvelopePhase::Decay,
                counter: 0,
            }
        } else {
            self.levelled(level)
        }
    }

    fn settled(self, target: u16) -> Self
        ensures { (s : Settings) → as_adsr s result ≡ settled target (as_adsr s self) }
    {
        let level = sound::lowered(self.level);
        if level <= target {
            Envelope {
                level: target,
                phase: EnvelopePhase::Sustain,
                counter: 0,
            }
        } else {
            self.levelled(level)
        }
    }

    fn fallen_to(self, level: u16) -> Self
        ensures { (s : Settings) → as_adsr s result ≡ fallen_to level (as_adsr s self) }
    {
        if level == 0 {
            Envelope {
                level: 0,
                phase: EnvelopePhase::Off,
                counter: self.counter,
            }
        } else {
            self.levelled(level)
        }
    }

    // Rate 15 is near-instant: a fixed step and no clock.
    fn attack(self, s: Settings) -> Self
        requires { Wound s × FitAdsr (as_adsr s self) }
        ensures { as_adsr s result ≡ attack_tick (as_adsr s self) }
    {
        if s.attack_rate == 15 {
            self.risen(1024)
        } else {
            let t = tick_due(self.counter, s.attack_period);
            let e = self.counted(t.counter);
            if t.due { e.risen(32) } else { e }
        }
    }

    fn decay(self, s: Settings) -> Self
        requires { Wound s × FitAdsr (as_adsr s self) }
        ensures { as_adsr s result ≡ decay_tick (as_adsr s self) }
    {
        let t = tick_due(self.counter, s.decay_period);
        let e = self.counted(t.counter);
        if t.due {
            e.settled((s.sustain_level as u16 + 1) * 0x100)
        } else {
            e
        }
    }

    fn sustain(self, s: Settings) -> Self
        requires { Wound s × FitAdsr (as_adsr s self) }
        ensures { as_adsr s result ≡ sustain_tick (as_adsr s self) }
    {
        let t = tick_due(self.counter, s.sustain_period);
        let e = self.counted(t.counter);
        if t.due {
            e.fallen_to(sound::lowered(e.level))
        } else {
            e
        }
    }

    #[tactic(auto, unfolding(crate::specs::Envelope::release_tick))]
    fn release(self) -> Self
        ensures { (s : Settings) → as_adsr s result ≡ release_tick (as_adsr s self) }
    {
        self.fallen_to(numbers::saturating_sub(self.level, 8))
    }

    // GAIN: a level at once, or a ramp at its own rate. No phase change.
    fn update_gain(self, s: Settings) -> Self
        requires { Wound s × FitAdsr (as_adsr s self) }
        ensures { as_adsr s result ≡ gain_tick (as_adsr s self) }
    {
        let g = s.gain_param;
        if g < 0x80 {
            self.levelled(16 * (g as u16))
        } else {
            let t = tick_due(self.counter, s.gain_period);
            let e = self.counted(t.counter);
            if t.due {
                e.levelled(sound::gained(g / 32 % 4, e.level))
            } else {
                e
            }
        }
    }

    // Advance the envelope by one tick.
    #[tactic(auto, unfolding(crate::specs::Envelope::envelope_tick, crate::specs::Envelope::phase_tick))]
    pub(crate) fn update_envelope(self, s: Settings) -> Self
        requires { Wound s × FitAdsr (as_adsr s self) }
        ensures { as_adsr s result ≡ envelope_tick (as_adsr s self) }
    {
        let p = self.phase;
        if gains(p, s) {
            self.update_gain(s)
        } else {
            match p {
                EnvelopePhase::Attack => self.attack(s),
                EnvelopePhase::Decay => self.decay(s),
                EnvelopePhase::Sustain => self.sustain(s),
                EnvelopePhase::Release => self.release(),
                EnvelopePhase::Off => self,
            }
        }
    }
}
