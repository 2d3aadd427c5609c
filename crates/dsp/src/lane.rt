// One lane of the machine for one tick: key off and on, the block change, and what a voice leaves in the registers, the sheet and the sums.
ghost use Rattle.std.specs.Prelude.{Bool, true, false, ◌||◌, List, ◌≡◌, ◌+◌, ◌*◌, ◌%◌, ◌<◌, ◌≤◌, ℤ, pos, get_or, set, length, if◌then◌else◌};
ghost use Rattle.numbers.specs.Bits.{bit};
ghost use Rattle.numbers.specs.Choice.{◌=?◌};
ghost use Rattle.numbers.specs.Signed.{high_z};
ghost use Rattle.sound.specs.Sound.{joined};
ghost use Rattle.dsp.specs.Fit.{FitAdsr};
ghost use Rattle.dsp.specs.With.{with_sample};
ghost use Rattle.dsp.specs.Registers.{write_voice};
ghost use Rattle.dsp.specs.Keys.{polled_delay};
ghost use Rattle.dsp.specs.Voice.{decoded_at};
ghost use Rattle.dsp.specs.Sheet.{lane_bytes};
ghost use Rattle.dsp.specs.Lane.{polled_of, source_of, put_endx, put_bytes, no_sums, added};
ghost use Rattle.dsp.specs.Inside.{Wound, settings_of, envelope_of, dial_of, play_of, feed_of, as_source, as_brr, as_voice, as_sounding, block_address, gone_on, as_shared, as_sums};
ghost use Rattle.dsp.specs.declared.adsr.Envelope.{Envelope};
ghost use Rattle.dsp.specs.declared.play.Feed.{Feed};
ghost use Rattle.dsp.specs.declared.play.Play.{Play};
ghost use Rattle.dsp.specs.declared.voice.Voice.{Voice};

use crate::adsr::{Adsr, Envelope, Settings};
use crate::brr::Brr;
use crate::play::{Begun, Feed, Play};
use crate::rates::Rates;
use crate::voice::Voice;
use numbers::{bit, with_bit};

// What all voices see in a tick. koff and kon are 0 on a tick without a poll; where the echo is not worked, no input is summed for it.
#[derive(Clone, Copy)]
pub struct Shared {
    pub koff: u8,
    pub kon: u8,
    pub dir_base: u8,
    pub dir: u8,
    pub non: u8,
    pub pmon: u8,
    pub eon: u8,
    pub echo: bool,
    pub noise: i16,
}

// What a tick carries from voice to voice: the output that may modulate the next one, and both sums.
#[derive(Clone, Copy)]
pub struct Acc {
    pub prev: i16,
    pub dry_l: i16,
    pub dry_r: i16,
    pub echo_l: i16,
    pub echo_r: i16,
}

// What only register writes change of a voice.
#[derive(Clone, Copy)]
pub struct Dial {
    pub left_vol: i8,
    pub right_vol: i8,
    pub pitch: u16,
    pub srcn: u8,
    pub settings: Settings,
}

// A voice's three records, before and after a poll, and after a block change.
#[derive(Clone, Copy)]
pub struct Turned {
    pub envelope: Envelope,
    pub play: Play,
    pub feed: Feed,
}

impl Dial {
    // Registers $j0 to $j7, by the low digit of their number.
    pub(crate) fn write(mut self, rates: &Rates, off: u8, value: u8) -> Self
        requires { Wound self.settings }
        ensures { ((e : Envelope) (p : Play) (f : Feed) (x : ℤ) (samples : List ℤ) → as_voice result e p f x samples ≡ write_voice off value (as_voice self e p f x samples)) × Wound result.settings }
    {
        match off {
            0 => self.left_vol = numbers::signed8(value),
            1 => self.right_vol = numbers::signed8(value),
            2 => self.pitch = numbers::with_low(self.pitch, value),
            3 => self.pitch = numbers::with_high(self.pitch, value % 64),
            4 => self.srcn = value,
            5 => {
                let on = value >= 0x80;
                let decay = value / 16 % 8;
                let attack = value % 16;
                let a = rates.period_of(2 * attack + 1);
                let d = rates.period_of(2 * decay + 16);
                self.settings.adsr_mode = on;
                self.settings.decay_rate = decay;
                self.settings.attack_rate = attack;
                self.settings.attack_period = a;
                self.settings.decay_period = d;
            }
            6 => {
                let level = value / 32;
                let rate = value % 32;
                let p = rates.period_of(rate);
                self.settings.sustain_level = level;
                self.settings.sustain_rate = rate;
                self.settings.sustain_period = p;
            }
            7 => {
                let p = rates.period_of(value % 32);
                self.settings.gain_param = value;
                self.settings.gain_period = p;
            }
            _ => {}
        }
        self
    }
}

impl Voice {
    fn settings(self, rates: &Rates) -> Settings
        requires { FitAdsr self.adsr }
        ensures { result ≡ settings_of self.adsr }
    {
        let a = self.adsr;
        Settings {
            adsr_mode: a.adsr_mode,
            gain_param: a.gain_param,
            attack_rate: a.attack_rate,
            decay_rate: a.decay_rate,
            sustain_level: a.sustain_level,
            sustain_rate: a.sustain_rate,
            attack_period: rates.period_of(2 * a.attack_rate + 1),
            decay_period: rates.period_of(2 * a.decay_rate + 16),
            sustain_period: rates.period_of(a.sustain_rate),
            gain_period: rates.period_of(a.gain_param % 32),
        }
    }

    pub(crate) fn dial(self, rates: &Rates) -> Dial
        requires { FitAdsr self.adsr }
        ensures { result ≡ dial_of self }
    {
        let s = self.settings(rates);
        Dial {
            left_vol: self.left_vol,
            right_vol: self.right_vol,
            pitch: self.pitch,
            srcn: self.srcn,
            settings: s,
        }
    }

    pub(crate) fn envelope(self) -> Envelope
        ensures { result ≡ envelope_of self.adsr }
    {
        let a = self.adsr;
        let phase = a.envelope_phase;
        Envelope {
            level: a.envelope_level,
            phase,
            counter: a.tick_counter,
        }
    }

    pub(crate) fn play(self) -> Play
        ensures { result ≡ play_of self }
    {
        let b = self.brr;
        let h = self.history;
        Play {
            key_on: self.key_on,
            nibble_idx: b.nibble_idx,
            pitch_counter: self.pitch_counter,
            oldest: h[0],
            older: h[1],
            newer: h[2],
            newest: h[3],
        }
    }

    pub(crate) fn feed(self) -> Feed
        ensures { result ≡ feed_of self.brr }
    {
        let b = self.brr;
        Feed {
            addr: b.addr,
            buffer_fill: b.buffer_fill,
            prev1: b.prev1,
            prev2: b.prev2,
            block_end: b.block_end,
        }
    }
}

impl Dial {
    // The voice made again.
    pub(crate) fn voice(
        self,
        e: Envelope,
        p: Play,
        f: Feed,
        current: i16,
        samples: [i16; 16],
    ) -> Voice
        ensures { result ≡ as_voice self e p f current samples }
    {
        let s = self.settings;
        let phase = e.phase;
        let adsr = Adsr {
            adsr_mode: s.adsr_mode,
            gain_param: s.gain_param,
            attack_rate: s.attack_rate,
            decay_rate: s.decay_rate,
            sustain_level: s.sustain_level,
            sustain_rate: s.sustain_rate,
            envelope_level: e.level,
            envelope_phase: phase,
            tick_counter: e.counter,
        };
        let brr = Brr {
            addr: f.addr,
            nibble_idx: p.nibble_idx,
            prev1: f.prev1,
            prev2: f.prev2,
            block_end: f.block_end,
            sample_buffer: samples,
            buffer_fill: f.buffer_fill,
        };
        Voice {
            left_vol: self.left_vol,
            right_vol: self.right_vol,
            pitch: self.pitch,
            srcn: self.srcn,
            key_on: p.key_on,
            pitch_counter: p.pitch_counter,
            current_sample: current,
            history: [p.oldest, p.older, p.newer, p.newest],
            adsr,
            brr,
        }
    }
}

// The pitch source: what the voice before it gave, or none.
pub(crate) fn source_of(pmon: u8, j: usize, prev: i16) -> Option<i16>
    requires { j < 8 }
    ensures { as_source result ≡ source_of pmon j prev }
{
    bit(pmon, j).then_some(prev)
}

// The ENDX bit of voice j.
pub(crate) fn put_endx(bytes: &mut [u8; 128], j: usize, on: bool)
    requires { (j < 8) }
    ensures { bytes.new ≡ put_endx j on bytes.old }
{
    let old = bytes[0x7C];
    bytes[0x7C] = with_bit(old, j, on);
}

impl Acc {
    pub(crate) fn new() -> Self
        ensures { as_sums result ≡ no_sums }
    {
        Self {
            prev: 0,
            dry_l: 0,
            dry_r: 0,
            echo_l: 0,
            echo_r: 0,
        }
    }

    // The next voice's source is this output with bit 0 cleared; EON sums it into the echo input too.
    fn added(self, echo: bool, out: i16, left: i8, right: i8) -> Self
        ensures { as_sums result ≡ added echo out left right (as_sums self) }
    {
        if echo {
            Self {
                prev: sound::even(out),
                dry_l: sound::summed(self.dry_l, out, left),
                dry_r: sound::summed(self.dry_r, out, right),
                echo_l: sound::summed(self.echo_l, out, left),
                echo_r: sound::summed(self.echo_r, out, right),
            }
        } else {
            Self {
                prev: sound::even(out),
                dry_l: sound::summed(self.dry_l, out, left),
                dry_r: sound::summed(self.dry_r, out, right),
                echo_l: self.echo_l,
                echo_r: self.echo_r,
            }
        }
    }
}

// NON replaces the sample after the voice's step.
pub(crate) fn noised(on: bool, noise: i16, x: i16) -> i16
    ensures { result ≡ (if on then noise else x) }
{
    if on { noise } else { x }
}

fn flag(on: bool) -> u8
    ensures { result ≡ (if on then 1 else 0) }
{
    if on { 1 } else { 0 }
}

// The lane of the sheet of a voice that was worked.
fn put_slot(slot: &mut [u8], out: i16, envx: u8, endx: bool)
    requires { length slot.old ≡ 4 }
    ensures { slot.new ≡ lane_bytes out envx endx }
{
    slot[0] = numbers::low(out);
    slot[1] = numbers::high(out);
    slot[2] = envx;
    slot[3] = flag(endx);
}

// OUTX, the lane of the sheet and the sums of voice j, which was worked: its ENVX and its ENDX bit stand in the bytes.
pub(crate) fn closed(
    d: Dial,
    out: i16,
    c: Shared,
    j: usize,
    acc: Acc,
    bytes: &mut [u8; 128],
    slot: &mut [u8],
) -> Acc
    requires { (length slot.old ≡ 4) × (j < 8) }
    ensures { (bytes.new ≡ set bytes.old (j * 16 + 9) (high_z out)) × (slot.new ≡ lane_bytes out (get_or bytes.old (j * 16 + 8) 0) (bit (get_or bytes.old 0x7C 0) j)) × (as_sums result ≡ added (bit (as_shared c).eon j) out d.left_vol d.right_vol (as_sums acc)) }
{
    let envx = bytes[j * 16 + 8];
    bytes[j * 16 + 9] = numbers::high(out);
    put_slot(slot, out, envx, bit(bytes[0x7C], j));
    acc.added(c.echo & bit(c.eon, j), out, d.left_vol, d.right_vol)
}

// A voice that is not stepped: its lane of the sheet says what it gives.
pub(crate) fn shown(
    d: Dial,
    c: Shared,
    j: usize,
    acc: Acc,
    bytes: &mut [u8; 128],
    slot: &[u8],
) -> Acc
    requires { (length slot.now ≡ 4) × (j < 8) }
    ensures { (bytes.new ≡ put_bytes j (get_or slot.now 2 0) (joined (get_or slot.now 0 0) (get_or slot.now 1 0)) (get_or slot.now 3 0 % 2 =? 1) bytes.old) × (as_sums result ≡ added (bit (as_shared c).eon j) (joined (get_or slot.now 0 0) (get_or slot.now 1 0)) d.left_vol d.right_vol (as_sums acc)) }
{
    let out = sound::joined(slot[0], slot[1]);
    bytes[j * 16 + 8] = slot[2];
    bytes[j * 16 + 9] = numbers::high(out);
    put_endx(bytes, j, slot[3] % 2 == 1);
    acc.added(c.echo & bit(c.eon, j), out, d.left_vol, d.right_vol)
}

impl Turned {
    // The poll of voice j. KON: all playback state starts anew, and the poll tick is the first of five that the voice does not step in.
    // KOFF: release, unless the phase is Off.
    pub(crate) fn polled(
        self,
        c: Shared,
        j: usize,
        srcn: u8,
        currents: &mut [i16; 8],
        delays: &mut [u8; 8],
        bytes: &mut [u8; 128],
    ) -> Self
        requires { (j < 8) × ((bit c.koff j || bit c.kon j) ≡ true) }
        ensures { ((v : Voice) (samples : List ℤ) (endx : Bool) → v.srcn ≡ srcn → as_sounding (with_sample v (get_or currents.new j (pos 0))) result.envelope result.play result.feed samples (if bit c.kon j then false else endx) ≡ polled_of (as_shared c) j (as_sounding (with_sample v (get_or currents.old j (pos 0))) self.envelope self.play self.feed samples endx).voice endx) × (currents.new ≡ (if bit c.kon j then set currents.old j (pos 0) else currents.old)) × (delays.new ≡ set delays.old j (polled_delay (bit c.kon j) (get_or delays.old j 0))) × (bytes.new ≡ (if bit c.kon j then put_endx j false bytes.old else bytes.old)) }
    {
        let e = self.envelope;
        if bit(c.kon, j) {
            currents[j] = 0;
            delays[j] = 5;
            put_endx(bytes, j, false);
            let envelope = Envelope::begun();
            let play = Play::keyed_on();
            let feed = Feed::begun(c.dir_base, srcn);
            Turned {
                envelope,
                play,
                feed,
            }
        } else if e.off() {
            self
        } else {
            let p = self.play;
            let feed = self.feed;
            let envelope = e.released();
            let play = p.keyed_off();
            Turned {
                envelope,
                play,
                feed,
            }
        }
    }
}

impl Begun {
    // The block change. An end block without loop is a hard mute and no release.
    pub(crate) fn changed(
        self,
        e: Envelope,
        f: Feed,
        c: Shared,
        j: usize,
        ram: &[u8],
        samples: &mut [i16; 16],
        bytes: &mut [u8; 128],
    ) -> Turned
        requires { (length ram.now ≡ 0x10000) × (j < 8) × (self.rest ≤ 7) }
        ensures { ((v : Voice) (endx : Bool) → as_sounding v result.envelope result.play result.feed samples.new (endx || result.feed.block_end) ≡ gone_on (f.buffer_fill =? 0) self.rest (decoded_at ram.now (block_address ram.now c.dir (get_or bytes.old (j * 16 + 4) 0) (as_brr self.play f samples.old)) (as_sounding v e self.play f samples.old endx))) × (bytes.new ≡ (if result.feed.block_end then put_endx j true bytes.old else bytes.old)) }
    {
        let z = f.next_block(ram, samples, c.dir, bytes[j * 16 + 4]);
        let feed = z.feed;
        if feed.block_end {
            put_endx(bytes, j, true);
        }
        let play = self.resumed(f.buffer_fill == 0, z.mutes, samples);
        if z.mutes {
            let envelope = e.cut();
            Turned {
                envelope,
                play,
                feed,
            }
        } else {
            Turned {
                envelope: e,
                play,
                feed,
            }
        }
    }
}
