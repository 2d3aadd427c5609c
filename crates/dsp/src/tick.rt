// The machine's tick: the record is taken apart once, driven through its ticks, and made again once.
ghost use Rattle.std.specs.Prelude.{◌≡◌, List, [], map, ℕ, ◌*◌, ◌≤◌, ◌<◌, get_or, length, if◌then◌else◌};
ghost use Rattle.dsp.specs.Noise.{noise_tick};
ghost use Rattle.dsp.specs.Fit.{FitGlobals, FitVoice, Fit, fit};
ghost use Rattle.dsp.specs.Machine.{no_voice, globals_of, apart, together};
ghost use Rattle.dsp.specs.Mix.{master_of};
ghost use Rattle.dsp.specs.Echo.{EchoLane, echo_lane};
ghost use Rattle.dsp.specs.Tick.{polls, kon_now, globals_tick, shared_of, frame_of};
ghost use Rattle.dsp.specs.Ticks.{Bench, bench_of, ticks_of, Drove, drive_of, After, step_of};
ghost use Rattle.refusal.specs.Refusal.{told, handed};
ghost use Rattle.dsp.specs.Inside.{Wound, envelope_of, dial_of, play_of, feed_of, as_shared, heard, as_sums, as_noise, as_globals, no_dial, voices_in, parts_in};

use crate::adsr::Envelope;
use crate::echo::put_pair;
use crate::gauss::Weights;
use crate::lane::{Acc, Dial, Shared, Turned, closed, noised, shown, source_of};
use crate::mix::Stereo;
use crate::noise::Noise;
use crate::play::{Feed, Play};
use crate::rates::Rates;
use crate::registers::{Answer, Dsp, Glob};
use crate::voice::Voice;
use numbers::bit;
use refusal::Refusal;
use std::array;

pub const RAM_SIZE: usize = 0x10000;

// Which lanes of the sheet a tick works: voices by their bits, and the echo. It shows the others as the sheet has them.
#[derive(Clone, Copy)]
pub struct Work {
    pub voices: u8,
    pub echo: bool,
}

impl Work {
    // Every lane: all voices, and the echo.
    pub const EVERYTHING: Self = Self {
        voices: 0xFF,
        echo: true,
    };
}

impl Glob {
    // The poll comes on the ticks on which every_other_sample turns true, and uses up the pending KON.
    #[tactic(auto, unfolding(crate::specs::Tick::globals_tick))]
    fn ticked(mut self, rates: &Rates) -> Self
        requires { FitGlobals (as_globals self) }
        ensures { as_globals result ≡ globals_tick (as_globals self) }
    {
        let n = self.noise;
        let m = n.advance(rates, self.flg);
        self.noise = m;
        if self.every_other_sample {
            self.every_other_sample = false;
            self
        } else {
            self.every_other_sample = true;
            self.new_kon = 0;
            self
        }
    }

    fn polled_koff(self, koff: u8) -> u8
        ensures { result ≡ (if polls (as_globals self) then koff else 0) }
    {
        if self.every_other_sample { 0 } else { koff }
    }

    // While FLG's RESET bit is set, pending key-ons are used up without effect.
    fn polled_kon(self) -> u8
        ensures { result ≡ kon_now (as_globals self) }
    {
        if !self.every_other_sample & (self.flg < 0x80) {
            self.new_kon
        } else {
            0
        }
    }

    // What the voices see: the noise as it has moved, the rest as it stood before the tick.
    fn shared(self, echo: bool, noise: Noise, koff: u8, dir: u8) -> Shared
        requires { noise.lfsr ≤ 0x7FFF }
        ensures { (bytes : List ℕ) → get_or bytes 0x5C 0 ≡ koff → get_or bytes 0x5D 0 ≡ dir → as_noise noise ≡ noise_tick self.flg (as_noise self.noise) → as_shared result ≡ heard echo (shared_of (as_globals self) bytes) }
    {
        Shared {
            koff: self.polled_koff(koff),
            kon: self.polled_kon(),
            dir_base: self.dir_base,
            dir,
            non: self.non,
            pmon: self.pmon,
            eon: self.eon,
            echo,
            noise: noise.sample(),
        }
    }
}

// The numbers of no voice, and the histories of the echo.
#[derive(Clone, Copy)]
pub struct Far {
    pub glob: Glob,
    pub left: [i16; 8],
    pub right: [i16; 8],
}

// What a tick moves: the numbers of no voice, and of each voice three small records, each in an array of its own, so that a turn loads,
// changes and stores one after another.
#[derive(Clone, Copy)]
pub struct Moving {
    pub far: Far,
    pub envelopes: [Envelope; 8],
    pub plays: [Play; 8],
    pub feeds: [Feed; 8],
}

impl Far {
    fn ticked(self, rates: &Rates) -> Self
        requires { FitGlobals (as_globals self.glob) }
        ensures { (as_globals result.glob ≡ globals_tick (as_globals self.glob)) × (result.left ≡ self.left) × (result.right ≡ self.right) }
    {
        let g = self.glob;
        let left = self.left;
        let right = self.right;
        let glob = g.ticked(rates);
        Far { glob, left, right }
    }

    // The end of a tick, behind its voices: the echo, and the sample.
    fn closed(
        self,
        echo: bool,
        taps: [i8; 8],
        acc: Acc,
        ram: &mut [u8],
        pcm: &mut [u8],
        slot: &mut [u8],
    ) -> Self
        requires { (length ram.old ≡ 0x10000) × FitGlobals (as_globals self.glob) × (length pcm.old ≡ 4) × (length slot.old ≡ 4) }
        ensures { let e = echo_lane echo (as_globals self.glob) taps self.left self.right ram.old (as_sums acc).input slot.old in (◌≡◌ {A = EchoLane} (record { echo = record { globals = as_globals result.glob; left = result.left; right = result.right; ram = ram.new }; slot = slot.new }) e) × (pcm.new ≡ frame_of (master_of e.echo.globals (as_sums acc).dry)) }
    {
        let h = self.glob;
        let left = self.left;
        let right = self.right;
        let input = Stereo {
            l: acc.echo_l,
            r: acc.echo_r,
        };
        let e = h.echo_lane(echo, taps, left, right, ram, input, slot);
        let glob = e.glob;
        let s = glob.mastered(Stereo {
            l: acc.dry_l,
            r: acc.dry_r,
        });
        put_pair(pcm, s.l, s.r);
        let l = e.left;
        let r = e.right;
        Far {
            glob,
            left: l,
            right: r,
        }
    }
}

impl Moving {
    // n ticks, with their samples and their rows of the sheet.
    pub(crate) fn drive(
        self,
        work: Work,
        n: usize,
        dials: [Dial; 8],
        taps: [i8; 8],
        table: &Weights,
        rates: &Rates,
        currents: &mut [i16; 8],
        delays: &mut [u8; 8],
        store: &mut [[i16; 16]; 8],
        bytes: &mut [u8; 128],
        ram: &mut [u8],
        pcm: &mut [u8],
        sheet: &mut [u8],
    ) -> Self
        requires { (length ram.old ≡ 0x10000) × (n < 0x10000) × (length pcm.old ≡ n * 4) × (length sheet.old ≡ n * 36) × ((j : ℕ) → j < 8 → Wound (get_or dials j no_dial).settings) × Fit (together (parts_in self dials taps currents.old delays.old store.old bytes.old)) }
        ensures { (◌≡◌ {A = Bench} (record { parts = parts_in result dials taps currents.new delays.new store.new bytes.new; ram = ram.new; pcm = pcm.new; sheet = sheet.new; old = [] }) (ticks_of work n (record { parts = parts_in self dials taps currents.old delays.old store.old bytes.old; ram = ram.old; pcm = []; sheet = []; old = sheet.old }))) × Fit (together (parts_in result dials taps currents.new delays.new store.new bytes.new)) × (length result.envelopes ≡ 8) × (length result.plays ≡ 8) × (length result.feeds ≡ 8) }
    {
        let mut f = self.far;
        let mut envelopes = self.envelopes;
        let mut plays = self.plays;
        let mut feeds = self.feeds;
        for i in 0..n {
            let g = f.glob;
            f = f.ticked(rates);
            let h = f.glob;
            let c = g.shared(work.echo, h.noise, bytes[0x5C], bytes[0x5D]);
            let mut acc = Acc::new();
            for v in 0..8 {
                let at = i * 36 + v * 4;
                let to = at + 4;
                let d = dials[v];
                if !bit(work.voices, v) {
                    acc = shown(d, c, v, acc, bytes, &sheet[at..to]);
                    continue;
                }
                if bit(c.koff, v) | bit(c.kon, v) {
                    let e0 = envelopes[v];
                    let p0 = plays[v];
                    let y0 = feeds[v];
                    let t0 = Turned {
                        envelope: e0,
                        play: p0,
                        feed: y0,
                    };
                    let t = t0.polled(c, v, d.srcn, currents, delays, bytes);
                    let e = t.envelope;
                    let p = t.play;
                    let y = t.feed;
                    envelopes[v] = e;
                    plays[v] = p;
                    feeds[v] = y;
                }
                let wait = delays[v];
                if wait == 0 {
                    let e = envelopes[v];
                    let s = d.settings;
                    let h = e.update_envelope(s);
                    envelopes[v] = h;
                    let p = plays[v];
                    if p.key_on | !h.off() {
                        let y = feeds[v];
                        let b = p.advanced(
                            &store[v],
                            y.buffer_fill,
                            d.pitch,
                            source_of(c.pmon, v, acc.prev),
                        );
                        let q = b.play;
                        plays[v] = q;
                        if b.due {
                            let t = b.changed(h, y, c, v, ram, &mut store[v], bytes);
                            let k = t.envelope;
                            let r = t.play;
                            let z = t.feed;
                            envelopes[v] = k;
                            plays[v] = r;
                            feeds[v] = z;
                        }
                        let k = envelopes[v];
                        let r = plays[v];
                        currents[v] = r.sounded(table);
                        bytes[v * 16 + 8] = (k.level / 16) as u8;
                    }
                } else {
                    delays[v] = wait - 1;
                    bytes[v * 16 + 8] = 0;
                }
                currents[v] = noised(bit(c.non, v), c.noise, currents[v]);
                let e = envelopes[v];
                let out = e.scaled(currents[v]);
                acc = closed(d, out, c, v, acc, bytes, &mut sheet[at..to]);
            }
            let at = i * 36 + 32;
            let to = at + 4;
            let from = i * 4;
            let end = from + 4;
            f = f.closed(
                work.echo,
                taps,
                acc,
                ram,
                &mut pcm[from..end],
                &mut sheet[at..to],
            );
        }
        Moving {
            far: f,
            envelopes,
            plays,
            feeds,
        }
    }
}

impl Dsp {
    pub(crate) fn bytes(self) -> [u8; 128]
        ensures { result ≡ self.registers }
    {
        self.registers
    }

    pub(crate) fn lanes(self) -> [Voice; 8]
        ensures { result ≡ self.voices }
    {
        self.voices
    }

    pub(crate) fn delays(self) -> [u8; 8]
        ensures { result ≡ self.kon_delay }
    {
        self.kon_delay
    }

    pub(crate) fn taps(self) -> [i8; 8]
        ensures { result ≡ self.fir_coeff }
    {
        self.fir_coeff
    }

    pub(crate) fn far(self) -> Far
        ensures { (as_globals result.glob ≡ globals_of self) × (result.left ≡ self.fir_history_l) × (result.right ≡ self.fir_history_r) }
    {
        let left = self.fir_history_l;
        let right = self.fir_history_r;
        let glob = self.glob();
        Far { glob, left, right }
    }

    // The record made again.
    pub(crate) fn with_parts(
        self,
        f: Far,
        registers: [u8; 128],
        voices: [Voice; 8],
        delays: [u8; 8],
        taps: [i8; 8],
    ) -> Self
        ensures { result ≡ together (record { registers = registers; voices = voices; delays = delays; taps = taps; left = f.left; right = f.right; globals = as_globals f.glob }) }
    {
        let left = f.left;
        let right = f.right;
        let mut d = self.with_glob(f.glob);
        d.registers = registers;
        d.voices = voices;
        d.kon_delay = delays;
        d.fir_coeff = taps;
        d.fir_history_l = left;
        d.fir_history_r = right;
        d
    }

    // The record is taken apart once, driven through its ticks, and made again once.
    fn driven(self, work: Work, ram: &mut [u8], n: usize, pcm: &mut [u8], sheet: &mut [u8]) -> Self
        requires { (length ram.old ≡ 0x10000) × Fit self × (n < 0x10000) × (length pcm.old ≡ n * 4) × (length sheet.old ≡ n * 36) }
        ensures { (◌≡◌ {A = Bench} (record { parts = apart result; ram = ram.new; pcm = pcm.new; sheet = sheet.new; old = [] }) (ticks_of work n (bench_of self ram.old sheet.old))) × Fit result }
    {
        let table = Weights::new();
        let rates = Rates::new();
        let taps = self.taps();
        let mut bytes = self.bytes();
        let voices = self.lanes();
        let mut delays = self.delays();
        let mut currents = currents_of(voices);
        let mut store = store_of(voices);
        let dials = dials_of(&rates, voices);
        let far = self.far();
        let envelopes = envelopes_of(voices);
        let plays = plays_of(voices);
        let feeds = feeds_of(voices);
        let m = Moving {
            far,
            envelopes,
            plays,
            feeds,
        };
        let k = m.drive(
            work,
            n,
            dials,
            taps,
            &table,
            &rates,
            &mut currents,
            &mut delays,
            &mut store,
            &mut bytes,
            ram,
            pcm,
            sheet,
        );
        let e = k.envelopes;
        let p = k.plays;
        let f = k.feeds;
        let after = voices_of(dials, e, p, f, currents, store);
        self.with_parts(k.far, bytes, after, delays, taps)
    }

    // So many ticks, with their samples and their rows of the sheet. Refuses 1, 2, then 10.
    #[tactic(auto, unfolding(crate::specs::Ticks::drive_of))]
    pub fn ticks(
        self,
        work: Work,
        count: u16,
        ram: &mut [u8],
        pcm: &mut [u8],
        sheet: &mut [u8],
    ) -> Answer
        ensures { (◌≡◌ {A = Drove} (record { refusal = told result; dsp = handed result; ram = ram.new; pcm = pcm.new; sheet = sheet.new }) (drive_of work count self ram.old pcm.old sheet.old)) × (fit (handed result) ≡ fit self) }
    {
        if ram.len() != RAM_SIZE {
            return Err(Refusal::RamSize.of(self));
        }
        if !self.is_fit() {
            return Err(Refusal::Unfit.of(self));
        }
        let n = count as usize;
        if pcm.len() != n * 4 {
            return Err(Refusal::WrongRoom.of(self));
        }
        if sheet.len() != n * 36 {
            return Err(Refusal::WrongRoom.of(self));
        }
        Ok(self.driven(work, ram, n, pcm, sheet))
    }

    // One tick. Refuses 1, then 2.
    #[tactic(auto, unfolding(crate::specs::Ticks::step_of))]
    pub fn step(self, ram: &mut [u8]) -> Answer
        ensures { ◌≡◌ {A = After} (record { refusal = told result; dsp = handed result; ram = ram.new }) (step_of self ram.old) }
    {
        if ram.len() != RAM_SIZE {
            return Err(Refusal::RamSize.of(self));
        }
        if !self.is_fit() {
            return Err(Refusal::Unfit.of(self));
        }
        let mut pcm = [0; 4];
        let mut sheet = [0; 36];
        Ok(self.driven(Work::EVERYTHING, ram, 1, &mut pcm, &mut sheet))
    }
}

// ---- the arrays, and the voices made of them again

pub(crate) fn dials_of(rates: &Rates, voices: [Voice; 8]) -> [Dial; 8]
    requires { (j : ℕ) → FitVoice (get_or voices j no_voice) }
    ensures { result ≡ map dial_of voices }
{
    voices.map(|v| v.dial(rates))
}

pub(crate) fn envelopes_of(voices: [Voice; 8]) -> [Envelope; 8]
    ensures { result ≡ map (λ v. envelope_of v.adsr) voices }
{
    voices.map(|v| v.envelope())
}

pub(crate) fn plays_of(voices: [Voice; 8]) -> [Play; 8]
    ensures { result ≡ map play_of voices }
{
    voices.map(|v| v.play())
}

pub(crate) fn feeds_of(voices: [Voice; 8]) -> [Feed; 8]
    ensures { result ≡ map (λ v. feed_of v.brr) voices }
{
    voices.map(|v| v.feed())
}

pub(crate) fn currents_of(voices: [Voice; 8]) -> [i16; 8]
    ensures { result ≡ map (λ v. v.current_sample) voices }
{
    voices.map(|v| v.current_sample)
}

pub(crate) fn store_of(voices: [Voice; 8]) -> [[i16; 16]; 8]
    ensures { result ≡ map (λ v. v.brr.sample_buffer) voices }
{
    voices.map(
        |v: Voice| -> [i16; 16]
            ensures { result ≡ v.brr.sample_buffer }
        { v.brr.sample_buffer },
    )
}

pub(crate) fn voices_of(
    dials: [Dial; 8],
    envelopes: [Envelope; 8],
    plays: [Play; 8],
    feeds: [Feed; 8],
    currents: [i16; 8],
    store: [[i16; 16]; 8],
) -> [Voice; 8]
    ensures { result ≡ voices_in dials envelopes plays feeds currents store }
{
    array::from_fn(|n| dials[n].voice(envelopes[n], plays[n], feeds[n], currents[n], store[n]))
}
