// One voice for one tick: position, index and history in one small record, and the block that its samples come from in another; the 16
// samples of that block are lent.
ghost use Rattle.std.specs.Prelude.{Bool, true, false, not, ◌&&◌, List, ◌≡◌, ◌+◌, ◌<◌, ◌≤◌, ℤ, pos, length, replicate};
ghost use Rattle.numbers.specs.Unsigned.{wrapped};
ghost use Rattle.dsp.specs.Interpolation.{interpolate_z};
ghost use Rattle.dsp.specs.Ram.{entry_of};
ghost use Rattle.dsp.specs.Brr.{decode_block};
ghost use Rattle.dsp.specs.Voice.{pitch_of, position_of, block_of, next_address};
ghost use Rattle.dsp.specs.Inside.{as_source, history_of, hushed_play, as_brr, as_sounding, pushed_on, begun_of, due_of, rest_left, block_address, gone_on};
ghost use Rattle.dsp.specs.declared.adsr.Envelope.{Envelope};
ghost use Rattle.dsp.specs.declared.play.Feed.{Feed};
ghost use Rattle.dsp.specs.declared.play.Play.{Play};
ghost use Rattle.dsp.specs.declared.voice.Voice.{Voice};

use crate::brr::{decode_brr_block, read_le16};
use crate::gauss::Weights;

// What moves in every tick that sounds: the position, the next sample of the block, and the four newest samples.
#[derive(Clone, Copy)]
pub struct Play {
    pub key_on: bool,
    pub nibble_idx: u8,
    pub pitch_counter: u16,
    pub oldest: i16,
    pub older: i16,
    pub newer: i16,
    pub newest: i16,
}

// The block that is played: what moves at a block change only.
#[derive(Clone, Copy)]
pub struct Feed {
    pub addr: u16,
    pub buffer_fill: u8,
    pub prev1: i16,
    pub prev2: i16,
    pub block_end: bool,
}

// A block change: the block, and whether it mutes the voice.
#[derive(Clone, Copy)]
pub struct Fed {
    pub feed: Feed,
    pub mutes: bool,
}

// A voice in its tick: whether a block change is due, and how many samples are left to take behind it.
#[derive(Clone, Copy)]
pub struct Begun {
    pub play: Play,
    pub due: bool,
    pub rest: u8,
}

// With what the voice before it gave in this tick, where that modulates it.
fn pitch_of(base: u16, source: Option<i16>) -> u32
    ensures { (pos result ≡ pitch_of base (as_source source)) × (result < 0x20000) }
{
    let b = base as i32;
    if let Some(x) = source {
        (b + ((((x >> 5) as i32) * b) >> 10)) as u32
    } else {
        base as u32
    }
}

// The position moved on by the pitch. The cap applies under strong modulation only.
#[tactic(auto, unfolding(crate::specs::Voice::position_of))]
fn position_of(position: u16, pitch: u16, source: Option<i16>) -> u16
    ensures { (v : Voice) → v.pitch ≡ pitch → v.pitch_counter ≡ position → result ≡ position_of (as_source source) v }
{
    let s = ((position % 0x4000) as u32) + pitch_of(pitch, source);
    if s <= 0x7FFF { s as u16 } else { 0x7FFF }
}

impl Feed {
    // Key-on: the address is that of the directory entry until the first step resolves it.
    pub(crate) fn begun(dir: u8, srcn: u8) -> Self
        ensures { (result.addr ≡ wrapped (entry_of dir srcn)) × (result.buffer_fill ≡ 0) × (result.prev1 ≡ pos 0) × (result.prev2 ≡ pos 0) × (result.block_end ≡ false) }
    {
        Feed {
            addr: numbers::wrapping_add16((dir as u16) * 256, (srcn as u16) * 4),
            buffer_fill: 0,
            prev1: 0,
            prev2: 0,
            block_end: false,
        }
    }

    // The block after this one. A loop jump reads DIR and SRCN of this moment, so that a driver may move loop
    // points while a note plays.
    fn next_address(self, ram: &[u8], dir: u8, srcn: u8) -> u16
        requires { length ram.now ≡ 0x10000 }
        ensures { (p : Play) (samples : List ℤ) → result ≡ next_address ram.now dir srcn (as_brr p self samples) }
    {
        if self.block_end {
            let entry = numbers::wrapping_add16((dir as u16) * 256, (srcn as u16) * 4);
            read_le16(ram, entry, 2)
        } else {
            numbers::wrapping_add16(self.addr, 9)
        }
    }

    // On the first tick after key-on the address is still that of the directory entry.
    fn block_at(self, ram: &[u8], dir: u8, srcn: u8) -> u16
        requires { length ram.now ≡ 0x10000 }
        ensures { (p : Play) (samples : List ℤ) → result ≡ block_address ram.now dir srcn (as_brr p self samples) }
    {
        if self.buffer_fill == 0 {
            read_le16(ram, self.addr, 0)
        } else {
            self.next_address(ram, dir, srcn)
        }
    }

    pub(crate) fn next_block(self, ram: &[u8], samples: &mut [i16; 16], dir: u8, srcn: u8) -> Fed
        requires { length ram.now ≡ 0x10000 }
        ensures { (p : Play) → let a = block_address ram.now dir srcn (as_brr p self samples.old) in let b = decode_block ram.now a self.prev1 self.prev2 in (p.nibble_idx ≡ 0 → as_brr p result.feed samples.new ≡ block_of a b) × (result.mutes ≡ (b.end && not b.loops)) }
    {
        let at = self.block_at(ram, dir, srcn);
        let b = decode_brr_block(ram, at, self.prev1, self.prev2, samples);
        let feed = Feed {
            addr: at,
            buffer_fill: 16,
            prev1: b.prev1,
            prev2: b.prev2,
            block_end: b.end,
        };
        Fed {
            feed,
            mutes: b.end & !b.loops,
        }
    }
}

impl Play {
    pub(crate) fn keyed_on() -> Self
        ensures { (result.key_on ≡ true) × (result.nibble_idx ≡ 0) × (result.pitch_counter ≡ 0) × (history_of result ≡ replicate 4 (pos 0)) }
    {
        Play {
            key_on: true,
            nibble_idx: 0,
            pitch_counter: 0,
            oldest: 0,
            older: 0,
            newer: 0,
            newest: 0,
        }
    }

    pub(crate) fn keyed_off(self) -> Self
        ensures { result ≡ hushed_play self }
    {
        Play {
            key_on: false,
            nibble_idx: self.nibble_idx,
            pitch_counter: self.pitch_counter,
            oldest: self.oldest,
            older: self.older,
            newer: self.newer,
            newest: self.newest,
        }
    }

    // The next n samples of the block go into the history, oldest first.
    fn heard(self, samples: &[i16; 16], n: u8) -> Self
        requires { (self.nibble_idx + n ≤ 16) }
        ensures { (v : Voice) (e : Envelope) (f : Feed) (endx : Bool) → as_sounding v e result f samples.now endx ≡ pushed_on n (as_sounding v e self f samples.now endx) }
    {
        let mut a = self.oldest;
        let mut b = self.older;
        let mut c = self.newer;
        let mut d = self.newest;
        let from = self.nibble_idx as usize;
        let end = from + n as usize;
        for i in from..end {
            a = b;
            b = c;
            c = d;
            d = samples[i];
        }
        let k = end as u8;
        Play {
            key_on: self.key_on,
            nibble_idx: k,
            pitch_counter: self.pitch_counter,
            oldest: a,
            older: b,
            newer: c,
            newest: d,
        }
    }

    // Pitch, then the samples that the position passes. At most seven go in a tick, so that the block changes once at most.
    pub(crate) fn advanced(
        self,
        samples: &[i16; 16],
        fill: u8,
        pitch: u16,
        source: Option<i16>,
    ) -> Begun
        requires { (self.nibble_idx ≤ 15) }
        ensures { (v : Voice) (e : Envelope) (f : Feed) (endx : Bool) → v.pitch ≡ pitch → f.buffer_fill ≡ fill → let s = as_sounding v e self f samples.now endx in (as_sounding v e result.play f samples.now endx ≡ begun_of (as_source source) s) × (result.due ≡ due_of (as_source source) s) × (result.rest ≡ rest_left (as_source source) s) }
    {
        let old = self.pitch_counter % 0x4000;
        let at = position_of(self.pitch_counter, pitch, source);
        let n = (at / 0x1000 - old / 0x1000) as u8;
        let p = Play {
            key_on: self.key_on,
            nibble_idx: self.nibble_idx,
            pitch_counter: at,
            oldest: self.oldest,
            older: self.older,
            newer: self.newer,
            newest: self.newest,
        };
        let room = if fill == 0 { 0 } else { 16 - self.nibble_idx };
        let due = n >= room;
        let take = if due { room } else { n };
        let q = p.heard(samples, take);
        Begun {
            play: q,
            due,
            rest: n - take,
        }
    }

    pub(crate) fn sounded(self, table: &Weights) -> i16
        ensures { result ≡ interpolate_z self.pitch_counter (history_of self) }
    {
        table.interpolate(
            self.pitch_counter,
            [self.oldest, self.older, self.newer, self.newest],
        )
    }
}

impl Begun {
    // Behind a block change: it drops the tick's further samples where key_on is clear, in Release too; the first
    // block after key-on does not.
    pub(crate) fn resumed(self, first: bool, mutes: bool, samples: &[i16; 16]) -> Play
        requires { (self.rest ≤ 7) }
        ensures { (q : Play) → q.key_on ≡ (self.play.key_on && not mutes) → q.nibble_idx ≡ 0 → q.pitch_counter ≡ self.play.pitch_counter → history_of q ≡ history_of self.play → (v : Voice) (e : Envelope) (f : Feed) (endx : Bool) → as_sounding v e result f samples.now endx ≡ gone_on first self.rest (as_sounding v e q f samples.now endx) }
    {
        let p = self.play;
        let on = p.key_on & !mutes;
        let q = Play {
            key_on: on,
            nibble_idx: 0,
            pitch_counter: p.pitch_counter,
            oldest: p.oldest,
            older: p.older,
            newer: p.newer,
            newest: p.newest,
        };
        if first | on {
            q.heard(samples, self.rest)
        } else {
            q
        }
    }
}
