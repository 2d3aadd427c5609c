// The echo: the pair at its pointer goes through the filter, and back into RAM with feedback.
ghost use Rattle.std.specs.Prelude.{◌≡◌, ◌<◌, length};
ghost use Rattle.dsp.specs.Fit.{FitGlobals};
ghost use Rattle.dsp.specs.Ram.{stored_from};
ghost use Rattle.dsp.specs.Sheet.{pair_bytes};
ghost use Rattle.dsp.specs.Echo.{echo_base, echo_read, echo_written, length_now, pointer_next, echo_moved, Echo, echo_tick, echo_from, EchoLane, echo_lane};
ghost use Rattle.dsp.specs.Inside.{as_stereo, as_globals};
ghost use Rattle.numbers.specs.Unsigned.{wrapped};

use crate::brr::ram_read8;
use crate::mix::Stereo;
use crate::registers::Glob;
use numbers::bit;

// The echo's numbers and its two histories.
#[derive(Clone, Copy)]
pub struct Echoed {
    pub glob: Glob,
    pub left: [i16; 8],
    pub right: [i16; 8],
}

impl Glob {
    // ESA · 256 + pointer: the address wraps at 65,536.
    fn echo_base(self) -> u16
        ensures { result ≡ wrapped (echo_base (as_globals self)) }
    {
        numbers::wrapping_add16((self.esa as u16) * 256, self.echo_ptr)
    }

    // The sample in bytes k and k + 1 of the pair, low byte first.
    fn read_echo_sample(self, ram: &[u8], k: u16) -> i16
        requires { (length ram.now ≡ 0x10000) × (k < 4) }
        ensures { result ≡ echo_read (as_globals self) ram.now k }
    {
        let base = self.echo_base();
        let lo = ram_read8(ram, base, k);
        let hi = ram_read8(ram, base, k + 1);
        sound::joined(lo, hi)
    }

    #[tactic(auto, unfolding(crate::specs::Ram::stored_from, crate::specs::Sheet::pair_bytes))]
    fn store_echo(self, ram: &mut [u8], l: i16, r: i16)
        requires { length ram.old ≡ 0x10000 }
        ensures { ram.new ≡ stored_from (echo_base (as_globals self)) (pair_bytes l r) ram.old }
    {
        let base = self.echo_base();
        let a = numbers::wrapping_add16(base, 0) as usize;
        let b = numbers::wrapping_add16(base, 1) as usize;
        let c = numbers::wrapping_add16(base, 2) as usize;
        let d = numbers::wrapping_add16(base, 3) as usize;
        ram[a] = numbers::low(l);
        ram[b] = numbers::high(l);
        ram[c] = numbers::low(r);
        ram[d] = numbers::high(r);
    }

    #[tactic(auto, unfolding(crate::specs::Echo::echo_written))]
    fn write_echo(self, ram: &mut [u8], l: i16, r: i16)
        requires { length ram.old ≡ 0x10000 }
        ensures { ram.new ≡ echo_written (as_globals self) ram.old l r }
    {
        if bit(self.flg, 5) {} else {
            self.store_echo(ram, l, r);
        }
    }

    #[tactic(auto, unfolding(crate::specs::Echo::length_now))]
    fn length_now(self) -> u16
        requires { FitGlobals (as_globals self) }
        ensures { result ≡ length_now (as_globals self) }
    {
        if self.echo_ptr == 0 {
            (self.edl as u16) * 2048
        } else {
            self.echo_len
        }
    }

    #[tactic(auto, unfolding(crate::specs::Echo::pointer_next))]
    fn pointer_next(self) -> u16
        requires { FitGlobals (as_globals self) }
        ensures { result ≡ pointer_next (as_globals self) }
    {
        let next = self.echo_ptr + 4;
        if self.length_now() <= next { 0 } else { next }
    }

    #[tactic(auto, unfolding(crate::specs::Echo::echo_moved))]
    fn echo_moved(mut self, l: i16, r: i16) -> Self
        requires { FitGlobals (as_globals self) }
        ensures { as_globals result ≡ echo_moved (as_globals self) l r }
    {
        let len = self.length_now();
        let ptr = self.pointer_next();
        self.echo_len = len;
        self.echo_ptr = ptr;
        self.echo_out_l = l;
        self.echo_out_r = r;
        self
    }

    // One tick of the echo.
    pub(crate) fn tick_echo(
        self,
        taps: [i8; 8],
        left: [i16; 8],
        right: [i16; 8],
        ram: &mut [u8],
        input: Stereo,
    ) -> Echoed
        requires { (length ram.old ≡ 0x10000) × FitGlobals (as_globals self) }
        ensures { ◌≡◌ {A = Echo} (record { globals = as_globals result.glob; left = result.left; right = result.right; ram = ram.new }) (echo_tick (as_globals self) taps left right ram.old (as_stereo input)) }
    {
        let read_l = self.read_echo_sample(ram, 0);
        let read_r = self.read_echo_sample(ram, 2);
        let hl = sound::moved_on(left, read_l);
        let hr = sound::moved_on(right, read_r);
        let fir_l = sound::fir(hl, taps);
        let fir_r = sound::fir(hr, taps);
        let write_l = sound::fed_back(input.l, fir_l, self.efb);
        let write_r = sound::fed_back(input.r, fir_r, self.efb);
        self.write_echo(ram, write_l, write_r);
        let g = self.echo_moved(fir_l, fir_r);
        Echoed {
            glob: g,
            left: hl,
            right: hr,
        }
    }

    // The sheet's echo output in the place of the record's.
    #[tactic(auto, unfolding(crate::specs::Echo::echo_from))]
    fn echo_from(mut self, slot: &[u8]) -> Self
        requires { length slot.now ≡ 4 }
        ensures { as_globals result ≡ echo_from slot.now (as_globals self) }
    {
        self.echo_out_l = sound::joined(slot[0], slot[1]);
        self.echo_out_r = sound::joined(slot[2], slot[3]);
        self
    }

    // The echo for one tick: worked, and then on the sheet; or shown from the sheet.
    #[tactic(auto, unfolding(crate::specs::Echo::echo_lane))]
    pub(crate) fn echo_lane(
        self,
        worked: bool,
        taps: [i8; 8],
        left: [i16; 8],
        right: [i16; 8],
        ram: &mut [u8],
        input: Stereo,
        slot: &mut [u8],
    ) -> Echoed
        requires { (length ram.old ≡ 0x10000) × FitGlobals (as_globals self) × (length slot.old ≡ 4) }
        ensures { ◌≡◌ {A = EchoLane} (record { echo = record { globals = as_globals result.glob; left = result.left; right = result.right; ram = ram.new }; slot = slot.new }) (echo_lane worked (as_globals self) taps left right ram.old (as_stereo input) slot.old) }
    {
        if worked {
            let e = self.tick_echo(taps, left, right, ram, input);
            let g = e.glob;
            put_pair(slot, g.echo_out_l, g.echo_out_r);
            e
        } else {
            let g = self.echo_from(slot);
            Echoed {
                glob: g,
                left,
                right,
            }
        }
    }
}

// Left, right, 16 bits, low byte first.
pub(crate) fn put_pair(slot: &mut [u8], l: i16, r: i16)
    requires { length slot.old ≡ 4 }
    ensures { slot.new ≡ pair_bytes l r }
{
    slot[0] = numbers::low(l);
    slot[1] = numbers::high(l);
    slot[2] = numbers::low(r);
    slot[3] = numbers::high(r);
}
