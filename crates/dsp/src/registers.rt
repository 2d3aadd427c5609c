// The machine record, its reads, and its register writes.
ghost use Rattle.std.specs.Prelude.{map, ◌≡◌, ◌<◌, ◌%◌, get_or};
ghost use Rattle.dsp.specs.PowerOn.{new_dsp};
ghost use Rattle.dsp.specs.Machine.{globals_of};
ghost use Rattle.dsp.specs.Fit.{globals_rule, meets, fit};
ghost use Rattle.dsp.specs.Keys.{silenced};
ghost use Rattle.dsp.specs.Registers.{at, globals_after, endx_write, write_at, Written, write_of};
ghost use Rattle.dsp.specs.Inside.{as_globals, with_globals};
ghost use Rattle.refusal.specs.Refusal.{told, handed};

use crate::noise::Noise;
use crate::voice::Voice;
use refusal::{Refusal, Refused};

#[derive(Clone, Copy, PartialEq, Eq)]
pub struct Dsp {
    pub registers: [u8; 128],
    pub voices: [Voice; 8],
    pub dir_base: u8,
    pub master_vol_left: i8,
    pub master_vol_right: i8,
    pub flg: u8,
    pub new_kon: u8,
    pub every_other_sample: bool,
    pub kon_delay: [u8; 8],
    pub non: u8,
    pub pmon: u8,
    pub noise_lfsr: u16,
    pub noise_tick_counter: u16,
    pub echo_vol_left: i8,
    pub echo_vol_right: i8,
    pub efb: i8,
    pub eon: u8,
    pub esa: u8,
    pub edl: u8,
    pub fir_coeff: [i8; 8],
    pub fir_history_l: [i16; 8],
    pub fir_history_r: [i16; 8],
    pub echo_ptr: u16,
    pub echo_len: u16,
    pub echo_out_l: i16,
    pub echo_out_r: i16,
}

// The record's numbers that belong to no voice and stand in no array.
#[derive(Clone, Copy, PartialEq, Eq)]
pub struct Glob {
    pub dir_base: u8,
    pub master_vol_left: i8,
    pub master_vol_right: i8,
    pub flg: u8,
    pub new_kon: u8,
    pub every_other_sample: bool,
    pub non: u8,
    pub pmon: u8,
    pub noise: Noise,
    pub echo_vol_left: i8,
    pub echo_vol_right: i8,
    pub efb: i8,
    pub eon: u8,
    pub esa: u8,
    pub edl: u8,
    pub echo_ptr: u16,
    pub echo_len: u16,
    pub echo_out_l: i16,
    pub echo_out_r: i16,
}

// What `write_reg`, `step` and `ticks` answer: the record, or the refusal, with the record as it was given.
pub type Answer = Result<Dsp, Refused<Dsp>>;

impl Glob {
    #[tactic(auto, unfolding(numbers::specs::Listed::all))]
    pub(crate) fn is_fit(self) -> bool
        ensures { result ≡ meets (globals_rule (as_globals self)) }
    {
        let n = self.noise;
        (n.counter <= 2047)
            & (n.lfsr <= 0x7FFF)
            & (self.edl <= 15)
            & (self.pmon % 2 == 0)
            & (self.echo_len % 2048 == 0)
            & (self.echo_len <= 30720)
            & (self.echo_ptr % 4 == 0)
            & ((self.echo_ptr == 0) | (self.echo_ptr < self.echo_len))
    }

    // The global registers. KOFF is read straight from its byte at each poll; the rest is stored only there.
    pub(crate) fn write(mut self, idx: u8, value: u8) -> Self
        ensures { as_globals result ≡ globals_after idx value (as_globals self) }
    {
        match idx {
            0x4C => self.new_kon = value,
            0x0C => self.master_vol_left = numbers::signed8(value),
            0x1C => self.master_vol_right = numbers::signed8(value),
            0x5D => self.dir_base = value,
            0x3D => self.non = value,
            0x2D => self.pmon = value / 2 * 2,
            0x2C => self.echo_vol_left = numbers::signed8(value),
            0x3C => self.echo_vol_right = numbers::signed8(value),
            0x0D => self.efb = numbers::signed8(value),
            0x4D => self.eon = value,
            0x6D => self.esa = value,
            0x7D => self.edl = value % 16,
            0x6C => self.flg = value,
            _ => {}
        }
        self
    }
}

impl Dsp {
    // The power-on record: FLG $E0 blocks key-ons, mutes, and keeps the echo from writing.
    pub fn new() -> Self
        ensures { result ≡ new_dsp }
    {
        let mut registers = [0; 128];
        registers[0x6C] = 0xE0;
        let v = Voice::new();
        Self {
            registers,
            voices: [v; 8],
            dir_base: 0,
            master_vol_left: 0,
            master_vol_right: 0,
            flg: 0xE0,
            new_kon: 0,
            every_other_sample: false,
            kon_delay: [0; 8],
            non: 0,
            pmon: 0,
            noise_lfsr: 0x4000,
            noise_tick_counter: 0,
            echo_vol_left: 0,
            echo_vol_right: 0,
            efb: 0,
            eon: 0,
            esa: 0,
            edl: 0,
            fir_coeff: [0; 8],
            fir_history_l: [0; 8],
            fir_history_r: [0; 8],
            echo_ptr: 0,
            echo_len: 0,
            echo_out_l: 0,
            echo_out_r: 0,
        }
    }

    // The byte last written or left there, whatever is used of it inside.
    pub fn read_reg(self, index: u8) -> u8
        ensures { result ≡ get_or self.registers (index % 128) 0 }
    {
        let at = (index % 128) as usize;
        self.registers[at]
    }

    // The echo delay as used: the low 4 bits of what was written.
    pub fn edl(self) -> u8
        ensures { result ≡ self.edl }
    {
        self.edl
    }

    // The pitch modulation mask as used: bit 0 cleared.
    pub fn pmon(self) -> u8
        ensures { result ≡ self.pmon }
    {
        self.pmon
    }

    pub(crate) fn glob(self) -> Glob
        ensures { as_globals result ≡ globals_of self }
    {
        let noise = Noise {
            lfsr: self.noise_lfsr,
            counter: self.noise_tick_counter,
        };
        Glob {
            dir_base: self.dir_base,
            master_vol_left: self.master_vol_left,
            master_vol_right: self.master_vol_right,
            flg: self.flg,
            new_kon: self.new_kon,
            every_other_sample: self.every_other_sample,
            non: self.non,
            pmon: self.pmon,
            noise,
            echo_vol_left: self.echo_vol_left,
            echo_vol_right: self.echo_vol_right,
            efb: self.efb,
            eon: self.eon,
            esa: self.esa,
            edl: self.edl,
            echo_ptr: self.echo_ptr,
            echo_len: self.echo_len,
            echo_out_l: self.echo_out_l,
            echo_out_r: self.echo_out_r,
        }
    }

    // Whether no call refuses the record by 2.
    pub fn is_fit(self) -> bool
        ensures { result ≡ fit self }
    {
        let mut ok = self.glob().is_fit();
        for n in 0..8 {
            ok = ok & self.voices[n].is_fit() & (self.kon_delay[n] <= 5);
        }
        ok
    }

    pub(crate) fn with_glob(mut self, g: Glob) -> Self
        ensures { result ≡ with_globals self (as_globals g) }
    {
        let n = g.noise;
        self.dir_base = g.dir_base;
        self.master_vol_left = g.master_vol_left;
        self.master_vol_right = g.master_vol_right;
        self.flg = g.flg;
        self.new_kon = g.new_kon;
        self.every_other_sample = g.every_other_sample;
        self.non = g.non;
        self.pmon = g.pmon;
        self.echo_vol_left = g.echo_vol_left;
        self.echo_vol_right = g.echo_vol_right;
        self.efb = g.efb;
        self.eon = g.eon;
        self.esa = g.esa;
        self.edl = g.edl;
        self.echo_ptr = g.echo_ptr;
        self.echo_len = g.echo_len;
        self.echo_out_l = g.echo_out_l;
        self.echo_out_r = g.echo_out_r;
        self.noise_lfsr = n.lfsr;
        self.noise_tick_counter = n.counter;
        self
    }

    // One register, by its number below $80, on a record that is known to be fit.
    pub(crate) fn put(mut self, idx: u8, value: u8) -> Self
        requires { idx < 128 }
        ensures { result ≡ write_at idx value self }
    {
        let at = idx as usize;
        self.registers[at] = byte_left(idx, value);
        let off = idx % 16;
        let v = (idx / 16) as usize;
        if off < 8 {
            let voice = self.voices[v];
            let w = voice.write(off, value);
            self.voices[v] = w;
            self
        } else if off == 15 {
            self.fir_coeff[v] = numbers::signed8(value);
            self
        } else {
            let g = self.glob();
            let h = g.write(idx, value);
            let mut d = self.with_glob(h);
            // RESET silences every voice at once and clears ENDX; delays and the pending KON stay.
            if (idx == 0x6C) & (value >= 0x80) {
                d.registers[0x7C] = 0;
                let voices = d.voices;
                let cut = silence_all(voices);
                d.voices = cut;
            }
            d
        }
    }

    // Write a register and update what it stands for. Refuses 2.
    #[tactic(auto, unfolding(crate::specs::Registers::write_of))]
    pub fn write_reg(self, index: u8, value: u8) -> Answer
        ensures { ◌≡◌ {A = Written} (record { refusal = told result; dsp = handed result }) (write_of index value self) }
    {
        if !self.is_fit() {
            return Err(Refusal::Unfit.of(self));
        }
        Ok(self.put(index % 128, value))
    }
}

// What a write leaves in a register: any write to $7C leaves 0 (document 02, W-202).
pub(crate) fn byte_left(register: u8, value: u8) -> u8
    ensures { result ≡ at register 0x7C (endx_write value) value }
{
    if register == 0x7C { 0 } else { value }
}

pub(crate) fn silence_all(voices: [Voice; 8]) -> [Voice; 8]
    ensures { result ≡ map silenced voices }
{
    voices.map(|v| v.silenced())
}
