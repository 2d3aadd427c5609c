// "All else the fields": with every byte turned over but KOFF, DIR and each SRCN, ticks give the same fields, samples
// and RAM.
ghost use Rattle.std.specs.Prelude.{◌≡◌, length};

use crate::answers::record;
use crate::lines::line;
use dsp::{Adsr, Dsp, EnvelopePhase, Sample, Voice};
use refusal::Refusal;
use report::lines::say;

const TICKS: u32 = 64;

// A directory, its pointers and looping blocks that all sound, in every byte alike: shift 11, filter 0, loop, end.
fn looping() -> [u8; 65536]
    ensures { 65536 ≡ length result }
{
    [0xB3; 65536]
}

// A voice in Release, with all that it needs when it is keyed on, by its rates or by GAIN.
fn released(v: Voice, by_rates: bool) -> Voice {
    Voice {
        left_vol: 40,
        right_vol: -30,
        pitch: 0x1800,
        srcn: 7,
        adsr: Adsr {
            adsr_mode: by_rates,
            gain_param: 0x7F,
            attack_rate: 15,
            decay_rate: 7,
            sustain_level: 5,
            sustain_rate: 31,
            envelope_level: 0x700,
            envelope_phase: EnvelopePhase::Release,
            ..v.adsr
        },
        ..v
    }
}

// Every kind of field in use: key-on, noise, modulation, echo, volumes.
fn lively() -> Dsp {
    let mut d = Dsp::new();
    let off = d.voices[0];
    let v = released(off, false);
    let w = released(off, true);
    d.voices = [v, w, v, v, v, v, v, v];
    d.fir_coeff = [10, -20, 30, -40, 50, -60, 70, 80];
    d.flg = 0x1F;
    d.dir_base = 0x12;
    d.new_kon = 0x83;
    d.non = 0x04;
    d.pmon = 0xFE;
    d.eon = 0x0F;
    d.esa = 0x20;
    d.edl = 1;
    d.efb = 50;
    d.master_vol_left = 100;
    d.master_vol_right = -90;
    d.echo_vol_left = 60;
    d.echo_vol_right = 70;
    d
}

// KOFF, DIR and SRCN stay.
fn over(i: usize, byte: u8) -> u8 {
    if (i == 0x5C) | (i == 0x5D) | (i % 16 == 4) {
        byte
    } else {
        255 - byte
    }
}

fn turned_over(d: Dsp) -> Dsp {
    let mut e = d;
    for i in 0..128 {
        e.registers[i] = over(i, d.registers[i]);
    }
    e
}

// Two records, each with its own RAM, and how far they have gone alike.
#[derive(Clone, Copy)]
struct Pair {
    x: Dsp,
    y: Dsp,
    fields: bool,
    samples: bool,
    heard: bool,
}

#[derive(Clone, Copy)]
struct Ticked {
    dsp: Dsp,
    sample: Result<Sample, Refusal>,
}

// All but the register bytes.
fn same_fields(a: Dsp, b: Dsp) -> bool {
    a == Dsp {
        registers: a.registers,
        ..b
    }
}

fn sounds(sample: Result<Sample, Refusal>) -> bool {
    sample.is_ok_and(|s| (s.left != 0) & (s.right != 0))
}

// A tick is `step`, then `render_audio_single`.
fn tick(d: Dsp, ram: &mut [u8]) -> Ticked
    ensures { length ram.new ≡ length ram.old }
{
    let dsp = record(d.step(ram));
    Ticked {
        dsp,
        sample: dsp.render_audio_single(),
    }
}

impl Pair {
    fn ticked(self, a: Ticked, b: Ticked) -> Self {
        Pair {
            x: a.dsp,
            y: b.dsp,
            fields: self.fields & same_fields(a.dsp, b.dsp),
            samples: self.samples & (a.sample == b.sample),
            heard: self.heard | sounds(a.sample),
        }
    }
}

fn run(x: Dsp, y: Dsp, ram: &mut [u8], other: &mut [u8]) -> Pair {
    let mut p = Pair {
        x,
        y,
        fields: true,
        samples: true,
        heard: false,
    };
    for _ in 0..TICKS {
        let a = tick(p.x, ram);
        let b = tick(p.y, other);
        p = p.ticked(a, b);
    }
    p
}

fn compared(out: &impl Print, name: &[u8], a: Dsp, b: Dsp) {
    let mut ram = looping();
    let mut other = looping();
    let p = run(a, b, &mut ram, &mut other);
    told(out, name, p, ram == other);
}

fn told(out: &impl Print, name: &[u8], p: Pair, ram: bool) {
    say(out, name);
    let values = [p.fields as u64, p.samples as u64, ram as u64];
    line(out, b" fields ? samples ? RAM ?", &values);
    if p.heard {
        say(out, b" heard\n");
    } else {
        say(out, b" silent\n");
    }
}

pub fn all(out: &impl Print) {
    let d = lively();
    let e = turned_over(d);
    compared(out, b"other bytes turned over:", d, e);
    let mut f = e;
    f.registers[0x5C] = 0xFF;
    compared(out, b"KOFF turned over too:", d, f);
}
