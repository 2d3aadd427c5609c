// "Where a field and its register byte differ in a given record, a poll's KOFF, a loop jump's DIR and SRCN and
// `read_reg` use the bytes, all else the fields".
ghost use Rattle.std.specs.Prelude.{◌<◌};

use crate::answers::{number, record};
use crate::lines::line;
use crate::parts::{Part, with};
use crate::readings;
use dsp::{Adsr, Answer, Brr, Dsp, EnvelopePhase, Voice};
use report::lines::say;

// A loop pointer for each directory entry that fields and bytes could name: DIR $12 or $34, SRCN 5 or 9.
fn pointers() -> [u8; 65536] {
    let mut ram = [0; 65536];
    ram[0x1217] = 0x10;
    ram[0x1227] = 0x20;
    ram[0x3417] = 0x30;
    ram[0x3427] = 0x40;
    ram
}

// A voice whose next sample is the last of an end block, at a level that no rate changes.
fn playing(v: Voice) -> Voice {
    Voice {
        pitch: 0x1000,
        key_on: true,
        adsr: Adsr {
            adsr_mode: true,
            envelope_level: 0x400,
            envelope_phase: EnvelopePhase::Sustain,
            ..v.adsr
        },
        brr: Brr {
            nibble_idx: 15,
            block_end: true,
            buffer_fill: 16,
            ..v.brr
        },
        ..v
    }
}

// The record with voice j playing.
fn with_playing(d: Dsp, j: usize) -> Dsp
    requires { j < 8 }
{
    let mut e = d;
    e.voices[j] = playing(d.voices[j]);
    e
}

fn letter(phase: EnvelopePhase) -> u8 {
    match phase {
        EnvelopePhase::Attack => b'A',
        EnvelopePhase::Decay => b'D',
        EnvelopePhase::Sustain => b'S',
        EnvelopePhase::Release => b'R',
        EnvelopePhase::Off => b'O',
    }
}

// Voice j after one tick.
fn ticked(out: &impl Print, name: &[u8], d: Dsp, j: usize)
    requires { j < 8 }
{
    let mut ram = pointers();
    told(out, name, d.step(&mut ram), j);
}

fn told(out: &impl Print, name: &[u8], a: Answer, j: usize)
    requires { j < 8 }
{
    let v = record(a).voices[j];
    let values = [
        j as u64,
        number(&a),
        v.key_on as u64,
        letter(v.adsr.envelope_phase) as u64,
        v.adsr.envelope_level as u64,
        v.brr.addr as u64,
    ];
    say(out, name);
    line(out, b" voice #: step # key_on # @ level $ at $\n", &values);
}

// A poll keys voice 1 off by the byte alone, and no other; a tick that polls nothing leaves it.
fn koff(out: &impl Print) {
    let mut d = with_playing(with_playing(Dsp::new(), 1), 2);
    d.registers[0x5C] = 2;
    ticked(out, b"KOFF", d, 1);
    ticked(out, b"KOFF", d, 2);
    d.every_other_sample = true;
    ticked(out, b"KOFF unpolled", d, 1);
}

// KON, DIR, SRCN and FLG, each with a byte that says something else. FLG's byte is $E0.
fn differing(flg: u8) -> Dsp {
    let mut d = Dsp::new();
    d.flg = flg;
    d.new_kon = 0x08;
    d.registers[0x4C] = 0x10;
    d.dir_base = 0x12;
    d.registers[0x5D] = 0x34;
    d.voices[3].srcn = 5;
    d.registers[0x34] = 9;
    d
}

// Key-on takes all four from the fields: entry $1214.
fn key_on(out: &impl Print) {
    let d = differing(0x20);
    ticked(out, b"KON", d, 3);
    ticked(out, b"KON", d, 4);
    let mut e = differing(0x80);
    e.registers[0x6C] = 0;
    ticked(out, b"KON under RESET", e, 3);
}

// A loop jump takes DIR and SRCN from the bytes: entry $3424. The pending KON is held back by FLG's field.
fn loop_jump(out: &impl Print) {
    let d = differing(0x80);
    ticked(out, b"loop jump", with_playing(d, 3), 3);
}

// `read_reg` gives the byte, `edl` and `pmon` the field; a read masks its index as a write does.
fn reads(out: &impl Print) {
    let d = readings::differing(0x1F, 0xE0);
    let values = [
        d.read_reg(0x6C) as u64,
        d.read_reg(0xEC) as u64,
        d.read_reg(0x2D) as u64,
        d.pmon() as u64,
        d.read_reg(0x7D) as u64,
        d.edl() as u64,
    ];
    line(
        out,
        b"FLG: read_reg $ $\nPMON: read_reg $ pmon $\nEDL: read_reg $ edl $\n",
        &values,
    );
}

// A write of one half of the pitch keeps the field's other half, and not the byte's.
fn pitch(out: &impl Print) {
    let mut d = with(Part::Pitch, 1, 0x1234);
    d.registers[0x13] = 0x3F;
    let written = record(d.write_reg(0x12, 0x56));
    let values = [written.voices[1].pitch as u64];
    line(out, b"PITCH low: pitch $\n", &values);
}

pub fn all(out: &impl Print) {
    koff(out);
    key_on(out);
    loop_jump(out);
    reads(out);
    pitch(out);
}
