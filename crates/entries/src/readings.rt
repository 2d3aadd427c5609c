// A run from a record in which fields and bytes differ: a reading is the byte, a tick goes by the field.
use crate::answers::number;
use crate::calls::{FILL, untouched};
use crate::lines::line;
use dsp::Dsp;
use refusal::Refused;
use report::lines::say;
use report::runs::ran;
use sitting::{Ran, run};

// The bytes of PMON and EDL, which ticks leave alone, are 1 and $30.
pub fn differing(flg: u8, byte: u8) -> Dsp {
    let mut d = Dsp::new();
    d.flg = flg;
    d.pmon = 0xFE;
    d.edl = 15;
    d.registers[0x6C] = byte;
    d.registers[0x2D] = 0x01;
    d.registers[0x7D] = 0x30;
    d
}

fn value(out: &impl Print, byte: u8) {
    let values = [byte as u64];
    line(out, b" $", &values);
}

fn values(out: &impl Print, readings: &[u8]) {
    for byte in readings {
        value(out, *byte);
    }
}

fn told(out: &impl Print, answer: Result<Ran, Refused<Dsp>>, ram: &[u8], readings: &[u8]) {
    let before = [number(&answer), untouched(ram) as u64];
    line(out, b": # RAM ? readings", &before);
    values(out, readings);
    let d = ran(answer).dsp;
    let behind = [d.pmon() as u64, d.edl() as u64];
    line(out, b" pmon $ edl $\n", &behind);
}

// FLG, PMON and EDL are read before and behind a tick.
fn read(
    out: &impl Print,
    d: Dsp,
    ram: &mut [u8],
    pcm: &mut [u8],
    sheet: &mut [u8],
    readings: &mut [u8],
) {
    let answer = run(
        d,
        ram,
        b"QAlQA-QA}TK\x01\x00QAlQA-QA}ND",
        pcm,
        sheet,
        readings,
    );
    told(out, answer, ram, readings);
}

fn ticked(out: &impl Print, d: Dsp) {
    let mut ram = [FILL; 65536];
    let mut pcm = [FILL; 4];
    let mut sheet = [FILL; 36];
    let mut readings = [FILL; 6];
    read(out, d, &mut ram, &mut pcm, &mut sheet, &mut readings);
}

// Bit 5 of FLG: clear in the field and set in the byte, so that the tick writes RAM; then the other way.
pub fn all(out: &impl Print) {
    say(out, b"run, echo on by FLG's field");
    ticked(out, differing(0x1F, 0xE0));
    say(out, b"run, echo off by FLG's field");
    ticked(out, differing(0x20, 0x1F));
}
