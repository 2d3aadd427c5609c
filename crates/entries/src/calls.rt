// One call of each entry, and what it left of what it was given.
ghost use Rattle.std.specs.Prelude.{◌≤◌};

use crate::answers::{number, record};
use crate::lines::line;
use dsp::{Dsp, Sample};
use refusal::code;

const RAM_SIZE: usize = 65536;

// What RAM holds before a tick, in every byte.
pub const FILL: u8 = 0x55;

// A fit record on which every entry has something to do: with FLG bit 5 clear a tick writes RAM, and with the echo's
// output there is something to hear.
pub fn ready() -> Dsp {
    let mut d = Dsp::new();
    d.flg = 0;
    d.echo_len = 2048;
    d.echo_vol_left = 64;
    d.echo_vol_right = 64;
    d.echo_out_l = 4096;
    d.echo_out_r = 2048;
    d
}

pub fn untouched(ram: &[u8]) -> bool {
    // Every byte is looked at: a search that stops at the first other one is many times slower over bytes that are all alike.
    ram.iter().fold(true, |same, byte| same & (*byte == FILL))
}

fn stepped_on(out: &impl Print, d: Dsp, ram: &mut [u8]) {
    let a = d.step(ram);
    let values = [number(&a), (record(a) == d) as u64, untouched(ram) as u64];
    line(out, b" step # record ? RAM ?", &values);
}

// A tick on n bytes, which may be one more than RAM has.
pub fn stepped(out: &impl Print, d: Dsp, n: usize)
    requires { n ≤ 65537 }
{
    let mut ram = [FILL; 65537];
    stepped_on(out, d, &mut ram[..n]);
}

// A write by value, and the same on the record of a local that is lent.
fn written(out: &impl Print, d: Dsp) {
    let a = d.write_reg(0x0C, 0x7F);
    let b = lent::write_owned(d, 0x0C, 0x7F);
    let values = [
        number(&a),
        (record(a) == d) as u64,
        number(&b),
        (record(b) == d) as u64,
        (record(a) == record(b)) as u64,
    ];
    line(
        out,
        b", write_reg # record ?, write_reg_lent # record ? and by value ?",
        &values,
    );
}

// 16 bits, two's complement.
fn bits(x: i16) -> u64 {
    x.cast_unsigned() as u64
}

fn rendered(out: &impl Print, d: Dsp) {
    let answer = d.render_audio_single();
    let s = answer.unwrap_or(Sample { left: 0, right: 0 });
    let values = [code(&answer) as u64, bits(s.left), bits(s.right)];
    line(out, b", render_audio_single # $ $\n", &values);
}

pub fn called(out: &impl Print, d: Dsp) {
    stepped(out, d, RAM_SIZE);
    written(out, d);
    rendered(out, d);
}
