// The lines: numbers in decimal, bytes in two capital hex digits, digests in sixteen. Each answers whether it went out:
// `out` is standard output, or whatever else prints.
ghost use Rattle.std.specs.Prelude.{◌≡◌, ◌<◌};
ghost use Rattle.report.specs.Hex.{capital, in_hex};

use dsp::Dsp;

pub fn say(out: &impl Print, words: &[u8]) -> bool {
    out.write_all(words).is_ok()
}

pub fn complain(errors: &impl Print, words: &[u8]) {
    let _ = errors.write_all(words);
}

pub fn number(out: &impl Print, n: u64) -> bool {
    print!(out; "{n}").is_ok()
}

// A line of words and a number.
pub fn numbered(out: &impl Print, words: &[u8], n: u64) -> bool {
    say(out, words) && number(out, n) && say(out, b"\n")
}

fn digit(n: u8) -> u8
    requires { n < 16 }
    ensures { result ≡ capital n }
{
    if n < 10 { b'0' + n } else { b'A' - 10 + n }
}

#[tactic(auto, unfolding(crate::specs::Hex::in_hex))]
pub fn hex_of(value: u8) -> [u8; 2]
    ensures { result ≡ in_hex 2 value }
{
    [digit(value / 16), digit(value % 16)]
}

pub fn hex(out: &impl Print, value: u8) -> bool {
    let text = hex_of(value);
    say(out, &text)
}

fn byte(out: &impl Print, value: u8) -> bool {
    say(out, b" ") && hex(out, value)
}

pub fn reading(out: &impl Print, running: u64, register: u8, value: u8) -> bool {
    say(out, b"Q ")
        && number(out, running)
        && byte(out, register)
        && byte(out, value)
        && say(out, b"\n")
}

pub fn end(out: &impl Print, ticks: u64, readings: u64) -> bool {
    say(out, b"END ") && number(out, ticks) && numbered(out, b" ", readings)
}

// A refusal, or any number in its place.
pub fn refused(out: &impl Print, refusal: impl Into<u8>) -> bool {
    numbered(out, b"REFUSED ", u64::from(refusal.into()))
}

pub fn registers(out: &impl Print, dsp: Dsp) -> bool {
    let mut went = say(out, b"REG");
    for register in 0..128 {
        went = byte(out, dsp.read_reg(register)) & went;
    }
    say(out, b"\n") & went
}

#[tactic(auto, unfolding(crate::specs::Hex::in_hex), using(crate::proofs::Digits::digit_before))]
pub fn digits_of(sum: u64) -> [u8; 16]
    ensures { result ≡ in_hex 16 sum }
{
    let mut text = [0u8; 16];
    let mut rest = sum;
    for i in (0..16).rev() {
        text[i] = digit((rest % 16) as u8);
        rest /= 16;
    }
    text
}

pub fn digest(out: &impl Print, words: &[u8], sum: u64) -> bool {
    let text = digits_of(sum);
    say(out, words) && say(out, &text) && say(out, b"\n")
}
