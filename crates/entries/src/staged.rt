// Parts of a run, by `run_part`: "the whole log is checked before the first tick", 1, 2 and 3 in their order, and 10 within a TK
// record. A refusal hands back the stage it got; RAM and PCM keep their bytes.
ghost use Rattle.std.specs.Prelude.{◌≤◌};

use crate::answers::number;
use crate::calls::{FILL, ready, untouched};
use crate::lines::line;
use crate::parts::{Part, with};
use report::lines::say;
use sitting::{Heard, Stage, run_part};

fn heard(out: &impl Print, part: Heard) {
    match part {
        Heard::Nothing => line(out, b" nothing\n", &[]),
        Heard::Sound(ticks) => line(out, b" ticks #\n", &[ticks as u64]),
        Heard::Reading { register, value } => {
            line(out, b" reading $ $\n", &[register as u64, value as u64]);
        }
        Heard::End => line(out, b" end\n", &[]),
    }
}

fn called(out: &impl Print, stage: Stage, ram: &mut [u8], log: &[u8], pcm: &mut [u8]) -> Stage {
    let answer = run_part(stage, ram, log, pcm);
    let (behind, part) = match answer {
        Ok(part) => (part.stage, part.heard),
        Err(refused) => (refused.given, Heard::Nothing),
    };
    let values = [
        number(&answer),
        (behind.dsp == stage.dsp) as u64,
        untouched(ram) as u64,
        untouched(pcm) as u64,
    ];
    line(out, b": # record ? RAM ? PCM ?", &values);
    heard(out, part);
    behind
}

// One part, on bytes that are all alike before it; answers where the run then stands.
fn tried(out: &impl Print, name: &[u8], stage: Stage, log: &[u8], size: usize, room: usize) -> Stage
    requires { (size ≤ 65537) × (room ≤ 8) }
{
    let mut ram = [FILL; 65537];
    let mut pcm = [FILL; 8];
    say(out, b"run_part, ");
    say(out, name);
    called(out, stage, &mut ram[..size], log, &mut pcm[..room])
}

// A first part, on 65,536 bytes of RAM and room for two samples.
fn first(out: &impl Print, name: &[u8], log: &[u8]) -> Stage {
    tried(out, name, Stage::new(ready()), log, 65536, 8)
}

// The log's fault stands behind a tick, and is told before it.
fn faults(out: &impl Print) {
    first(out, b"a lone byte behind a tick", b"TK\x01\x00\xFF");
    first(out, b"unknown mark behind a tick", b"TK\x01\x00XXND");
    first(out, b"no end record", b"TK\x01\x00");
    first(out, b"32000 ticks", b"TK\x00\x7DND");
    first(out, b"32001 ticks", b"TK\x00\x7DTK\x01\x00ND");
    first(out, b"log too long", &[0; 60001]);
}

// 1, 2, 3, each before the next, and 3 before 10.
fn order(out: &impl Print) {
    let unfit = Stage::new(with(Part::Level, 0, 0x801));
    let long = [0; 60001];
    tried(
        out,
        b"unfit, RAM a byte short, log too long",
        unfit,
        &long,
        65535,
        3,
    );
    tried(
        out,
        b"unfit, RAM a byte long, log too long",
        unfit,
        &long,
        65537,
        3,
    );
    tried(out, b"unfit, log too long", unfit, &long, 65536, 3);
    tried(
        out,
        b"log too long, PCM of 3 bytes",
        Stage::new(ready()),
        &long,
        65536,
        3,
    );
}

// 10 is for a buffer without room, where ticks are left; behind the front another log has its own refusals.
fn onward(out: &impl Print) {
    let log = b"TK\x03\x00QAlND";
    let s = first(out, b"a TK record", log);
    let t = tried(out, b"within it, PCM of 3 bytes", s, log, 65536, 3);
    let u = tried(out, b"within it, PCM of 8 bytes", t, log, 65536, 8);
    let v = tried(out, b"within it, one tick left", u, log, 65536, 8);
    tried(
        out,
        b"another log, unknown mark",
        v,
        b"TK\x03\x00XXND",
        65536,
        8,
    );
    tried(out, b"another log, too long", v, &[0; 60001], 65536, 8);
    let w = tried(out, b"a QA record", v, log, 65536, 0);
    tried(out, b"the end record", w, log, 65536, 0);
}

pub fn all(out: &impl Print) {
    faults(out);
    order(out);
    onward(out);
}
