// Runs of a log, by `run` from a given record and by `run_new`: refusals 1, 2, 3 to 9 and 10, in this order. A refusal
// leaves "the record given (.. `new` where none is given) and zeros elsewhere; RAM, sheet and outputs keep their
// bytes".
ghost use Rattle.std.specs.Prelude.{◌≡◌, ◌≤◌};

use crate::answers::number;
use crate::calls::{FILL, ready, untouched};
use crate::lines::line;
use crate::parts::{Part, with};
use dsp::Dsp;
use refusal::Refused;
use report::lines::say;
use report::runs::{ran, run_on};
use sitting::Ran;

// How a run is called: by `run_new` or by `run`, the latter from a fit record or not, and how many bytes it is lent.
#[derive(Clone, Copy)]
struct Call {
    of_new: bool,
    fit: bool,
    ram: usize,
    pcm: usize,
    sheet: usize,
    readings: usize,
}

fn lend(of_new: bool, pcm: usize, sheet: usize, readings: usize) -> Call
    ensures { (result.ram ≡ 65536) × (result.pcm ≡ pcm) × (result.sheet ≡ sheet) × (result.readings ≡ readings) }
{
    Call {
        of_new,
        fit: true,
        ram: 65536,
        pcm,
        sheet,
        readings,
    }
}

fn start(of_new: bool, fit: bool) -> Dsp {
    if !fit {
        return with(Part::Level, 0, 0x801);
    }
    if of_new { Dsp::new() } else { ready() }
}

fn named(out: &impl Print, of_new: bool, name: &[u8]) {
    if of_new {
        say(out, b"run_new, ");
    } else {
        say(out, b"run, ");
    }
    say(out, name);
}

fn answered(out: &impl Print, d: Dsp, answer: Result<Ran, Refused<Dsp>>) {
    let r = ran(answer);
    let values = [
        number(&answer),
        r.ticks as u64,
        r.readings as u64,
        (r.dsp == d) as u64,
    ];
    line(out, b": # ticks # readings # record ?", &values);
}

fn kept(out: &impl Print, ram: &[u8], pcm: &[u8], sheet: &[u8], readings: &[u8]) {
    let values = [
        untouched(ram) as u64,
        untouched(pcm) as u64,
        untouched(sheet) as u64,
        untouched(readings) as u64,
    ];
    line(out, b" RAM ? PCM ? sheet ? readings ?\n", &values);
}

fn called(
    out: &impl Print,
    of_new: bool,
    d: Dsp,
    log: &[u8],
    ram: &mut [u8],
    pcm: &mut [u8],
    sheet: &mut [u8],
    readings: &mut [u8],
) {
    let start = if of_new { None } else { Some(d) };
    answered(out, d, run_on(start, ram, log, pcm, sheet, readings));
    kept(out, ram, pcm, sheet, readings);
}

// One call, on bytes that are all alike before it.
fn tried(out: &impl Print, name: &[u8], log: &[u8], c: Call)
    requires { (c.ram ≤ 65537) × (c.pcm ≤ 13) × (c.sheet ≤ 109) × (c.readings ≤ 3) }
{
    let mut ram = [FILL; 65537];
    let mut pcm = [FILL; 13];
    let mut sheet = [FILL; 109];
    let mut readings = [FILL; 3];
    named(out, c.of_new, name);
    called(
        out,
        c.of_new,
        start(c.of_new, c.fit),
        log,
        &mut ram[..c.ram],
        &mut pcm[..c.pcm],
        &mut sheet[..c.sheet],
        &mut readings[..c.readings],
    );
}

// 1: RAM as needed, a byte short and a byte long.
fn ram_lengths(out: &impl Print, of_new: bool, log: &[u8]) {
    let c = lend(of_new, 12, 108, 2);
    tried(out, b"as needed", log, c);
    tried(out, b"RAM a byte short", log, Call { ram: 65535, ..c });
    tried(out, b"RAM a byte long", log, Call { ram: 65537, ..c });
}

// 10: each of the others a byte short and a byte long.
fn lengths(out: &impl Print, of_new: bool, log: &[u8]) {
    let c = lend(of_new, 12, 108, 2);
    tried(out, b"PCM a byte short", log, Call { pcm: 11, ..c });
    tried(out, b"PCM a byte long", log, Call { pcm: 13, ..c });
    tried(out, b"sheet a byte short", log, Call { sheet: 107, ..c });
    tried(out, b"sheet a byte long", log, Call { sheet: 109, ..c });
    tried(
        out,
        b"readings a byte short",
        log,
        Call { readings: 1, ..c },
    );
    tried(out, b"readings a byte long", log, Call { readings: 3, ..c });
}

// A log without ticks and readings takes empty slices, and no others.
fn empty(out: &impl Print, of_new: bool, log: &[u8]) {
    let c = lend(of_new, 0, 0, 0);
    tried(out, b"nothing needed", log, c);
    tried(out, b"no PCM needed", log, Call { pcm: 1, ..c });
    tried(out, b"no sheet needed", log, Call { sheet: 1, ..c });
    tried(out, b"no readings needed", log, Call { readings: 1, ..c });
}

// 3, 4 and 5 come before 10.
fn marks(out: &impl Print, of_new: bool) {
    let c = lend(of_new, 1, 1, 1);
    tried(out, b"log too long", &[0; 60001], c);
    tried(out, b"unknown mark", b"XXND", c);
    tried(out, b"log stops in a mark", b"T", c);
    tried(out, b"log stops in a record", b"TK\x01", c);
}

// And so do 6 to 9. 1 comes before all.
fn records(out: &impl Print, of_new: bool) {
    let c = lend(of_new, 1, 1, 1);
    tried(out, b"register $80", b"QA\x80ND", c);
    tried(out, b"count 0", b"TK\x00\x00ND", c);
    tried(out, b"no end record", b"", c);
    tried(out, b"a byte behind the end", b"NDN", c);
    tried(
        out,
        b"RAM a byte short, unknown mark",
        b"XXND",
        Call { ram: 65535, ..c },
    );
}

// 2 comes before all but 1.
fn unfit(out: &impl Print, log: &[u8]) {
    let a = lend(false, 12, 108, 2);
    let b = lend(false, 1, 1, 1);
    let c = Call { fit: false, ..a };
    let w = Call { fit: false, ..b };
    tried(out, b"unfit", log, c);
    tried(out, b"unfit, wrong lengths", log, w);
    tried(out, b"unfit, unknown mark", b"XXND", c);
    tried(out, b"unfit, unknown mark, wrong lengths", b"XXND", w);
    tried(out, b"unfit, log too long, wrong lengths", &[0; 60001], w);
    tried(
        out,
        b"unfit, RAM a byte short",
        log,
        Call { ram: 65535, ..c },
    );
    tried(
        out,
        b"unfit, RAM a byte long, unknown mark, wrong lengths",
        b"XXND",
        Call { ram: 65537, ..w },
    );
}

fn both(out: &impl Print, of_new: bool, log: &[u8]) {
    ram_lengths(out, of_new, log);
    lengths(out, of_new, log);
    empty(out, of_new, b"ND");
    tried(out, b"a write alone", b"RWl\x00ND", lend(of_new, 0, 0, 0));
    marks(out, of_new);
    records(out, of_new);
}

// Echo on, a reading, three ticks, a reading: each byte that is lent for them has something to take.
pub fn all(out: &impl Print) {
    let log = b"RWl\x00QAlTK\x03\x00QAlND";
    both(out, false, log);
    unfit(out, log);
    both(out, true, log);
}
