// A file read whole, turned over by the library, and what comes of it written.
use report::input;
use report::lines::{complain, numbered, refused, say};
use report::runs::within;
use std::fs;
use std::io::Write;
use wav::{read_wav, wav_frames, write_wav};

const HEADER_SIZE: usize = 44;

// Room for the longest sound and the longest file, and a byte more of each: one that is longer is read no further, and is refused.
pub fn write(rt: &HostRuntime, from: &[u8], to: &[u8]) {
    let mut pcm = [0; 128001];
    let mut file = [0; 128045];
    write_on(rt, from, to, &mut pcm, &mut file);
}

pub fn read(rt: &HostRuntime, from: &[u8], to: &[u8]) {
    let mut pcm = [0; 128001];
    let mut file = [0; 128045];
    read_on(rt, from, to, &mut pcm, &mut file);
}

// Behind a reference an array's length is its type's, and no check has to count its bytes.
fn write_on(
    rt: &HostRuntime,
    from: &[u8],
    to: &[u8],
    pcm: &mut [u8; 128001],
    file: &mut [u8; 128045],
) {
    let Some(n) = input::file(rt, from, pcm) else {
        cannot(rt, b"read ", from);
        return;
    };
    let end = within(HEADER_SIZE + n, file);
    wrote(rt, to, &pcm[..n], &mut file[..end]);
}

fn wrote(rt: &HostRuntime, to: &[u8], pcm: &[u8], file: &mut [u8]) {
    match write_wav(pcm, file) {
        Ok(()) => saved(rt, to, file, (pcm.len() / 4) as u64),
        Err(refusal) => told(
            rt,
            refused(rt, refusal)
                && say(
                    rt,
                    b"The samples are not whole frames of 4 bytes, or more than 32,000.\n",
                ),
        ),
    }
}

fn read_on(
    rt: &HostRuntime,
    from: &[u8],
    to: &[u8],
    pcm: &mut [u8; 128001],
    file: &mut [u8; 128045],
) {
    let Some(n) = input::file(rt, from, file) else {
        cannot(rt, b"read ", from);
        return;
    };
    let frames = wav_frames(&file[..n]).unwrap_or(0);
    let end = within((frames as usize) * 4, pcm);
    restored(rt, to, &file[..n], &mut pcm[..end]);
}

fn restored(rt: &HostRuntime, to: &[u8], file: &[u8], pcm: &mut [u8]) {
    match read_wav(file, pcm) {
        Ok(frames) => saved(rt, to, pcm, u64::from(frames)),
        Err(refusal) => told(
            rt,
            refused(rt, refusal)
                && say(
                    rt,
                    b"The file is not of this layout: WAV, PCM, two channels, 16 bits, 32,000 frames a second, 32,000 frames at most, a header of 44 bytes and nothing behind the samples.\n",
                ),
        ),
    }
}

fn saved(rt: &HostRuntime, to: &[u8], bytes: &[u8], frames: u64) {
    if save(rt, to, bytes) {
        told(rt, numbered(rt, b"FRAMES ", frames));
    } else {
        cannot(rt, b"write ", to);
    }
}

// The library takes names in UTF-8 alone.
fn save(rt: &HostRuntime, to: &[u8], bytes: &[u8]) -> bool {
    let Ok(name) = str::from_utf8(to) else {
        return false;
    };
    match fs::create(rt, name) {
        Ok(mut out) => out.write_all(bytes).is_ok(),
        Err(_) => false,
    }
}

fn cannot(rt: &HostRuntime, what: &[u8], name: &[u8]) {
    complain(&rt.stderr(), b"wavfile: cannot ");
    complain(&rt.stderr(), what);
    complain(&rt.stderr(), name);
    complain(&rt.stderr(), b"\n");
}

// Whether all lines went out.
fn told(rt: &HostRuntime, written: bool) {
    if !written {
        complain(&rt.stderr(), b"wavfile: cannot write standard output\n");
    }
}
