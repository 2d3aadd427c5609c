// One file written or read: the answers, a digest of what was lent, and that it comes back. Each answers true: there was a case.
use refusal::code;
use report::digest::{EMPTY, with_bytes};
use report::lines::{digest, number, numbered, refused, say};
use report::runs::within;
use wav::{read_wav, wav_frames, write_wav};

pub fn written(out: &impl Print, pcm: &[u8], file: &mut [u8], back: &mut [u8]) -> bool {
    let answer = write_wav(pcm, file);
    match answer {
        Ok(()) => numbered(out, b"WROTE ", (pcm.len() / 4) as u64),
        Err(refusal) => refused(out, refusal),
    };
    digest(out, b"FILE ", with_bytes(EMPTY, file));
    if answer.is_ok() {
        let n = within(pcm.len(), back);
        read_back(out, pcm, file, &mut back[..n]);
    }
    true
}

pub fn read(out: &impl Print, file: &[u8], pcm: &mut [u8], back: &mut [u8]) -> bool {
    let got = read_wav(file, pcm);
    match got {
        Ok(frames) => numbered(out, b"READ ", u64::from(frames)),
        Err(refusal) => refused(out, refusal),
    };
    let found = wav_frames(file);
    say(out, b"FRAMES ");
    number(out, u64::from(code(&found)));
    numbered(out, b" ", u64::from(found.unwrap_or(0)));
    digest(out, b"PCM ", with_bytes(EMPTY, pcm));
    if got.is_ok() {
        let n = within(file.len(), back);
        write_back(out, file, pcm, &mut back[..n]);
    }
    true
}

// What was written is read, or what was read is written: it must be the same.
fn read_back(out: &impl Print, pcm: &[u8], file: &[u8], back: &mut [u8]) {
    let got = read_wav(file, back);
    compared(out, got.is_ok(), pcm, back);
}

fn write_back(out: &impl Print, file: &[u8], pcm: &[u8], back: &mut [u8]) {
    let answer = write_wav(pcm, back);
    compared(out, answer.is_ok(), file, back);
}

fn compared(out: &impl Print, taken: bool, bytes: &[u8], back: &[u8]) {
    if !taken | (bytes != back) {
        say(out, b"DIFFERS\n");
    }
}
