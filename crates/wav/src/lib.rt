// Sound files of a sitting (document 02, W-201): a writer, and a reader for just its layout. A refused call writes nothing.
#![tactic(auto)]

ghost use Rattle.std.specs.Prelude.{◌≡◌, ◌-◌, ◌≤◌, length};
ghost use borrow.Rule.Slice.PartMut.{put_mid};
ghost use Rattle.refusal.specs.Refusal.{code};
ghost use Rattle.wav.specs.Wav.{in_bytes, header_of, is_sound, same_bytes, Filed, filed_of, frames_as, frames_of, Restored, read_of};

use numbers::copy;
use refusal::Refusal;

const HEADER_SIZE: usize = 44;

const FRAMES_MOST: usize = 32000;

const FORMAT_SIZE: u32 = 16;

const PCM: u16 = 1;

const CHANNELS: u16 = 2;

const FRAMES_A_SECOND: u32 = 32000;

const BITS_A_SAMPLE: u16 = 16;

// A sample of each channel.
const BYTES_A_FRAME: u16 = CHANNELS * BITS_A_SAMPLE / 8;

fn put(header: &mut [u8; HEADER_SIZE], at: usize, bytes: &[u8])
    requires { (at ≤ 44) × (length bytes.now ≤ 44 - at) }
    ensures { header.new ≡ put_mid at (length bytes.now) header.old bytes.now }
{
    header[at..at + bytes.len()].copy_from_slice(bytes);
}

// A number in four bytes, low byte first.
#[tactic(auto, using(crate::proofs::Numbers::four_bytes))]
fn in_four(x: u32) -> [u8; 4]
    ensures { result ≡ in_bytes 4 x }
{
    x.to_le_bytes()
}

// "Every header field follows from the frame count."
fn header_of(frames: u32) -> [u8; HEADER_SIZE]
    requires { frames ≤ 32000 }
    ensures { result ≡ header_of frames }
{
    let bytes_a_frame = BYTES_A_FRAME as u32;
    let data_size = frames * bytes_a_frame;
    let mut header = [0; HEADER_SIZE];
    put(&mut header, 0, b"RIFF");
    put(&mut header, 4, &in_four(36 + data_size));
    put(&mut header, 8, b"WAVE");
    put(&mut header, 12, b"fmt ");
    put(&mut header, 16, &in_four(FORMAT_SIZE));
    put(&mut header, 20, &PCM.to_le_bytes());
    put(&mut header, 22, &CHANNELS.to_le_bytes());
    put(&mut header, 24, &in_four(FRAMES_A_SECOND));
    put(&mut header, 28, &in_four(FRAMES_A_SECOND * bytes_a_frame));
    put(&mut header, 32, &BYTES_A_FRAME.to_le_bytes());
    put(&mut header, 34, &BITS_A_SAMPLE.to_le_bytes());
    put(&mut header, 36, b"data");
    put(&mut header, 40, &in_four(data_size));
    header
}

// Whether so many bytes are whole frames, and not too many.
fn is_sound(size: usize) -> bool
    ensures { result ≡ is_sound size }
{
    (size % 4 == 0) & (size / 4 <= FRAMES_MOST)
}

// Refuses samples that are not whole frames or too many, and a file of another length than theirs.
pub fn write_wav(pcm: &[u8], file: &mut [u8]) -> Result<(), Refusal>
    ensures { ◌≡◌ {A = Filed} (record { refusal = code result; file = file.new }) (filed_of pcm.now file.old) }
{
    let size = pcm.len();
    if !is_sound(size) {
        return Err(Refusal::WrongRoom);
    }
    if file.len() != HEADER_SIZE + size {
        return Err(Refusal::WrongRoom);
    }
    let header = header_of((size / 4) as u32);
    copy(&header, &mut file[..HEADER_SIZE]);
    copy(pcm, &mut file[HEADER_SIZE..]);
    Ok(())
}

// Whether a file begins with this header.
fn same(front: &[u8], header: &[u8; HEADER_SIZE]) -> bool
    requires { length front.now ≡ 44 }
    ensures { result ≡ same_bytes front.now header.now }
{
    for at in 0..HEADER_SIZE {
        if front[at] != header[at] {
            return false;
        }
    }
    true
}

// How many frames a file has, so that a caller knows what to lend; refuses one not of this layout.
pub fn wav_frames(file: &[u8]) -> Result<u32, Refusal>
    ensures { frames_as result ≡ frames_of file.now }
{
    if file.len() < HEADER_SIZE {
        return Err(Refusal::NotWav);
    }
    let size = file.len() - HEADER_SIZE;
    if !is_sound(size) {
        return Err(Refusal::NotWav);
    }
    let frames = (size / 4) as u32;
    let header = header_of(frames);
    if !same(&file[..HEADER_SIZE], &header) {
        return Err(Refusal::NotWav);
    }
    Ok(frames)
}

// Refuses a file not of this layout, then a destination that is not 4 bytes a frame.
pub fn read_wav(file: &[u8], pcm: &mut [u8]) -> Result<u32, Refusal>
    ensures { ◌≡◌ {A = Restored} (record { frames = frames_as result; pcm = pcm.new }) (read_of file.now pcm.old) }
{
    let frames = wav_frames(file)?;
    if pcm.len() != 4 * (frames as usize) {
        return Err(Refusal::WrongRoom);
    }
    copy(&file[HEADER_SIZE..], pcm);
    Ok(frames)
}
