// The chip library: its public entries.
#![tactic(auto)]

mod adsr;
mod brr;
mod echo;
mod gauss;
mod lane;
mod mix;
mod noise;
mod play;
mod rates;
mod registers;
mod run;
mod tick;
mod voice;

pub use adsr::{Adsr, EnvelopePhase};
pub use brr::Brr;
pub use mix::Sample;
pub use registers::{Answer, Dsp};
pub use run::{Ran, play_log};
pub use sound::decode_brr_nibble;
pub use tick::{RAM_SIZE, Work};
pub use voice::Voice;
