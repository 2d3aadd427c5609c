// Rework: of two sittings that differ in named voices, the second made from the first (document 01, "Rework").
#![tactic(auto)]

mod ending;
mod joining;
mod likeness;
mod modes;
mod reworking;
mod sets;

pub use reworking::{Reworked, rework, rework_new};
