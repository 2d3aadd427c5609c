// The number of an answer, and the record that it hands back.
use refusal::Refused;

// "Success answers 0. A refusal answers its number".
pub fn number<T: Drop, G: Drop>(answer: &Result<T, Refused<G>>) -> u64 {
    match answer {
        Ok(_) => 0,
        Err(refused) => refused.refusal.number() as u64,
    }
}

// The record of a call that succeeds, or else "the record given".
pub fn record<T: Drop>(answer: Result<T, Refused<T>>) -> T {
    answer.unwrap_or_else(|refused| refused.given)
}
