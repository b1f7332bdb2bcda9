// Bare selection: the best set of the free slots that the caller names, or the reason for a no.
#![tactic(auto)]

ghost use Rattle.rules.specs.Promises.{Selects};

use rules::{Grant, Refusal, Wheel, Words};

// The best set of free slots that delivers the words with no gap above the limit. The refusals stand
// in their order: 1, 15, 11, 12, 13, 14. All free slots together deliver the most words and have the
// smallest gaps, so that 13 and 14 are asked of them.
#[tactic(auto, using(crate::specs::Verdicts::verdicts), unfolding(rules::specs::Promises::Selects))]
pub fn select(w: Wheel, free: u64, words: Words, limit: u16) -> Result<Grant, Refusal>
    ensures { Selects w free words.0 limit result }
{
    if !measure::legal(w) {
        return Err(Refusal::BadWheel);
    }
    if !measure::below(free, w.n) {
        return Err(Refusal::SlotBeyond);
    }
    if words.0 == 0 {
        return Err(Refusal::NoWords);
    }
    if limit == 0 {
        return Err(Refusal::NoTime);
    }
    if measure::words(w, free).0 < words.0 {
        return Err(Refusal::TooMuch);
    }
    if usize::from(limit) < measure::largest_gap(w, free) {
        return Err(Refusal::TooFar);
    }
    Ok(engine::best(w, free, words, limit))
}
