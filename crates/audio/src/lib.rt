#![tactic(auto, unfolding(numbers::specs::Field::when, numbers::specs::Field::field))]
// What the codes of an audio configuration stand for. A code that stands for nothing is refused with 8, and the lent part is
// that one field, so the position is 0.
pub mod channels;
pub mod frequencies;
pub mod objects;
