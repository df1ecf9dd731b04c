#![tactic(auto, unfolding(numbers::specs::Field::when, numbers::specs::Field::field))]
// The entries of a track's tables, built from its samples. These lie in a buffer as records of seven numbers
// (samples::put), and the entries are what the boxes' own writers take (stts::write, ..).
pub mod ctts;
mod pairs;
pub mod stts;
