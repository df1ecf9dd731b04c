#![tactic(auto, unfolding(numbers::specs::Field::when, numbers::specs::Field::field))]
// What every box begins with: its header, and of a full box its version and flags.
pub mod full;
pub mod header;
