#![tactic(auto, unfolding(numbers::specs::Field::when, numbers::specs::Field::field))]
// Values of the boxes that are no plain numbers.
pub mod fixed;
pub mod letters;
