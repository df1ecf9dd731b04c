#![tactic(auto, unfolding(numbers::specs::Field::when, numbers::specs::Field::field))]
// Boxes whose whole content is boxes, and where the first child of each type lies in them.
pub mod dinf;
pub mod edts;
pub mod mvex;
