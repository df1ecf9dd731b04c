#![tactic(auto, unfolding(numbers::specs::Field::when, numbers::specs::Field::field))]
// No code: the theorem of the builder, that the tables written from samples, read back, list just these samples.
