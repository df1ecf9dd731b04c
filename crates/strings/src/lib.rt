#![tactic(auto, unfolding(numbers::specs::Field::when, numbers::specs::Field::field))]
// Strings that end with a 0.
ghost use Rattle.std.specs.Prelude.{◌≡◌};
ghost use Rattle.strings.specs.Text.{text_at};

// The first 0 from `at` on.
pub fn text_end(b: &[u8], at: usize) -> Option<usize>
    ensures { result ≡ text_at b.now at }
{
    let mut i = at;
    while i < b.len() {
        if b[i] == 0 {
            return Some(i);
        }
        i = i + 1;
    }
    None
}
