#![tactic(auto, unfolding(numbers::specs::Field::when, numbers::specs::Field::field))]
// Packs: items one behind the other, each a length in four bytes, the highest first, and as many bytes.
ghost use Rattle.std.specs.Prelude.{◌≡◌};
ghost use Rattle.packs.specs.Packs.{item_of};

// Where an item's bytes begin, and how many they are; or that there is no length, or that the bytes are not all there.
#[derive(Clone, Copy)]
pub enum Item {
    End,
    Cut,
    Is(usize, usize),
}

// The item whose length stands at `at`.
pub fn item_at(pack: &[u8], at: usize) -> Item
    ensures { result ≡ item_of pack.now at }
{
    let Ok(n) = numbers::read::<u32>(pack, at) else {
        return Item::End;
    };
    let from = at + 4;
    let length = n as usize;
    if pack.len() - from < length {
        return Item::Cut;
    }
    Item::Is(from, length)
}
