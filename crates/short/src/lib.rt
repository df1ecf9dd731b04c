#![tactic(auto, unfolding(numbers::specs::Field::when, numbers::specs::Field::field))]
// Rows of at most eight fields, with as many slots: the fields of most boxes. They are read and written as the whole row
// that has nothing behind them.
ghost use Rattle.std.specs.Prelude.{◌≡◌};
ghost use Rattle.layout.specs.Write.{padded};

use layout::Field;

pub mod read;
pub mod write;

// The whole row.
pub(crate) fn wide(row: [Field; 8]) -> [Field; 24]
    ensures { result ≡ padded row }
{
    [
        row[0],
        row[1],
        row[2],
        row[3],
        row[4],
        row[5],
        row[6],
        row[7],
        Field::Nothing,
        Field::Nothing,
        Field::Nothing,
        Field::Nothing,
        Field::Nothing,
        Field::Nothing,
        Field::Nothing,
        Field::Nothing,
        Field::Nothing,
        Field::Nothing,
        Field::Nothing,
        Field::Nothing,
        Field::Nothing,
        Field::Nothing,
        Field::Nothing,
        Field::Nothing,
    ]
}
