#![tactic(auto)]
// The writer of tx3g, how timed text is shown (`tx3g`).
ghost use Rattle.std.specs.Prelude.{◌≡◌};
ghost use Rattle.put.specs.Put.{wrote};
ghost use Rattle.tx3g.specs.Tx3g.{tx3g_in};

use numbers::Refusal;
use tx3g::{KIND, ROW, Tx3g};

pub fn write(tx3g: Tx3g, rest: &[u8], out: &mut [u8]) -> Result<usize, Refusal>
    ensures { wrote result out.new ≡ tx3g_in tx3g rest.now out.old }
{
    let v = [
        tx3g.data_reference_index as u64,
        tx3g.display_flags as u64,
        tx3g.horizontal_justification as u64,
        tx3g.vertical_justification as u64,
        tx3g.background_red as u64,
        tx3g.background_green as u64,
        tx3g.background_blue as u64,
        tx3g.background_alpha as u64,
        tx3g.top as u64,
        tx3g.left as u64,
        tx3g.bottom as u64,
        tx3g.right as u64,
        tx3g.start_char as u64,
        tx3g.end_char as u64,
        tx3g.font_id as u64,
        tx3g.face_style_flags as u64,
        tx3g.font_size as u64,
        tx3g.text_red as u64,
        tx3g.text_green as u64,
        tx3g.text_blue as u64,
        tx3g.text_alpha as u64,
        0,
        0,
        0,
    ];
    layout_write::by(out, KIND, ROW, v, rest)
}
