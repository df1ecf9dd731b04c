#![tactic(auto)]
// The writer of a visual sample entry (`visual`), of any kind.
ghost use Rattle.std.specs.Prelude.{◌≡◌};
ghost use Rattle.put.specs.Put.{wrote};
ghost use Rattle.visual.specs.Visual.{visual_in};

use numbers::Refusal;
use visual::{ROW, Visual};

pub fn write(visual: Visual, kind: u32, children: &[u8], out: &mut [u8]) -> Result<usize, Refusal>
    ensures { wrote result out.new ≡ visual_in kind visual children.now out.old }
{
    let v = [
        visual.data_reference_index as u64,
        visual.width as u64,
        visual.height as u64,
        visual.horizresolution as u64,
        visual.vertresolution as u64,
        visual.frame_count as u64,
        visual.name0,
        visual.name1,
        visual.name2,
        visual.name3,
        visual.depth as u64,
        0,
        0,
        0,
        0,
        0,
        0,
        0,
        0,
        0,
        0,
        0,
        0,
        0,
    ];
    layout_write::by(out, kind, ROW, v, children)
}
