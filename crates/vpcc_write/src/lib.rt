#![tactic(auto, unfolding(numbers::specs::Field::when, numbers::specs::Field::field))]
// The writer of vpcC, how a VP8 or VP9 track is coded (`vpcc`).
ghost use Rattle.std.specs.Prelude.{◌≡◌};
ghost use Rattle.put.specs.Put.{wrote};
ghost use Rattle.vpcc.specs.Vpcc.{vpcc_in};

use numbers::Refusal;
use vpcc::{KIND, ROW, Vpcc};

// Unwritable where the initialization data are not as many as their size says.
pub fn write(vpcc: Vpcc, initialization: &[u8], out: &mut [u8]) -> Result<usize, Refusal>
    ensures { wrote result out.new ≡ vpcc_in vpcc initialization.now out.old }
{
    let size = vpcc.codec_initialization_data_size as u64;
    if initialization.len() as u64 != size {
        return Err(Refusal::Unwritable);
    }
    let v = [
        vpcc.version as u64,
        vpcc.flags as u64,
        vpcc.profile as u64,
        vpcc.level as u64,
        vpcc.sampling as u64,
        vpcc.colour_primaries as u64,
        vpcc.transfer_characteristics as u64,
        vpcc.matrix_coefficients as u64,
        vpcc.codec_initialization_data_size as u64,
        0,
        0,
        0,
        0,
        0,
        0,
        0,
        0,
        0,
        0,
        0,
        0,
        0,
        0,
        0,
    ];
    layout_write::by(out, KIND, ROW, v, initialization)
}
