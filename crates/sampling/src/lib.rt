// The two samplers at each position of a stretch of one face.
#![tactic(auto)]

ghost use Rattle.std.specs.Prelude.{◌≡◌, ◌*◌, length};
ghost use Rattle.cubemap.specs.Frames.{framed};
ghost use Rattle.cubic.specs.Stretches.{value_in};

use cubemap::Sampler;
use cubic::Stretch;

mod nearest;

// Stores the sampler's value at each position of a stretch. The table of indices is scratch.
pub fn sample_stretch(
    sampler: Sampler,
    stretch: Stretch<'_>,
    indices: &mut [u32; 512],
    target: &mut [u8],
)
    requires { length target.old ≡ 2 * length stretch.columns.now }
    ensures { target.new ≡ framed 2 (value_in sampler stretch.entry) (length stretch.entry.columns.now) }
{
    match sampler {
        Sampler::Nearest => nearest::nearest_stretch(stretch, indices, target),
        Sampler::Cubic => cubic::cubic_stretch(stretch, indices, target),
    }
}
