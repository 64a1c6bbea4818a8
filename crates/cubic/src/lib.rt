// The cubic value at each position of a stretch of one face. Where all sixteen taps are inside the face, four of a row
// are read at once; at the rim each tap is read by its place.
#![tactic(auto)]

ghost use Rattle.std.specs.Prelude.{◌≡◌, ◌*◌, length};
ghost use Rattle.cubemap.specs.declared.Sampler.{Sampler};
ghost use Rattle.cubemap.specs.Frames.{framed};
ghost use Rattle.cubic.specs.Stretches.{value_in};

pub use stretch::{AlongRows, Source, Stretch};

mod inside;
mod rim;
mod stretch;
mod values;

// Stores the value at each position of a stretch, one after the other: where a tap is beyond the rim, by places.
pub fn cubic_stretch(stretch: Stretch<'_>, firsts: &mut [u32; 512], target: &mut [u8])
    requires { length target.old ≡ 2 * length stretch.columns.now }
    ensures { target.new ≡ framed 2 (value_in Sampler.Cubic stretch.entry) (length stretch.entry.columns.now) }
{
    let along = stretch.along_rows();
    along.first_indices(firsts);
    let count = stretch.columns.len();
    // Each turn goes on where a run inside the face has ended, so this is no `for`.
    let mut j = along.inside_from(firsts, 0, target);
    while j < count {
        let rim = stretch.value_by_places(j);
        frame::put_sample(target, j, rim);
        j = along.inside_from(firsts, j + 1, target);
    }
}
