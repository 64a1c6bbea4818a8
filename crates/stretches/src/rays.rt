// The rays of a stretch.
ghost use Rattle.std.specs.Prelude.{◌≡◌, true, ◌<◌, length};
ghost use Rattle.positions.specs.RayLines.{Stretch};
ghost use Rattle.stretches.specs.Numbers.{Evenly};

use cubemap::Format;
use positions::{FaceLines, LineStretch};

// The rays of a stretch on one face, by the coordinates of its columns. `evenly` tells whether these are evenly spaced.
#[derive(Clone, Copy)]
pub struct RayStretch<'a> {
    pub format: Format,
    pub evenly: bool,
    pub size: u64,
    pub lines: FaceLines,
    pub coordinates: &'a [i64],
    pub ghost across_stretch: { Stretch size lines.across lines.distance coordinates.now },
    pub ghost down_stretch: { Stretch size lines.down lines.distance coordinates.now },
    pub ghost not_empty: { 0 < length coordinates.now },
    pub ghost evenly_spaced: { evenly ≡ true → Evenly coordinates.now },
}

impl<'a> RayStretch<'a> {
    // The numbers across the face, which lead to columns.
    pub(crate) fn across(self) -> LineStretch<'a>
        ensures { (result.size ≡ self.entry.size) × (result.line ≡ self.entry.lines.across)
            × (result.distance ≡ self.entry.lines.distance)
            × (result.coordinates.now ≡ self.entry.coordinates.now) }
    {
        LineStretch {
            size: self.size,
            line: self.lines.across,
            distance: self.lines.distance,
            coordinates: self.coordinates,
        }
    }

    // The numbers down the face, which lead to rows.
    pub(crate) fn down(self) -> LineStretch<'a>
        ensures { (result.size ≡ self.entry.size) × (result.line ≡ self.entry.lines.down)
            × (result.distance ≡ self.entry.lines.distance)
            × (result.coordinates.now ≡ self.entry.coordinates.now) }
    {
        LineStretch {
            size: self.size,
            line: self.lines.down,
            distance: self.lines.distance,
            coordinates: self.coordinates,
        }
    }
}
