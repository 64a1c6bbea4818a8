// T of the ratios of all rays along a stretch.
ghost use Rattle.std.specs.Prelude.{◌≡◌, ◌≤◌, length};
ghost use Rattle.arithmetic.specs.ListParts.{part};
ghost use Rattle.positions.specs.RayLines.{Stretch, Positioned};

use crate::Line;
use crate::ratios::FaceRatio;
use cubemap::Format;

// A stretch by the coordinates of its columns, and one number of its rays with the distance that it is divided by.
#[derive(Clone, Copy)]
pub struct LineStretch<'a> {
    pub size: u64,
    pub line: Line,
    pub distance: Line,
    pub coordinates: &'a [i64],
    pub ghost stretch: { Stretch size line distance coordinates.now },
}

impl<'a> LineStretch<'a> {
    // Its columns from `from` on and before `to`.
    pub fn part(self, from: usize, to: usize) -> LineStretch<'a>
        requires { (from ≤ to) × (to ≤ length self.coordinates.now) }
        ensures { (result.size ≡ self.entry.size) × (result.line ≡ self.entry.line)
            × (result.distance ≡ self.entry.distance)
            × (result.coordinates.now ≡ part from to self.entry.coordinates.now) }
    {
        LineStretch {
            size: self.size,
            line: self.line,
            distance: self.distance,
            coordinates: &self.coordinates[from..to],
        }
    }

    // T + 32 of each column, by division.
    pub fn divide(self, format: Format, table: &mut [u32])
        requires { length self.coordinates.now ≤ length table.old }
        ensures { Positioned format self.entry.size self.entry.line self.entry.distance
            self.entry.coordinates.now table.new
            × (length table.new ≡ length table.old) }
    {
        for (j, &a) in self.coordinates.iter().enumerate() {
            let ratio = FaceRatio {
                size: self.size,
                x: self.line.at(a),
                d: self.distance.at(a) as u64,
            };
            table[j] = ratio.shifted(format) as u32;
        }
    }
}
