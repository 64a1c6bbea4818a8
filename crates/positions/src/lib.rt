// T of a ratio: where x / d of the way from the middle of a face to its edge lies, in 64ths of a sample, by division of
// whole numbers; of one ratio, and of those of all rays along a stretch.
#![tactic(auto)]

ghost use Rattle.std.specs.Prelude.{◌≡◌, ◌+◌, ◌*◌, ◌^◌, ◌≤◌, ◌<◌, nat_abs};
ghost use Rattle.positions.specs.RayLines.{line_at, sum_line, LineInRange};

mod ratios;
mod stretch;

pub use ratios::position;
pub use stretch::LineStretch;

// A number of the rays along a row: start + a·slope where the coordinate of the column is a.
#[derive(Clone, Copy)]
pub struct Line {
    pub start: i64,
    pub slope: i64,
}

impl Line {
    // The number where the coordinate is a.
    pub fn at(self, a: i64) -> i64
        requires { nat_abs self.start + nat_abs a * nat_abs self.slope < 2 ^ 63 }
        ensures { result ≡ line_at self a }
    {
        self.start + a * self.slope
    }

    // The sum of two lines.
    pub fn plus(self, other: Line) -> Line
        requires { LineInRange self × LineInRange other }
        ensures { result ≡ sum_line self other }
    {
        Line {
            start: self.start + other.start,
            slope: self.slope + other.slope,
        }
    }
}

// The numbers of the rays along a row on one face: across it, down it, and the distance that both are divided by.
#[derive(Clone, Copy)]
pub struct FaceLines {
    pub across: Line,
    pub down: Line,
    pub distance: Line,
}
