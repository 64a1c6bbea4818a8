// Along a row of rays: which faces of the source they meet, where, and the sampler's values there. The row is cut into
// stretches whose rays meet one face: first their positions are found, all of them, then their samples.
#![tactic(auto)]

ghost use Rattle.std.specs.Prelude.{◌≡◌, ◌*◌, ◌≤◌, ◌<◌, nat_abs, length, take};
ghost use Rattle.cubemap.specs.Frames.{framed};
ghost use Rattle.positions.specs.RayLines.{coordinate_at};
ghost use Rattle.resampling.specs.RowOfRays.{ray_at, RaysInRange, lines_on, value_on};

use cubemap::{Format, Ray, Sampler};
use cubic::{Source, Stretch};
use positions::{FaceLines, Line};
pub use row::Row;
use stretches::Tables;

mod row;

// What is read, and how: a source, the format of its faces, and the sampler.
#[derive(Clone, Copy)]
pub struct Reading<'a> {
    pub source: Source<'a>,
    pub format: Format,
    pub sampler: Sampler,
}

// The rays along a row: start + a·slope at a column whose coordinate is a. `evenly` tells whether the columns are
// evenly spaced, which those of adjusted faces are not.
#[derive(Clone, Copy)]
pub struct RowRays {
    pub start: Ray,
    pub slope: Ray,
    pub evenly: bool,
}

impl RowRays {
    // The ray at a column whose coordinate is a.
    fn at(self, a: i64) -> Ray
        requires { RaysInRange self × (nat_abs a ≤ 65536) }
        ensures { result ≡ ray_at self a }
    {
        Ray {
            x: self.start.x + a * self.slope.x,
            y: self.start.y + a * self.slope.y,
            z: self.start.z + a * self.slope.z,
        }
    }

    // The numbers of Table 4 along the row, on one face.
    fn on_face(self, face: u64) -> FaceLines
        requires { RaysInRange self × (face < 6) }
        ensures { result ≡ lines_on self face }
    {
        let first = geometry::table4(face, self.start);
        let more = geometry::table4(face, self.slope);
        FaceLines {
            across: Line {
                start: first.across,
                slope: more.across,
            },
            down: Line {
                start: first.down,
                slope: more.down,
            },
            distance: Line {
                start: first.toward,
                slope: more.toward,
            },
        }
    }
}

// The first numbers of a table.
fn first(table: &[u32; 512], count: usize) -> &[u32]
    requires { count ≤ 512 }
    ensures { (result.now ≡ take count table.now) × (length result.now ≡ count) }
{
    &table[..count]
}

// The samples along a row, one for each column: stretch by stretch. The tables are scratch.
pub fn convert_along(row: Row<'_>, tables: &mut Tables, target: &mut [u8])
    requires { length target.old ≡ 2 * length row.coordinates.now }
    ensures { target.new ≡ framed 2
        (λ j. value_on row.entry.reading (ray_at row.entry.rays (coordinate_at row.entry.coordinates.now j)))
        (length row.entry.coordinates.now) }
{
    // A stretch ends where its face does, so this is no `for`.
    let mut from: usize = 0;
    while from < row.coordinates.len() {
        let face = row.face_at(from);
        let to = row.stretch_end(from, face);
        stretches::positions_on_face(row.between(face, from, to), tables);
        let count = to - from;
        let columns = first(&tables.columns, count);
        let rows = first(&tables.rows, count);
        let stretch = Stretch {
            source: row.reading.source,
            face,
            columns,
            rows,
        };
        sampling::sample_stretch(
            row.reading.sampler,
            stretch,
            &mut tables.distances,
            &mut target[2 * from..2 * to],
        );
        from = to;
    }
}
