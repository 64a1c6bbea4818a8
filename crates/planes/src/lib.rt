// From the plane of a source to the plane of a target. The target is written in the order of its indices, run after
// run: a run is a row of a slot. Along it the rotated ray moves by a multiple of one axis, so the matrix is applied
// twice a run and not to every ray.
#![tactic(auto)]

ghost use Rattle.std.specs.Prelude.{◌≡◌, ◌*◌, ◌≤◌, ◌<◌, T, nat_abs, length};
ghost use Rattle.cubemap.specs.Frames.{plane_samples, framed};
ghost use Rattle.cubemap.specs.Checks.{rotation_in_range};
ghost use Rattle.planes.specs.TargetPlane.{run_start, run_slope, evenly_spaced, run_rays, TargetReady, value_at_index};

use cubemap::{Format, Layout, Ray, Rotation};
use resampling::{Reading, Row, RowRays};
use slot::Slot;
use stretches::Tables;

mod slot;

// What a conversion writes: the face size and the format of the target's cube, and its layout.
#[derive(Clone, Copy)]
pub struct Target {
    pub size: u64,
    pub format: Format,
    pub layout: Layout,
}

// What a conversion goes by.
#[derive(Clone, Copy)]
pub struct Conversion<'a> {
    pub source: Reading<'a>,
    pub target: Target,
    pub rotation: Rotation,
}

// Are the columns of a target in this format evenly spaced? Those of adjusted faces are not.
fn evenly(format: Format) -> bool
    ensures { result ≡ evenly_spaced format }
{
    match format {
        Format::Cmp => true,
        Format::Acp => false,
    }
}

impl<'a> Conversion<'a> {
    // Where a run starts: its rotated ray at a column whose coordinate is 0. v is the coordinate of its row in the
    // slot.
    fn run_start(self, slot: Slot, v: i64) -> Ray
        requires { T (rotation_in_range self.rotation) × (self.target.size ≤ 512) × (nat_abs v ≤ 65536) }
        ensures { result ≡ run_start self.entry.rotation self.entry.target slot.face slot.turns v }
    {
        let s = geometry::scale(self.target.format, self.target.size) as i64;
        rotation::rotate(self.rotation, slot.ray(s, 0, v))
    }

    // How far its rotated ray moves for each unit of the columns' coordinate.
    fn run_slope(self, slot: Slot) -> Ray
        requires { T (rotation_in_range self.rotation) }
        ensures { result ≡ run_slope self.entry.rotation slot.face slot.turns }
    {
        rotation::rotate(self.rotation, slot.ray(0, 1, 0))
    }

    // Run number `run` of the target, in the order of indices: three runs a row of the frame.
    fn run_row(self, coordinates: &'a [i64], run: u64) -> Row<'a>
        requires { TargetReady self coordinates.now × (run < 6 * self.target.size) }
        ensures { (result.reading ≡ self.entry.source) × (result.coordinates ≡ coordinates.entry)
            × (result.rays ≡ run_rays self.entry coordinates.now run) }
    {
        let size = self.target.size;
        let frame_row = run / 3;
        let number = frame_row / size * 3 + run % 3;
        let slot = Slot {
            face: frame::face_in(self.target.layout, number),
            turns: frame::turns_in(self.target.layout, number),
        };
        let v = coordinates[(frame_row % size) as usize];
        let rays = RowRays {
            start: self.run_start(slot, v),
            slope: self.run_slope(slot),
            evenly: evenly(self.target.format),
        };
        Row {
            reading: self.source,
            rays,
            coordinates,
        }
    }
}

// The whole plane of the target, run by run.
pub fn convert_plane(c: Conversion<'_>, coordinates: &[i64], target: &mut [u8])
    requires { TargetReady c coordinates.now × (length target.old ≡ 2 * plane_samples c.target.size) }
    ensures { target.new ≡ framed 2 (value_at_index c.entry) (plane_samples c.entry.target.size) }
{
    let size = c.target.size;
    let mut tables = Tables::new();
    for run in 0..6 * size {
        let first = 2 * (run * size) as usize;
        let last = first + 2 * size as usize;
        resampling::convert_along(
            c.run_row(coordinates, run),
            &mut tables,
            &mut target[first..last],
        );
    }
}
