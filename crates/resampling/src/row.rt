// A row of rays: which faces of the source they meet, and where.
ghost use Rattle.resampling.specs.RowOfRays.{RowReady};

use crate::{Reading, RowRays};
use stretches::RayStretch;

// A row to be read: what is read, the rays along it, and the coordinates of its columns.
#[derive(Clone, Copy)]
pub struct Row<'a> {
    pub reading: Reading<'a>,
    pub rays: RowRays,
    pub coordinates: &'a [i64],
    pub ghost ready: { RowReady rays coordinates.now },
}

impl<'a> Row<'a> {
    ghost use Rattle.std.specs.Prelude.{◌≡◌, ◌≤◌, ◌<◌, length};
    ghost use Rattle.arithmetic.specs.ListParts.{part};
    ghost use Rattle.cubemap.specs.RayToPlace.{face_of};
    ghost use Rattle.positions.specs.RayLines.{coordinate_at};
    ghost use Rattle.resampling.specs.RowOfRays.{ray_at, OneFace, lines_on};

    // The face of the source that the ray at a column meets.
    pub(crate) fn face_at(self, column: usize) -> u64
        requires { column < length self.coordinates.now }
        ensures { result ≡ face_of (ray_at self.entry.rays (coordinate_at self.entry.coordinates.now column)) }
    {
        geometry::face_of(self.rays.at(self.coordinates[column]))
    }

    // Where a stretch ends that starts at the column `from` and stays on the face met there: at the end of the row, or
    // after half of it, or of that. The rays that meet a face have no gap, so it is enough to look at the last one.
    pub(crate) fn stretch_end(self, from: usize, face: u64) -> usize
        requires from_in_bounds { from < length self.coordinates.now }
        requires face_met { face ≡ face_of (ray_at self.rays (coordinate_at self.coordinates.now from)) }
        ensures { (from < result) × (result ≤ length self.entry.coordinates.now)
            × OneFace self.entry.rays self.entry.coordinates.now face from result }
    {
        let mut to: usize = self.coordinates.len();
        while self.face_at(to - 1) != face {
            to = from + (to - from) / 2;
        }
        to
    }

    // The rays of a stretch that meet one face.
    pub(crate) fn between(self, face: u64, from: usize, to: usize) -> RayStretch<'a>
        requires { (from < to) × (to ≤ length self.coordinates.now)
            × OneFace self.rays self.coordinates.now face from to }
        ensures { (result.format ≡ self.entry.reading.format)
            × (result.size ≡ self.entry.reading.source.plane.size)
            × (result.lines ≡ lines_on self.entry.rays face)
            × (result.coordinates.now ≡ part from to self.entry.coordinates.now) }
    {
        RayStretch {
            format: self.reading.format,
            evenly: self.rays.evenly,
            size: self.reading.source.plane.size,
            lines: self.rays.on_face(face),
            coordinates: &self.coordinates[from..to],
        }
    }
}
