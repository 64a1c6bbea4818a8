// Planes, faces and rows whose samples are within the greatest depth.
ghost use Rattle.std.specs.Prelude.{◌≡◌, ◌≤◌, ◌<◌, pos};
ghost use Rattle.cubemap.specs.Frames.{sample_at};
ghost use Rattle.strides.specs.FaceStrides as by;
ghost use Rattle.strides.specs.FaceStrides.{strides_in, Shallow, sample_on_face, RowOf};
ghost use Rattle.differences.specs.RowSquares.{ShallowRow};

use strides::{Face, Plane};

// A plane, with strides to its samples.
#[derive(Clone, Copy)]
pub struct ScoredPlane<'a> {
    pub plane: Plane<'a>,
    pub ghost shallow: { Shallow plane.size plane.bytes.now },
}

// A face of such a plane.
#[derive(Clone, Copy)]
pub struct ScoredFace<'a> {
    pub face: Face<'a>,
    pub ghost shallow: { Shallow face.size face.bytes.now },
}

// The bytes of a row of samples, from one end to the other.
#[derive(Clone, Copy)]
pub struct ScoredRow<'a> {
    pub size: u64,
    pub bytes: &'a [u8],
    pub ghost shallow: { ShallowRow size bytes.now },
}

impl<'a> ScoredPlane<'a> {
    // A face of it.
    pub(crate) fn face(self, face: u64) -> ScoredFace<'a>
        requires { face < 6 }
        ensures { (result.face.size ≡ self.entry.plane.size) × (result.face.bytes ≡ self.entry.plane.bytes)
            × (result.face.strides ≡ strides_in self.entry.plane.strides.now face) }
    {
        ScoredFace {
            face: self.plane.face(face),
        }
    }
}

impl<'a> ScoredFace<'a> {
    // The sample at a column and a row.
    pub(crate) fn sample(self, column: u64, row: u64) -> u64
        requires { (column < self.face.size) × (row < self.face.size) }
        ensures { (result ≡ sample_on_face self.entry.face.bytes.now self.entry.face.strides column row)
            × (result < 4096) }
    {
        self.face.sample(column, row)
    }

    // A row, where the rows run ahead along the rows of the frame, as the part of the plane that it is.
    pub(crate) fn unbroken_row(self, row: u64) -> ScoredRow<'a>
        requires { (self.face.strides.column ≡ pos 1) × (row < self.face.size) }
        ensures { (result.size ≡ self.entry.face.size)
            × RowOf self.entry.face.size self.entry.face.bytes.now self.entry.face.strides row result.bytes.now }
    {
        ScoredRow {
            size: self.face.size,
            bytes: self.face.unbroken_row(row),
        }
    }

    // The face with the columns in the other order.
    pub(crate) fn mirrored(self) -> ScoredFace<'a>
        requires { 1 ≤ self.face.size }
        ensures { (result.face.size ≡ self.entry.face.size) × (result.face.bytes ≡ self.entry.face.bytes)
            × (result.face.strides ≡ by.mirrored self.entry.face.size self.entry.face.strides) }
    {
        ScoredFace {
            face: self.face.mirrored(),
        }
    }
}

impl<'a> ScoredRow<'a> {
    // The sample at a column.
    pub(crate) fn sample(self, column: u64) -> u64
        requires { column < self.size }
        ensures { (result ≡ sample_at self.entry.bytes.now column) × (result < 4096) }
    {
        frame::sample(self.bytes, column as usize)
    }
}
