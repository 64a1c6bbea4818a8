// The bytes of a plane with the strides that lead to its samples: of all six faces, and of one.
ghost use Rattle.std.specs.Prelude.{◌≡◌, ◌≤◌, ◌<◌, pos};
ghost use Rattle.strides.specs.FaceStrides as by;
ghost use Rattle.strides.specs.FaceStrides.{strides_in, StridedFace, StridedPlane, sample_on_face, RowOf};

use crate::Strides;

// A plane of face size `size`.
#[derive(Clone, Copy)]
pub struct Plane<'a> {
    pub size: u64,
    pub bytes: &'a [u8],
    pub strides: &'a [Strides; 6],
    pub ghost strided: { StridedPlane size bytes.now strides.now },
}

// A face of a plane.
#[derive(Clone, Copy)]
pub struct Face<'a> {
    pub size: u64,
    pub bytes: &'a [u8],
    pub strides: Strides,
    pub ghost strided: { StridedFace size bytes.now strides },
}

impl<'a> Plane<'a> {
    // A face of it.
    pub fn face(self, face: u64) -> Face<'a>
        requires { face < 6 }
        ensures { (result.size ≡ self.entry.size) × (result.bytes ≡ self.entry.bytes)
            × (result.strides ≡ strides_in self.entry.strides.now face) }
    {
        Face {
            size: self.size,
            bytes: self.bytes,
            strides: self.strides[face as usize],
        }
    }
}

impl<'a> Face<'a> {
    // The sample at a column and a row.
    pub fn sample(self, column: u64, row: u64) -> u64
        requires { (column < self.size) × (row < self.size) }
        ensures { (result ≡ sample_on_face self.entry.bytes.now self.entry.strides column row) × (result < 65536) }
    {
        frame::sample(self.bytes, self.strides.index_at(column, row) as usize)
    }

    // A row, where the rows run ahead along the rows of the frame, as the part of the plane that it is.
    pub fn unbroken_row(self, row: u64) -> &'a [u8]
        requires { (self.strides.column ≡ pos 1) × (row < self.size) }
        ensures { RowOf self.entry.size self.entry.bytes.now self.entry.strides row result.now }
    {
        let from = 2 * (self.strides.index_at(0, row) as usize);
        let to = from + 2 * (self.size as usize);
        &self.bytes[from..to]
    }

    // The face with columns and rows exchanged.
    pub fn exchanged(self) -> Face<'a>
        ensures { (result.size ≡ self.entry.size) × (result.bytes ≡ self.entry.bytes)
            × (result.strides ≡ by.exchanged self.entry.strides) }
    {
        Face {
            size: self.size,
            bytes: self.bytes,
            strides: self.strides.exchanged(),
        }
    }

    // The face with the columns in the other order.
    pub fn mirrored(self) -> Face<'a>
        requires { 1 ≤ self.size }
        ensures { (result.size ≡ self.entry.size) × (result.bytes ≡ self.entry.bytes)
            × (result.strides ≡ by.mirrored self.entry.size self.entry.strides) }
    {
        Face {
            size: self.size,
            bytes: self.bytes,
            strides: self.strides.mirrored(self.size),
        }
    }
}
