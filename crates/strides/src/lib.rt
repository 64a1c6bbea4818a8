// Where places stand in a frame: the index of a place, by the base and the two strides of its face.
#![tactic(auto)]

ghost use Rattle.std.specs.Prelude.{◌≡◌, ◌≤◌, ◌<◌, T};
ghost use Rattle.arithmetic.specs.Integers.{natural};
ghost use Rattle.cubemap.specs.Frames.{place, IsPlace, plane_samples};
ghost use Rattle.cubemap.specs.Frames.{layout_bytes, spot, quarter_turns, index_in_slot};
ghost use Rattle.cubemap.specs.Frames as paper;
ghost use Rattle.cubemap.specs.Checks.{layout_ok};
ghost use Rattle.strides.specs.FaceStrides as by;
ghost use Rattle.strides.specs.FaceStrides.{index_by, Contiguous, StridesTo, Askable, FaceLeads};
ghost use Rattle.strides.specs.FaceStrides.{LeadsTo, StrideTable, Aligned};

use cubemap::{Layout, Place};
pub use faces::{Face, Plane};

mod faces;

// ---- the index of a place

// The base and the two strides of a face: its sample at column m and row n has the index
// base + m·column + n·row.
#[derive(Clone, Copy)]
pub struct Strides {
    pub base: i64,
    pub column: i64,
    pub row: i64,
}

impl Strides {
    // The strides with columns and rows exchanged.
    pub fn exchanged(self) -> Strides
        ensures { result ≡ by.exchanged self }
    {
        Strides {
            base: self.base,
            column: self.row,
            row: self.column,
        }
    }

    // The strides with the columns in the other order.
    pub fn mirrored(self, size: u64) -> Strides
        requires { (1 ≤ size) × (size ≤ 512) × FaceLeads size self }
        ensures { result ≡ by.mirrored size self }
    {
        let last = (size - 1) as i64;
        Strides {
            base: self.base + last * self.column,
            column: -self.column,
            row: self.row,
        }
    }

    // Does a row of the face run along a row of the frame, ahead or back?
    pub fn runs_along(self) -> bool
        ensures { result ≡ by.runs_along self }
    {
        self.column.unsigned_abs() == 1
    }

    // The strides, with columns and rows exchanged where a row by the guide's strides runs down the frame.
    fn along(self, guide: Strides) -> Strides
        ensures { result ≡ by.along guide self }
    {
        if guide.runs_along() {
            self
        } else {
            self.exchanged()
        }
    }

    // The strides, with the columns in the other order where a row by the guide's strides runs back.
    fn ahead(self, size: u64, guide: Strides) -> Strides
        requires { (1 ≤ size) × (size ≤ 512) × FaceLeads size self }
        ensures { result ≡ by.ahead size guide self }
    {
        if 0 < guide.column {
            self
        } else {
            self.mirrored(size)
        }
    }

    // The strides, aligned with those of a guide: a row by the guide's own strides then runs ahead along a row of the
    // frame.
    fn aligned(self, size: u64, guide: Strides) -> Strides
        requires { (1 ≤ size) × (size ≤ 512) × FaceLeads size self }
        ensures { result ≡ by.aligned size guide self }
    {
        self.along(guide).ahead(size, guide.along(guide))
    }

    // The index at a column and a row.
    pub fn index_at(self, column: u64, row: u64) -> u64
        requires { Askable self column row }
        ensures { result ≡ natural (index_by self column row) }
    {
        (self.base + column as i64 * self.column + row as i64 * self.row) as u64
    }

    // The same in 32 bits, for a face whose rows run along the rows of the frame: a column stride of 1 or −1 takes no
    // multiplication.
    pub fn index_in_row(self, column: u32, row: u32) -> u32
        requires { Askable self column row × Contiguous self }
        ensures { result ≡ natural (index_by self column row) }
    {
        let base = self.base as i32;
        let row_stride = self.row as i32;
        let m = column as i32;
        let n = row as i32;
        if self.column == 1 {
            (base + m + n * row_stride) as u32
        } else {
            (base - m + n * row_stride) as u32
        }
    }
}

// What a table holds before the strides of its faces are found.
const NOWHERE: Strides = Strides {
    base: 0,
    column: 0,
    row: 0,
};

// The strides of the face in a slot.
fn strides_in_slot(size: u64, slot: u64, turns: u64) -> Strides
    requires { (1 ≤ size) × (size ≤ 512) × (slot < 6) × (turns < 4) }
    ensures { StridesTo size result (λ m n. index_in_slot size slot (quarter_turns size turns (spot m n))) }
{
    let width = 3 * size;
    let last = size - 1;
    let corner = slot / 3 * size * width + slot % 3 * size;
    let along = width as i64;
    match turns {
        0 => Strides {
            base: corner as i64,
            column: 1,
            row: along,
        },
        1 => Strides {
            base: (corner + last) as i64,
            column: along,
            row: -1,
        },
        2 => Strides {
            base: (corner + last * width + last) as i64,
            column: -1,
            row: -along,
        },
        _ => Strides {
            base: (corner + last * width) as i64,
            column: -along,
            row: 1,
        },
    }
}

// The strides of a face in a layout.
fn strides_of(size: u64, layout: Layout, face: u64) -> Strides
    requires { (1 ≤ size) × (size ≤ 512) × T (layout_ok (layout_bytes layout)) × (face < 6) }
    ensures { StridesTo size result (λ m n. paper.index size (layout_bytes layout) (place face m n)) }
{
    match frame::slot_of(layout, face) {
        Some(slot) => strides_in_slot(size, slot, frame::turns_in(layout, slot)),
        None => unreachable!(),
    }
}

// The strides of the six faces.
pub fn face_strides(size: u64, layout: Layout) -> [Strides; 6]
    requires { (1 ≤ size) × (size ≤ 512) × T (layout_ok (layout_bytes layout)) }
    ensures { LeadsTo size (layout_bytes layout) result }
{
    let mut table = [NOWHERE; 6];
    for face in 0..6 {
        table[face] = strides_of(size, layout, face as u64);
    }
    table
}

// The strides of the six faces, each aligned with those of a guide.
pub fn aligned_strides(size: u64, guide: &[Strides; 6], table: &[Strides; 6]) -> [Strides; 6]
    requires { (1 ≤ size) × (size ≤ 512) × StrideTable size table.now }
    ensures { Aligned size guide.now table.now result }
{
    let mut lined = [NOWHERE; 6];
    for face in 0..6 {
        lined[face] = table[face].aligned(size, guide[face]);
    }
    lined
}

// The index of a place.
pub fn index(size: u64, layout: Layout, place: Place) -> u64
    requires { (size ≤ 512) × T (layout_ok (layout_bytes layout)) × IsPlace size place }
    ensures { (result ≡ paper.index size (layout_bytes layout) place) × (result < plane_samples size) }
{
    strides_of(size, layout, place.face).index_at(place.column, place.row)
}
