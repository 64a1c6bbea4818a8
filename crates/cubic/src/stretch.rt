// A stretch: positions on one face of a plane, and what is read there.
ghost use Rattle.std.specs.Prelude.{ℕ, ◌≤◌, ◌<◌, T, length, get_or};
ghost use Rattle.cubemap.specs.Checks.{depth_ok};
ghost use Rattle.strides.specs.FaceStrides.{Contiguous, Shallow};
ghost use Rattle.cubic.specs.PositionTables.{Positions};

use strides::{Face, Plane};

// What is read: a plane whose samples are within the greatest depth, and the depth of the values.
#[derive(Clone, Copy)]
pub struct Source<'a> {
    pub plane: Plane<'a>,
    pub depth: u64,
    pub ghost shallow: { Shallow plane.size plane.bytes.now },
    pub ghost depth_known: { T (depth_ok depth) },
}

// Positions on one face, as numbers in tables of their columns and rows.
#[derive(Clone, Copy)]
pub struct Stretch<'a> {
    pub source: Source<'a>,
    pub face: u64,
    pub columns: &'a [u32],
    pub rows: &'a [u32],
    pub ghost face_known: { face < 6 },
    pub ghost positions: { Positions source.plane.size columns.now rows.now },
}

// Positions on a face whose rows run along the rows of the frame, by the strides of that face alone.
#[derive(Clone, Copy)]
pub struct AlongRows<'a> {
    pub face: Face<'a>,
    pub depth: u64,
    pub columns: &'a [u32],
    pub rows: &'a [u32],
    pub ghost not_empty: { 1 ≤ face.size },
    pub ghost contiguous: { Contiguous face.strides },
    pub ghost shallow: { Shallow face.size face.bytes.now },
    pub ghost depth_known: { T (depth_ok depth) },
    pub ghost positions: { Positions face.size columns.now rows.now },
}

impl<'a> Stretch<'a> {
    ghost use Rattle.cubic.specs.Stretches.{IsAlong};

    // The same positions along the rows of the frame: where the columns of the face run along them, columns and rows
    // are exchanged.
    pub fn along_rows(self) -> AlongRows<'a>
        ensures { IsAlong self.entry result }
    {
        let face = self.source.plane.face(self.face);
        let depth = self.source.depth;
        if face.strides.runs_along() {
            AlongRows {
                face,
                depth,
                columns: self.columns,
                rows: self.rows,
            }
        } else {
            AlongRows {
                face: face.exchanged(),
                depth,
                columns: self.rows,
                rows: self.columns,
            }
        }
    }
}

impl AlongRows<'_> {
    // Stores what `found` gives at each position, one after the other.
    pub fn store_each<F: Fn(u32, u32) -> u32>(self, found: F, table: &mut [u32; 512])
        requires { (j : ℕ) → j < length self.columns.now
            → F.pre found (get_or self.columns.now j 0) (get_or self.rows.now j 0) }
        ensures { (j : ℕ) → j < length self.entry.columns.now
            → F.post found (get_or self.entry.columns.now j 0) (get_or self.entry.rows.now j 0) (get_or table.new j 0) }
    {
        for j in 0..self.columns.len() {
            table[j] = found(self.columns[j], self.rows[j]);
        }
    }
}
