// Sixteen taps inside a face whose rows run along the rows of the frame: four of a row lie side by side.
ghost use Rattle.std.specs.Prelude.{◌≡◌, cond, ◌+◌, ◌*◌, ◌^◌, ◌≤◌, ◌<◌, pos, nat_abs, ◌+ℤ◌, ◌*ℤ◌, length};
ghost use Rattle.arithmetic.specs.Integers.{natural};
ghost use Rattle.cubemap.specs.Frames.{sample_at};
ghost use Rattle.cubemap.specs.Samplers as paper;
ghost use Rattle.strides.specs.FaceStrides.{Contiguous};
ghost use Rattle.taps.specs.TapWeights.{weights_of, grid_sum};
ghost use Rattle.taps.specs.TapWeights as by;
ghost use Rattle.taps.specs.InOrder.{in_order};
ghost use Rattle.cubic.specs.PositionTables.{position_of, Reached, Filled};
ghost use Rattle.cubic.specs.InsideTaps.{in_face, ahead, first_of, first_index, RowsIn};
ghost use Rattle.cubic.specs.InsideTaps.{inside_value, StoredInside};

use crate::AlongRows;
use strides::Strides;
use taps::Weights;

// The table of first indices has 2^32 − 1, which is none, where a tap is beyond the face. The table is lent, of 32-bit
// numbers: an Option for each entry would take twice its memory, and four could not be found at once.
const NONE: u32 = 4294967295;

// Are four columns, or rows, from this one on inside the face?
fn in_face(size: u64, first: i32) -> bool
    requires { (size ≤ 512) × (nat_abs first ≤ 515) }
    ensures { result ≡ in_face size first }
{
    (0 <= first) & (first + 3 < size as i32)
}

// Of four columns from m on, the one whose sample comes first in a row of the frame.
fn first_in_row(on: Strides, m: u32) -> u32
    requires { Contiguous on × (m < 512) }
    ensures { result ≡ first_of on m }
{
    if on.column == 1 { m } else { m + 3 }
}

// The weights of four taps of a row, in the order of their samples in the row of the frame.
fn weights_in_row(on: Strides, n: u32) -> Weights
    requires { Contiguous on }
    ensures { in_order result ≡ cond (ahead on) (weights_of (paper.phase (position_of n)))
        (by.reversed (weights_of (paper.phase (position_of n)))) }
{
    let w = crate::values::weights_at(n);
    if on.column == 1 { w } else { w.reversed() }
}

// Four rows of four samples side by side, the first from the index `first` on, each a stride from the one before.
fn sum_of_rows(plane: &[u8], first: i64, stride: i64, u: Weights, w: Weights) -> i64
    requires { (nat_abs first ≤ 2 ^ 21) × (nat_abs stride ≤ 1536) × RowsIn plane.now first stride }
    ensures { (result ≡ grid_sum (in_order w) (in_order u) (λ j i. sample_at plane.now
        (natural (first +ℤ pos j *ℤ stride) + i))) × (nat_abs result ≤ 2 ^ 58) }
{
    let a = taps::four(plane, first as usize);
    let b = taps::four(plane, (first + stride) as usize);
    let c = taps::four(plane, (first + 2 * stride) as usize);
    let d = taps::four(plane, (first + 3 * stride) as usize);
    taps::sixteen(w, u, a, b, c, d)
}

impl AlongRows<'_> {
    // The index of the first sample of sixteen taps, or none. Nothing is read, so that four are found at once.
    fn first_index(self, column: u32, row: u32) -> u32
        requires { Reached self.face.size column × Reached self.face.size row }
        ensures { result ≡ first_index self.entry.face.size self.entry.face.strides column row }
    {
        let size = self.face.size;
        let on = self.face.strides;
        let m = crate::values::first_tap(column);
        let n = crate::values::first_tap(row);
        if in_face(size, m) & in_face(size, n) {
            on.index_in_row(first_in_row(on, m as u32), n as u32)
        } else {
            NONE
        }
    }

    // Stores those of all positions.
    pub(crate) fn first_indices(self, firsts: &mut [u32; 512])
        ensures { Filled (first_index self.entry.face.size self.entry.face.strides)
            self.entry.columns.now self.entry.rows.now (length self.entry.columns.now) firsts.new }
    {
        self.store_each(|column, row| self.first_index(column, row), firsts);
    }

    // The value at a position whose taps are all inside the face, from the index of the first.
    fn value_inside(self, first: u32, column: u32, row: u32) -> u64
        requires { (first ≡ first_index self.face.size self.face.strides column row) × (first ≡ 4294967295 → ⊥) }
        ensures { (result ≡ inside_value self.entry.face.bytes.now self.entry.face.strides self.entry.depth column row)
            × (result < 65536) }
    {
        let on = self.face.strides;
        let u = weights_in_row(on, column);
        let w = crate::values::weights_at(row);
        crate::values::value_of(
            self.depth,
            sum_of_rows(self.face.bytes, first as i64, on.row, u, w),
        )
    }

    // Stores the values at the positions from number `from` on, each at its number, as long as all taps are inside the
    // face. Gives the number where that ends.
    pub(crate) fn inside_from(self, firsts: &[u32; 512], from: usize, target: &mut [u8]) -> usize
        requires firsts_filled { Filled (first_index self.face.size self.face.strides) self.columns.now self.rows.now
            (length self.columns.now) firsts.now }
        requires from_in_bounds { (from ≤ length self.columns.now)
            × (length target.old ≡ 2 * length self.columns.now) }
        ensures { StoredInside self.entry.face.size self.entry.depth self.entry.face.bytes.now self.entry.face.strides
            self.entry.columns.now self.entry.rows.now from result target.old target.new }
    {
        let count = self.columns.len();
        for j in from..count {
            let first = firsts[j];
            if first == NONE {
                return j;
            }
            let value = self.value_inside(first, self.columns[j], self.rows[j]);
            frame::put_sample(target, j, value);
        }
        count
    }
}
