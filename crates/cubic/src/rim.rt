// Each tap by its place: right at every position, and needed at the rim.
ghost use Rattle.std.specs.Prelude.{◌≡◌, ◌^◌, ◌≤◌, ◌<◌, pos, nat_abs, ◌+ℤ◌, length};
ghost use Rattle.cubemap.specs.declared.Sampler.{Sampler};
ghost use Rattle.cubemap.specs.Samplers.{tap_place};
ghost use Rattle.strides.specs.FaceStrides.{sample_by};
ghost use Rattle.taps.specs.TapWeights.{grid_sum};
ghost use Rattle.taps.specs.InOrder.{in_order};
ghost use Rattle.taps.specs.Fields.{Packed, Packed12};
ghost use Rattle.cubic.specs.Stretches.{tap_of, value_in};

use crate::Stretch;
use taps::Weights;

impl Stretch<'_> {
    // The sample that a tap reads.
    fn tap(self, column: i64, row: i64) -> u64
        ensures { (result ≡ tap_of self.entry column row) × (result < 4096) }
    {
        let size = self.source.plane.size;
        let m = crate::values::clip(size, column);
        let n = crate::values::clip(size, row);
        self.source.plane.face(self.face).sample(m, n)
    }

    // Four taps of a row.
    fn row_by_places(self, column: i64, row: i64) -> u64
        requires { nat_abs column ≤ 65536 }
        ensures { Packed result (λ i. tap_of self.entry (column +ℤ pos i) row) × Packed12 result }
    {
        let a = self.tap(column, row);
        let b = self.tap(column + 1, row);
        let c = self.tap(column + 2, row);
        let d = self.tap(column + 3, row);
        taps::pack(a, b, c, d)
    }

    // Four rows of four taps.
    fn sum_by_places(self, column: i64, row: i64, u: Weights, w: Weights) -> i64
        requires { (nat_abs column ≤ 65536) × (nat_abs row ≤ 65536) }
        ensures { (result ≡ grid_sum (in_order w) (in_order u)
            (λ j i. tap_of self.entry (column +ℤ pos i) (row +ℤ pos j)))
            × (nat_abs result ≤ 2 ^ 58) }
    {
        let a = self.row_by_places(column, row);
        let b = self.row_by_places(column, row + 1);
        let c = self.row_by_places(column, row + 2);
        let d = self.row_by_places(column, row + 3);
        taps::sixteen(w, u, a, b, c, d)
    }

    // The value at position j.
    pub(crate) fn value_by_places(self, j: usize) -> u64
        requires { j < length self.columns.now }
        ensures { (result ≡ value_in Sampler.Cubic self.entry j) × (result < 65536) }
    {
        let column = self.columns[j];
        let row = self.rows[j];
        let u = crate::values::weights_at(column);
        let w = crate::values::weights_at(row);
        let x = crate::values::first_tap(column) as i64;
        let y = crate::values::first_tap(row) as i64;
        crate::values::value_of(self.source.depth, self.sum_by_places(x, y, u, w))
    }
}
