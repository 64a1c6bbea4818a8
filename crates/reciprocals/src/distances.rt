// The distances of the columns of a stretch, and their reciprocals.
ghost use Rattle.std.specs.Prelude.{◌≡◌, ◌+◌, ◌≤◌, ◌<◌, length};
ghost use Rattle.arithmetic.specs.ListParts.{part};
ghost use Rattle.reciprocals.specs.Reciprocals.{Distances, Reciprocals};

// The distances of the columns of a stretch, or of a part of it. None is 0.
#[derive(Clone, Copy)]
pub struct DistanceTable<'a> {
    pub each: &'a [u32],
    pub ghost known: { Distances each.now },
}

impl<'a> DistanceTable<'a> {
    // The quotient at a column, in 32 bits.
    pub(crate) fn quotient(self, dividend: u64, j: usize) -> u64
        requires { j < length self.each.now }
        ensures { result < 4294967296 }
    {
        dividend / u64::from(self.each[j]) % 4294967296
    }

    // Nine columns from column j on.
    pub(crate) fn nine(self, j: usize) -> DistanceTable<'a>
        requires { j + 9 ≤ length self.each.now }
        ensures { length result.each.now ≡ 9 }
    {
        DistanceTable {
            each: &self.each[j..j + 9],
        }
    }
}

// The distances of the columns of a stretch, or of a part of it, and their reciprocals on a scale of 2^(31 + shift).
#[derive(Clone, Copy)]
pub struct ReciprocalTable<'a> {
    pub shift: u64,
    pub distances: &'a [u32],
    pub reciprocals: &'a [u32],
    pub ghost shift_most: { shift ≤ 31 },
    pub ghost same_length: { length reciprocals.now ≡ length distances.now },
    pub ghost known: { Distances distances.now },
    pub ghost near: { Reciprocals shift distances.now reciprocals.now },
}

impl<'a> ReciprocalTable<'a> {
    // Its columns from `from` on and before `to`.
    pub fn part(self, from: usize, to: usize) -> ReciprocalTable<'a>
        requires { (from ≤ to) × (to ≤ length self.distances.now) }
        ensures { (result.shift ≡ self.entry.shift) × (result.distances.now ≡ part from to self.entry.distances.now)
            × (result.reciprocals.now ≡ part from to self.entry.reciprocals.now) }
    {
        ReciprocalTable {
            shift: self.shift,
            distances: &self.distances[from..to],
            reciprocals: &self.reciprocals[from..to],
        }
    }
}
