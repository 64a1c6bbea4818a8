// Equation 14 within 64 bits.
ghost use Rattle.std.specs.Prelude.{◌≡◌, ℕ, ◌≤◌, ◌<◌};
ghost use Rattle.reciprocals.specs.Reciprocals.{Reciprocal};
ghost use Rattle.adjusted.specs.Bends.{PartNear, BendOf};

// The numbers of equation 14 on faces of one size, on a scale of 2^48 for each 64th of a sample. A bend of 32 bits is
// multiplied faster.
#[derive(Clone, Copy)]
pub struct Bend {
    pub size: u64,
    pub slope: u64,
    pub bend: u32,
    pub slack: u64,
    pub middle: u64,
    pub ghost size_most: { size ≤ 512 },
    pub ghost of_size: { BendOf size slope bend slack middle },
}

impl Bend {
    // Those of faces of one size. The slope is rounded down and the bend up.
    pub fn of(size: u64) -> Bend
        requires { size ≤ 512 }
        ensures { result.size ≡ size }
    {
        let slope = 142606336 * size / 25;
        Bend {
            size,
            slope,
            bend: ((75497472 * size + 24) / 25) as u32,
            slack: 5368709120 + (slope + 1) * 9,
            middle: (64 * size + 1) * 140737488355328,
        }
    }

    // What equation 14 adds to the middle of a face at x = k, or takes from it at x = −k: slope·t − bend·t² / 2^32,
    // where t / 2^31 is nearly k / d. It may be 2^31 too large. The remainders change nothing; they tell the compiler
    // that the factors have 32 bits.
    pub fn part(self, shift: u64, k: u64, reciprocal: u32) -> u64
        requires { (shift ≤ 31) × (k < 4294967296) }
        ensures { (result < 9223372036854775808)
            × ((d : ℕ) → k ≤ d → 0 < d → Reciprocal shift d reciprocal → PartNear self.size k d result) }
    {
        let t = ((k * reciprocal as u64) >> shift) % 2147483648;
        let f = (self.slope - ((self.bend as u64 * t) >> 32)) % 4294967296;
        t * f
    }
}
