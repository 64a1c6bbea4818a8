// The sizes of the weights of four taps.
ghost use Rattle.taps.specs.TapWeights.{IsSizes};

#[derive(Clone, Copy)]
pub struct Sizes {
    pub s0: u64,
    pub s1: u64,
    pub s2: u64,
    pub s3: u64,
    pub ghost is_sizes: { IsSizes s0 s1 s2 s3 },
}

impl Sizes {
    ghost use Rattle.std.specs.Prelude.{◌≡◌, ◌^◌, ◌≤◌, nat_abs};
    ghost use Rattle.taps.specs.Fields.{Pair, fields, of_fields};

    // Two sums of four samples by the sizes of their weights, 32 bits apart. To each 2^28 is added, so that neither
    // borrows from the other.
    pub fn both(self, a: u64, b: u64, c: u64, d: u64) -> u64
        requires { Pair a × Pair b × Pair c × Pair d }
        ensures { result ≡ fields self a b c d }
    {
        (1152921504875282432 + self.s1 * b + self.s2 * c) - (self.s0 * a + self.s3 * d)
    }

    // Four such sums by the sizes of their weights: two in each number. What was added to them, by weights that add up
    // to 2^19, is 2^47.
    pub fn of_fields(self, e: u64, o: u64) -> i64
        ensures { (result ≡ of_fields self e o) × (nat_abs result ≤ 2 ^ 58) }
    {
        let inner = self.s1 * (o % 4294967296) + self.s2 * (e / 4294967296);
        let outer = self.s0 * (e % 4294967296) + self.s3 * (o / 4294967296);
        inner as i64 - outer as i64 - 140737488355328
    }
}
