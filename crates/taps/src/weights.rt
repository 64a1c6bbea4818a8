// The weights of four taps. Below, u are those of the samples in a row and w those of the rows.
ghost use Rattle.taps.specs.TapWeights.{Balanced, four};

#[derive(Clone, Copy)]
pub struct Weights {
    pub w0: i64,
    pub w1: i64,
    pub w2: i64,
    pub w3: i64,
    pub ghost balanced: { Balanced (four w0 w1 w2 w3) },
}

impl Weights {
    ghost use Rattle.std.specs.Prelude.{◌≡◌, ◌<◌, pos, nat_abs};
    ghost use Rattle.taps.specs.TapWeights.{weights_of, reversed};
    ghost use Rattle.taps.specs.InOrder.{in_order};

    // The weights at a phase.
    pub fn at(phase: u64) -> Weights
        requires { phase < 64 }
        ensures { in_order result ≡ weights_of (pos phase) }
    {
        let row = crate::table::tap_weights()[phase as usize];
        Weights {
            w0: row[0],
            w1: row[1],
            w2: row[2],
            w3: row[3],
        }
    }

    // The weights from the last to the first.
    pub fn reversed(self) -> Weights
        ensures { in_order result ≡ reversed (in_order self) }
    {
        Weights {
            w0: self.w3,
            w1: self.w2,
            w2: self.w1,
            w3: self.w0,
        }
    }

    // Their sizes: the outer weights are below zero or zero, the inner ones are not below zero.
    pub fn sizes(self) -> crate::sizes::Sizes
        ensures { (result.s0 ≡ nat_abs self.w0) × (result.s1 ≡ nat_abs self.w1) × (result.s2 ≡ nat_abs self.w2)
            × (result.s3 ≡ nat_abs self.w3) }
    {
        crate::sizes::Sizes {
            s0: -self.w0 as u64,
            s1: self.w1 as u64,
            s2: self.w2 as u64,
            s3: -self.w3 as u64,
        }
    }
}
