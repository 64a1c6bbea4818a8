// The test of a weight, and the largest whole number that passes it.
ghost use Rattle.std.specs.Prelude.{◌≡◌, ◌+◌, ◌/◌, ◌≤◌};
ghost use Rattle.weights.specs.TestNumbers.{left_side, passing, Bounds};

// A test in numbers that fit 64 bits: W passes where W²·(high·2^30 + low) ≤ 2^30·limit. (2^30 is 1,073,741,824.)
#[derive(Clone, Copy)]
pub struct WeightTest {
    pub high: u64,
    pub low: u64,
    pub limit: u64,
    pub ghost bounds: { Bounds high low limit },
}

impl WeightTest {
    ghost use Rattle.weights.specs.WeightTests.{IsMost};

    // W²·K³, divided by 2^30 and rounded up.
    fn left_side(self, w: u64) -> u64
        requires { w ≤ 65538 }
        ensures { result ≡ (left_side self.high self.low w + 1073741823) / 1073741824 }
    {
        let square = w * w;
        square * self.high + (square * self.low + 1073741823) / 1073741824
    }

    // Does W pass? Both sides are divided by 2^30: the left one, rounded up, is at most the limit exactly where W
    // passes.
    fn passes(self, w: u64) -> bool
        requires { w ≤ 65538 }
        ensures { result ≡ passing self.high self.low self.limit w }
    {
        self.left_side(w) <= self.limit
    }

    // The largest W that passes: those up to it do.
    fn most(self) -> u64
        ensures { IsMost self result }
    {
        arithmetic::last_passing(65537, |w| self.passes(w))
    }

    // The largest W that passes, whatever the guess; at once where the guess is it.
    pub fn most_near(self, guess: u64) -> u64
        requires { guess ≤ 65536 }
        ensures { IsMost self result }
    {
        if self.passes(guess) && !self.passes(guess + 1) {
            return guess;
        }
        self.most()
    }

    // A guess, as 65,536 times a weight with its fraction, from the weight W itself: how far the limit is beyond W²·K³,
    // as a part of the way to (W + 1)²·K³. (2^46 is 70,368,744,177,664.)
    pub fn guess_at(self, w: u64) -> u64
        requires { w ≤ 65536 }
    {
        let beyond = self.limit.saturating_sub(self.left_side(w));
        65536 * w + beyond % 70368744177664 * 65536 / ((2 * w + 1) * self.high + 1)
    }
}
