// A place by the sizes of p and q: its test, its weight, and guesses at the weight.
ghost use Rattle.std.specs.Prelude.{◌≡◌, ◌+◌, ◌*◌, ◌^◌, ◌≤◌, ◌<◌};
ghost use Rattle.cubemap.proofs.Weights.{length_squared};
ghost use Rattle.weights.specs.RowWeights.{WeightAt};
ghost use Rattle.weights.specs.WeightTests.{TestOf};

use crate::weight_test::WeightTest;
use cubemap::Format;

// The sizes of p, of a column, and of q, of a row, on faces of a size.
#[derive(Clone, Copy)]
pub struct Offsets {
    pub size: u64,
    pub p: u64,
    pub q: u64,
    pub ghost inside: { (size ≤ 512) × (p < size) × (q < size) },
}

// The third power of K = A² + p² + q², which is at most 3·512² = 786,432.
fn cube(k: u64) -> u64
    requires { k ≤ 786432 }
    ensures { (result ≡ k ^ 3) × (result ≤ 486388759756013568) }
{
    k * k * k
}

impl Offsets {
    // K = A² + p² + q².
    fn length_squared(self) -> u64
        ensures value { result ≡ length_squared self.size self.p self.q }
        ensures range { (self.size * self.size ≤ result) × (result < 3 * (self.size * self.size)) × (result ≤ 786432) }
    {
        self.size * self.size + self.p * self.p + self.q * self.q
    }

    // The test of the place, with the limit 4·A^6.
    fn test(self) -> WeightTest
        ensures { TestOf (4 * self.size ^ 6) (length_squared self.size self.p self.q) result }
    {
        let cubed = cube(self.length_squared());
        WeightTest {
            high: cubed / 1073741824,
            low: cubed % 1073741824,
            limit: 4 * cube(self.size * self.size),
        }
    }

    // The weight, whatever the guess. Both formats have the same, so the format is not asked yet.
    pub fn weight(self, format: Format, guess: u64) -> u64
        requires { guess ≤ 65536 }
        ensures { WeightAt format self.size self.p self.q result × (result ≤ 65536) }
    {
        self.test().most_near(guess)
    }

    // ---- guesses, as 65,536 times a weight with its fraction. Only the time to find a weight depends on them.

    // A guess from the one at the place in the row before: a weight goes with K^(−3/2), and for near numbers
    // (other / k)^(3/2) is very nearly (5·other − k) / (5·k − other).
    pub fn guess_from(self, q_before: u64, fine: u64) -> u64
        requires { q_before < self.size }
        ensures { result ≤ 4294967296 }
    {
        let before = Offsets {
            size: self.size,
            p: self.p,
            q: q_before,
        };
        let k = self.length_squared();
        let other = before.length_squared();
        (fine.min(4294967296) * (5 * other - k) / (5 * k - other)).min(4294967296)
    }

    // The guess, where it led to the weight; else one from the weight.
    pub fn corrected(self, guess: u64, weight: u64) -> u64
        requires { weight ≤ 65536 }
    {
        if guess / 65536 == weight {
            return guess;
        }
        self.test().guess_at(weight)
    }
}
