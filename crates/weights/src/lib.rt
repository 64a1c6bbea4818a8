// The weights of a row: for each column the largest whole number under equation 109.
#![tactic(auto)]

ghost use Rattle.std.specs.Prelude.{◌≡◌, ◌*◌, ◌≤◌, ◌<◌, nat_abs, get_or};
ghost use Rattle.arithmetic.specs.Sums.{sum_below};
ghost use Rattle.cubemap.specs.PlaceToRay.{from_centre};
ghost use Rattle.weights.specs.RowWeights.{Weighed, AtMost};

use crate::offsets::Offsets;
use cubemap::Format;

mod offsets;
mod weight_test;

// The size of p, of a column, or of q, of a row.
fn offset(size: u64, m: u64) -> u64
    requires { (size ≤ 512) × (m < size) }
    ensures { (result ≡ nat_abs (from_centre size m)) × (result < size) }
{
    geometry::from_centre(size, m).unsigned_abs()
}

// The weights of a row, into a table of any numbers. The guesses are those of the row before, and then of this one;
// only the time depends on them. Opposite columns weigh the same.
pub fn weigh_row(
    format: Format,
    size: u64,
    row: u64,
    weights: &mut [u64; 512],
    guesses: &mut [u64; 256],
)
    requires { (1 ≤ size) × (size ≤ 512) × (row < size) }
    ensures { Weighed format size row weights.new × AtMost size 65536 weights.new }
{
    let q = offset(size, row);
    let q_before = offset(size, row.saturating_sub(1));
    for column in 0..(size + 1) / 2 {
        let opposite = size - 1 - column;
        let p = opposite - column;
        let place = Offsets { size, p, q };
        let guess = place.guess_from(q_before, guesses[column as usize]);
        let weight = place.weight(format, guess / 65536);
        guesses[column as usize] = place.corrected(guess, weight);
        weights[column as usize] = weight;
        weights[opposite as usize] = weight;
    }
}

// A row's weights on faces of a size, and the guesses from which the next row's are found. The tables have the greatest
// length, since there is no heap; nothing is said of the entries from A on.
#[derive(Drop)]
pub struct RowWeights {
    pub size: u64,
    pub weights: [u64; 512],
    guesses: [u64; 256],
    pub ghost sized: { (1 ≤ size) × (size ≤ 512) },
    pub ghost small: { AtMost size 65536 weights },
}

impl RowWeights {
    // A table in which no row stands yet.
    pub fn new(size: u64) -> Self
        requires { (1 ≤ size) × (size ≤ 512) }
        ensures { result.size ≡ size }
    {
        RowWeights {
            size,
            weights: [0; 512],
            guesses: [0; 256],
        }
    }

    // Finds the weights of a row, by the guesses of the row that was found before it.
    pub fn weigh(&mut self, format: Format, row: u64)
        requires { row < self.old.size }
        ensures { Weighed format self.old.size row self.new.weights × (self.new.size ≡ self.old.size) }
    {
        weigh_row(format, self.size, row, &mut self.weights, &mut self.guesses);
    }

    // The sum of the row's weights.
    pub fn sum(&self) -> u64
        ensures { (result ≡ sum_below (λ m. get_or self.now.weights m 0) self.now.size) × (result ≤ 33554432) }
    {
        self.weights[..self.size as usize].iter().sum::<u64>()
    }
}
