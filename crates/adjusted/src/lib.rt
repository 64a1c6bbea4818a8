// T + 32 in ACP along a stretch of columns, without a division: from tables of the distances, of their reciprocals, and
// of the sums x + d, which T + 32 replaces.
#![tactic(auto)]

ghost use Rattle.std.specs.Prelude.{◌≡◌, true, ◌≤◌, ◌<◌, length};
ghost use Rattle.adjusted.specs.Adjusted.{Sums, Adjusted};

mod bends;
mod sides;

use bends::Bend;
use reciprocals::ReciprocalTable;
use sides::{Above, Below, Side};

// The columns of a stretch on one side of the middle. The loop has no branch, so it runs on several columns at once.
fn tell_each<S: Side>(b: Bend, divisors: ReciprocalTable<'_>, table: &mut [u32]) -> bool
    requires { (length divisors.distances.now ≡ length table.old) × Sums table.old divisors.distances.now }
    ensures { (result ≡ true → Adjusted b.size table.old divisors.entry.distances.now table.new)
        × (length table.new ≡ length table.old) }
{
    let mut brackets: u64 = 0;
    let mut sizes: u64 = 0;
    for (j, entry) in table.iter_mut().enumerate() {
        let told = S::tell(
            b,
            divisors.shift,
            *entry,
            divisors.distances[j],
            divisors.reciprocals[j],
        );
        brackets |= told.bracket;
        sizes |= told.size;
        *entry = told.entry;
    }
    (brackets < 4611686018427387904) & (sizes < 536870912)
}

// Is the x of a column below zero?
fn negative(sums: &[u32], distances: &[u32], j: usize) -> bool
    requires { (j < length sums.now) × (j < length distances.now) }
{
    sums[j] < distances[j]
}

// Where the sign of x changes along a stretch, by bisection; its end where the first and the last column have one sign.
// The cut is a guess that the flags then confirm, so an early answer is no promise.
fn cut_of(sums: &[u32], distances: &[u32]) -> usize
    requires { (0 < length sums.now) × (length sums.now ≤ 512) × (length distances.now ≡ length sums.now) }
    ensures { result ≤ length sums.now }
{
    let end = sums.len();
    let sign = negative(sums, distances, 0);
    if negative(sums, distances, end - 1) == sign {
        return end;
    }
    let like_the_first = |j| negative(sums, distances, j as usize) == sign;
    arithmetic::last_passing(end as u64, like_the_first) as usize + 1
}

// T + 32 of each column in the place of its sum, where every one is told by its bracket; where one is not, false, and
// nothing is said of the table.
pub fn adjusted_positions(size: u64, divisors: ReciprocalTable<'_>, table: &mut [u32]) -> bool
    requires { (size ≤ 512) × (length table.old ≤ 512) × (length divisors.distances.now ≡ length table.old)
        × Sums table.old divisors.distances.now }
    ensures { (result ≡ true → Adjusted size table.old divisors.entry.distances.now table.new)
        × (length table.new ≡ length table.old) }
{
    let end = table.len();
    if end == 0 {
        return true;
    }
    let b = Bend::of(size);
    let below = negative(table, divisors.distances, 0);
    let cut = cut_of(table, divisors.distances);
    let first = divisors.part(0, cut);
    let second = divisors.part(cut, end);
    let (left, right) = table.split_at_mut(cut);
    if below {
        tell_each::<Below>(b, first, left) & tell_each::<Above>(b, second, right)
    } else {
        tell_each::<Above>(b, first, left) & tell_each::<Below>(b, second, right)
    }
}
