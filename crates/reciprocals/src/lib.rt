// Reciprocals of the distances along a stretch: guessed, and confirmed in whole numbers. A guess is never relied on, so
// that nothing is proved of it.
#![tactic(auto)]

ghost use Rattle.std.specs.Prelude.{◌≡◌, true, ◌+◌, ◌*◌, ◌^◌, ◌≤◌, ◌<◌, length, IfSome};
ghost use Rattle.reciprocals.specs.Reciprocals.{Reciprocals};

mod distances;

pub use distances::{DistanceTable, ReciprocalTable};

// ---- the scale

// A scale that suits both ends of a stretch, 2^(31 + shift).
fn scale_of(distances: DistanceTable<'_>) -> u64
    requires { 0 < length distances.each.now }
    ensures { result ≤ 29 }
{
    let last = distances.each.len() - 1;
    u64::from((distances.each[0] | distances.each[last]).ilog2().min(29))
}

// The number that is divided: 2^(31 + shift) - 1.
fn dividend(shift: u64) -> u64
    requires { shift ≤ 29 }
    ensures { (result + 1 ≡ 2147483648 * 2 ^ shift) × (result < 1152921504606846976) }
{
    (2147483648 << shift) - 1
}

// ---- guesses

// Guesses by division.
fn divided(dividend: u64, distances: DistanceTable<'_>, guesses: &mut [u32])
    requires { length guesses.old ≤ length distances.each.now }
    ensures { length guesses.new ≡ length guesses.old }
{
    for (j, guess) in guesses.iter_mut().enumerate() {
        *guess = distances.quotient(dividend, j) as u32;
    }
}

// Eight guesses on the chord between two quotients. 2^35 is added to a step, which keeps it above 0; an eighth of that
// is gone in 32 bits.
fn chord(first: u64, last: u64, guesses: &mut [u32])
    requires { (first < 4294967296) × (last < 4294967296) × (length guesses.old ≤ 8) }
    ensures { length guesses.new ≡ length guesses.old }
{
    let step = last + 34359738368 - first;
    let mut eightfold = 8 * first;
    for guess in guesses.iter_mut() {
        *guess = (eightfold / 8 % 4294967296) as u32;
        eightfold += step;
    }
}

// Eight guesses: by the chord between the quotients at the first column and at the ninth where the distances change
// little, else by division.
fn eight(dividend: u64, first: u64, last: u64, distances: DistanceTable<'_>, guesses: &mut [u32])
    requires { (first < 4294967296) × (last < 4294967296) × (length distances.each.now ≡ 9)
        × (length guesses.old ≡ 8) }
    ensures { length guesses.new ≡ length guesses.old }
{
    let a = distances.each[0];
    if 8 * a.abs_diff(distances.each[8]) <= a {
        chord(first, last, guesses);
    } else {
        divided(dividend, distances, guesses);
    }
}

// Guesses by the chords between every eighth quotient. The last chord ends at the last column, and overlaps the one
// before.
fn chords(dividend: u64, distances: DistanceTable<'_>, guesses: &mut [u32])
    requires { (0 < length distances.each.now) × (length distances.each.now ≤ 512)
        × (length guesses.old ≡ length distances.each.now) }
    ensures { length guesses.new ≡ length guesses.old }
{
    let end = distances.each.len() - 1;
    if end < 8 {
        divided(dividend, distances, guesses);
        return;
    }
    let mut first = distances.quotient(dividend, 0);
    for i in 0..end / 8 {
        let j = 8 * i;
        let last = distances.quotient(dividend, j + 8);
        eight(
            dividend,
            first,
            last,
            distances.nine(j),
            &mut guesses[j..j + 8],
        );
        first = last;
    }
    if end % 8 != 0 {
        let tail = end - 8;
        let near = distances.quotient(dividend, tail);
        first = distances.quotient(dividend, end);
        eight(
            dividend,
            near,
            first,
            distances.nine(tail),
            &mut guesses[tail..end],
        );
    }
    guesses[end] = first as u32;
}

// ---- confirmation

// A step of Newton's, guess·(2 - guess·distance) on the scale. `twice` is 2·2^31 and 2^61, which keeps the difference
// above 0 and is gone in 32 bits; one less rounds down.
fn improved(twice: u64, shift: u64, distance: u64, guess: u64) -> u64
    requires { (2305843009213693952 ≤ twice) × (shift ≤ 29) × (distance ≤ 536870911) × (guess < 4294967296) }
    ensures { result < 4294967296 }
{
    let factor = (twice - ((guess * distance) >> shift)) % 4294967296;
    ((guess * factor) >> 31) % 4294967296
}

// Bits that are below 2^62 only where the remainder of the dividend is 0 or more and less than four distances. 2^62 is
// added to it, so that no number is below 0.
fn remainder_bits(dividend: u64, distance: u64, guess: u64) -> u64
    requires { (dividend < 1152921504606846976) × (distance ≤ 536870911) × (guess < 4294967296) }
    ensures { result < 4611686018427387904
        → (guess * distance ≤ dividend) × (dividend < guess * distance + 4 * distance) }
{
    let rest = 4611686018427387904 + dividend - guess * distance;
    (9223372036854775807 - rest) | (rest - 4 * distance)
}

// Improves the guesses by two steps, and confirms them: the bits of all columns together tell whether each is near, and
// each distance below 2^(shift + 1).
fn confirmed(shift: u64, distances: DistanceTable<'_>, guesses: &mut [u32]) -> bool
    requires { (shift ≤ 29) × (length guesses.old ≡ length distances.each.now) }
    ensures { (result ≡ true → Reciprocals shift distances.entry.each.now guesses.new)
        × (length guesses.new ≡ length guesses.old) }
{
    let top = dividend(shift);
    let mut remainders: u64 = 0;
    let mut sizes: u64 = 0;
    for (j, guess) in guesses.iter_mut().enumerate() {
        let distance = u64::from(distances.each[j]);
        let near = improved(2305843013508661248, shift, distance, u64::from(*guess));
        let nearer = improved(2305843013508661247, shift, distance, near);
        remainders |= remainder_bits(top, distance, nearer);
        sizes |= distance;
        *guess = nearer as u32;
    }
    (remainders < 4611686018427387904) & (sizes < (2 << shift))
}

// The reciprocals of the distances of a stretch, on a scale of 2^(31 + shift): the shift, where every guess was
// confirmed. Where one was not, nothing is said of the table.
pub fn reciprocals_of(distances: DistanceTable<'_>, reciprocals: &mut [u32]) -> Option<u64>
    requires { (0 < length distances.each.now) × (length distances.each.now ≤ 512)
        × (length reciprocals.old ≡ length distances.each.now) }
    ensures found { IfSome result (λ shift. (shift ≤ 29)
        × Reciprocals shift distances.entry.each.now reciprocals.new) }
    ensures whole { length reciprocals.new ≡ length reciprocals.old }
{
    let shift = scale_of(distances);
    chords(dividend(shift), distances, reciprocals);
    confirmed(shift, distances, reciprocals).then_some(shift)
}
