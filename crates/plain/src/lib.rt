// T + 32 in CMP along a stretch of evenly spaced columns: guessed by any means, and confirmed in whole numbers.
#![tactic(auto)]

ghost use Rattle.std.specs.Prelude.{◌≡◌, true, ◌+◌, ◌*◌, ◌≤◌, ◌<◌, pos, nat_abs, length, ◌+ℤ◌, ◌*ℤ◌};
ghost use Rattle.arithmetic.specs.Integers.{natural};
ghost use Rattle.plain.specs.Walks.{size_at, rest_at, width_at, WalkInRange, Forward, Carries, Plain};

mod even;

pub use even::EvenStretch;
use positions::Line;

// ---- confirmation

// A number that is carried from column to column, with what it rises by and what it falls by.
#[derive(Clone, Copy)]
struct Carried {
    at: u64,
    up: u64,
    down: u64,
}

// What a number rises by: the number, or 0 where it is negative.
fn rise(z: i64) -> u64
    ensures { result ≡ natural z }
{
    z.max(0) as u64
}

// 64·A·s + d.
fn numerator(size: u64, s: i64, d: i64) -> i64
    requires { (size ≤ 512) × (nat_abs s ≤ 2147483644) × (nat_abs d ≤ 2147483644) }
    ensures { (result ≡ pos (64 * size) *ℤ s +ℤ d) × (nat_abs result ≤ 281474976710656) }
{
    64 * size as i64 * s + d
}

// 2^62 − 1 less the numerator, from the first column on: s has the sums, d the distances.
fn rest_from(size: u64, s: Line, d: Line) -> Carried
    requires { (size ≤ 512) × WalkInRange s.start s.slope × WalkInRange d.start d.slope }
    ensures { Carries 281474976710656 (rest_at size s d) result }
{
    let start = numerator(size, s.start, d.start);
    let slope = numerator(size, s.slope, d.slope);
    Carried {
        at: 4611686018427387903 - rise(start),
        up: rise(-slope),
        down: rise(slope),
    }
}

// 2^40 more than the denominator 2·d, from the first column on.
fn width_from(d: Line) -> Carried
    requires { WalkInRange d.start d.slope }
    ensures { Carries 4294967296 (width_at d) result }
{
    Carried {
        at: 1099511627776 + 2 * rise(d.start),
        up: 2 * rise(d.slope),
        down: 2 * rise(-d.slope),
    }
}

// T + 32 of each column, and of its row: where a guess times 2d lies within 2d of the numerator, that is the guess or
// one less. All are so where the bits that every upper end has reach 2^62, and the bits that any lower end has do not.
// False where one is not; nothing is said of the tables then. g is the guess of a column and r what it leaves, h and q
// are those of its row.
fn confirm(
    stretch: EvenStretch,
    guesses: &[u64; 512],
    columns: &mut [u32; 512],
    rows: &mut [u32; 512],
) -> bool
    ensures { result ≡ true → Plain stretch.size stretch.columns stretch.distances stretch.count columns.new
        × Plain stretch.size stretch.rows stretch.distances stretch.count rows.new }
{
    let column = rest_from(stretch.size, stretch.columns, stretch.distances);
    let row = rest_from(stretch.size, stretch.rows, stretch.distances);
    let width = width_from(stretch.distances);
    let mut column_rest = column.at;
    let mut row_rest = row.at;
    let mut wide = width.at;
    let mut low: u64 = 9223372036854775807;
    let mut high: u64 = 0;
    for i in 0..stretch.count {
        let guess = guesses[i];
        let g = (guess >> 15) % 65536;
        let h = (guess >> 47) % 65536;
        let by = wide % 4294967296;
        let r = g * by + column_rest;
        let q = h * by + row_rest;
        low &= (r + by) & (q + by);
        high |= (r - by) | (q - by);
        columns[i] = (g - (r >> 62)) as u32;
        rows[i] = (h - (q >> 62)) as u32;
        column_rest = column_rest + column.up - column.down;
        row_rest = row_rest + row.up - row.down;
        wide = wide + width.up - width.down;
    }
    (4611686018427387904 <= low) & (high < 4611686018427387904)
}

// ---- guesses: nothing is promised of them but that they are made

// The number at a column.
fn walk_at(w: Line, count: usize, i: usize) -> u64
    requires { Forward w count × (count ≤ 512) × (i < count) }
    ensures { result ≡ size_at w i }
{
    w.at(i as i64) as u64
}

// T + 32 of a column and of its row at 2^(14 − 2·lg) to the unit, the row's 2^32 times that: by one division.
// One number stands for both, so that one addition leads both to the next column.
fn node(lg: u64, size: u64, s: u64, t: u64, d: u64) -> u64
    requires { (lg ≤ 4) × (size ≤ 512) × (0 < d) × (s ≤ 2 * d) × (t ≤ 2 * d) }
{
    let r = size * 9007199254740992 / d;
    let shift = 34 + 2 * lg;
    let column = ((s * r) >> shift) % 67108864;
    let row = ((t * r) >> shift) % 67108864;
    column + 4294967296 * row
}

// That at a column of the stretch.
fn node_at(lg: u64, stretch: EvenStretch, i: usize) -> u64
    requires { (lg ≤ 4) × (i < stretch.count) }
{
    let s = walk_at(stretch.columns, stretch.count, i);
    let t = walk_at(stretch.rows, stretch.count, i);
    let d = walk_at(stretch.distances, stretch.count, i);
    node(lg, stretch.size, s, t, d)
}

// A guess at a node: 2^15 to the unit, and one more.
fn guess_at(lg: u64, n: u64) -> u64
    requires { lg ≤ 4 }
{
    (n << (2 * lg + 1)).wrapping_add(140737488388096)
}

// Eight guesses: the first, what is added to it, and what that grows by.
fn eight(first: u64, step: u64, second: u64, guesses: &mut [u64])
    ensures { length guesses.new ≡ length guesses.old }
{
    let mut next = first;
    let mut by = step;
    for guess in guesses.iter_mut() {
        *guess = next;
        next = next.wrapping_add(by);
        by = by.wrapping_add(second);
    }
}

// The guesses of the columns that a parabola spans from column `at` on, EIGHTS times eight, twice 2^LG: through the
// nodes at the first, in the middle and after the last.
fn parabola<const LG: u64, const EIGHTS: usize>(
    n0: u64,
    n1: u64,
    n2: u64,
    at: usize,
    guesses: &mut [u64; 512],
)
    requires { (LG ≤ 4) × (at + 8 * EIGHTS ≤ 512) }
{
    let bend = n0.wrapping_add(n2).wrapping_sub(n1 << 1);
    let slope = n1.wrapping_sub(n0) << (LG + 1);
    let second = bend << 1;
    let mut first = slope.wrapping_add(bend.wrapping_sub(bend << LG));
    let mut p = guess_at(LG, n0);
    for i in 0..EIGHTS {
        let from = at + 8 * i;
        eight(p, first, second, &mut guesses[from..from + 8]);
        let bent = (second << 5).wrapping_sub(second << 2);
        p = p.wrapping_add((first << 3).wrapping_add(bent));
        first = first.wrapping_add(second << 3);
    }
}

// The guesses of all columns, each at a node of its own.
fn guess_each(lg: u64, stretch: EvenStretch, guesses: &mut [u64; 512])
    requires { lg ≤ 4 }
{
    for i in 0..stretch.count {
        guesses[i] = guess_at(lg, node_at(lg, stretch, i));
    }
}

// The guesses of all columns by parabolas, each of EIGHTS times eight columns. The last one ends at the last column.
fn guess_bent<const LG: u64, const EIGHTS: usize>(stretch: EvenStretch, guesses: &mut [u64; 512])
    requires { (LG ≤ 4) × (0 < EIGHTS) × (8 * EIGHTS < stretch.count) }
{
    let span = 8 * EIGHTS;
    let half = 4 * EIGHTS;
    let end = stretch.count - span;
    let mut n0 = node_at(LG, stretch, 0);
    for i in (0..end).step_by(span) {
        let n1 = node_at(LG, stretch, i + half);
        let n2 = node_at(LG, stretch, i + span);
        parabola::<LG, EIGHTS>(n0, n1, n2, i, guesses);
        n0 = n2;
    }
    let first = node_at(LG, stretch, end - 1);
    let middle = node_at(LG, stretch, end - 1 + half);
    let last = node_at(LG, stretch, stretch.count - 1);
    parabola::<LG, EIGHTS>(first, middle, last, end - 1, guesses);
    guesses[stretch.count - 1] = guess_at(LG, last);
}

// The guesses of all columns. The less the distance changes from column to column, the more of them a parabola spans.
fn guess_all(stretch: EvenStretch, guesses: &mut [u64; 512]) {
    let count = stretch.count;
    let slope = stretch.distances.slope.unsigned_abs();
    let first = walk_at(stretch.distances, count, 0);
    let near = first.min(walk_at(stretch.distances, count, count - 1));
    if count <= 8 || near / 96 < slope {
        guess_each(2, stretch, guesses);
    } else if count <= 16 || near / 256 < slope {
        guess_bent::<2, 1>(stretch, guesses);
    } else if count <= 32 || near / 768 < slope {
        guess_bent::<3, 2>(stretch, guesses);
    } else {
        guess_bent::<4, 4>(stretch, guesses);
    }
}

// ---- both

// T + 32 of each column of a stretch, and of its row. False where a guess is not confirmed: nothing is said of the
// tables then.
pub fn plain_positions(
    stretch: EvenStretch,
    guesses: &mut [u64; 512],
    columns: &mut [u32; 512],
    rows: &mut [u32; 512],
) -> bool
    ensures { result ≡ true → Plain stretch.size stretch.columns stretch.distances stretch.count columns.new
        × Plain stretch.size stretch.rows stretch.distances stretch.count rows.new }
{
    guess_all(stretch, guesses);
    confirm(stretch, guesses, columns, rows)
}
