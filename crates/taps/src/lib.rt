// Sixteen samples by the weights of their taps, with twelve products: two sums of four samples are found at once, in
// the lower and in the upper half of a 64-bit number.
#![tactic(auto)]

ghost use Rattle.std.specs.Prelude.{◌≡◌, ◌+◌, ◌*◌, ◌^◌, ◌≤◌, ◌<◌, nat_abs, length};
ghost use Rattle.cubemap.specs.Frames.{sample_at};
ghost use Rattle.taps.specs.Fields.{sample_in, Packed, Packed12, evens, odds};
ghost use Rattle.taps.specs.InOrder.{in_order};
ghost use Rattle.taps.specs.TapWeights.{weighed, row_sum};

pub use table::tap_weights;
pub use weights::Weights;

mod sizes;
mod table;
mod weights;

// ---- four samples in one number

// Four samples, 16 bits each.
pub fn pack(a: u64, b: u64, c: u64, d: u64) -> u64
    requires { (a < 65536) × (b < 65536) × (c < 65536) × (d < 65536) }
    ensures { (sample_in result 0 ≡ a) × (sample_in result 1 ≡ b) × (sample_in result 2 ≡ c)
        × (sample_in result 3 ≡ d) }
{
    a + 65536 * b + 4294967296 * c + 281474976710656 * d
}

// The first four samples of a row. The indices are constants, so that the eight bytes are read at once.
fn first_four(row: &[u8]) -> u64
    requires { 8 ≤ length row.now }
    ensures { Packed result (sample_at row.now) }
{
    let a = frame::sample(row, 0);
    let b = frame::sample(row, 1);
    let c = frame::sample(row, 2);
    let d = frame::sample(row, 3);
    pack(a, b, c, d)
}

// Four samples that lie side by side: the row is handed on as a part, from the first of them on.
pub fn four(plane: &[u8], index: usize) -> u64
    requires { 2 * (index + 3) + 1 < length plane.now }
    ensures { Packed result (λ i. sample_at plane.now (index + i)) }
{
    let from = 2 * index;
    let to = from + 8;
    first_four(&plane[from..to])
}

// The first and the third of four samples, 32 bits apart.
fn even(x: u64) -> u64
    ensures { result ≡ evens x }
{
    x % 65536 + 4294967296 * (x / 4294967296 % 65536)
}

// The second and the fourth.
fn odd(x: u64) -> u64
    ensures { result ≡ odds x }
{
    even(x / 65536)
}

// ---- sums

// Four rows of four samples below 2^12, each row in one number.
pub fn sixteen(w: Weights, u: Weights, a: u64, b: u64, c: u64, d: u64) -> i64
    requires { Packed12 a × Packed12 b × Packed12 c × Packed12 d }
    ensures { (result ≡ weighed (in_order w)
        (row_sum (in_order u) (sample_in a)) (row_sum (in_order u) (sample_in b))
        (row_sum (in_order u) (sample_in c)) (row_sum (in_order u) (sample_in d)))
        × (nat_abs result ≤ 2 ^ 58) }
{
    let z = w.sizes();
    let e = z.both(even(a), even(b), even(c), even(d));
    let o = z.both(odd(a), odd(b), odd(c), odd(d));
    u.sizes().of_fields(e, o)
}
