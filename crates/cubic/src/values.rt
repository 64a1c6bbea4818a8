// A position from its number in a table, and the value of a sum over sixteen taps.
ghost use Rattle.std.specs.Prelude.{◌≡◌, ◌^◌, ◌≤◌, ◌<◌, T, pos, nat_abs};
ghost use Rattle.cubemap.specs.Checks.{depth_ok};
ghost use Rattle.cubemap.specs.Samplers as paper;
ghost use Rattle.taps.specs.TapWeights.{weights_of};
ghost use Rattle.taps.specs.InOrder.{in_order};
ghost use Rattle.cubic.specs.PositionTables.{position_of};
ghost use Rattle.cubic.specs.InsideTaps.{first_tap};

use taps::Weights;

// ---- a position, from its number in a table

// The phase: T + 32 and 32 more are T and 64.
fn phase_of(n: u32) -> u64
    ensures { (pos result ≡ paper.phase (position_of n)) × (result < 64) }
{
    (n as u64 + 32) % 64
}

// The weights of the four taps.
pub fn weights_at(n: u32) -> Weights
    ensures { in_order result ≡ weights_of (paper.phase (position_of n)) }
{
    Weights::at(phase_of(n))
}

// The column, or row, of the first tap. The quotient is one more than the base.
pub fn first_tap(n: u32) -> i32
    requires { n < 32832 }
    ensures { (result ≡ first_tap n) × (nat_abs result ≤ 515) }
{
    ((n + 32) / 64) as i32 - 2
}

// ---- the value of a sum

// A number clipped to 0..n−1: a tap to the face, a value to the depth.
pub fn clip(n: u64, z: i64) -> u64
    requires { 1 ≤ n }
    ensures { (result ≡ paper.clip n z) × (result < n) }
{
    (z.max(0) as u64).min(n - 1)
}

// The sum divided by 2^38 and rounded: 2^37 is half of the divisor.
fn rounded(sum: i64) -> i64
    requires { nat_abs sum ≤ 2 ^ 58 }
    ensures { result ≡ paper.rounded sum }
{
    (sum + 137438953472) >> 38
}

// The value of a sum over sixteen taps.
pub fn value_of(depth: u64, sum: i64) -> u64
    requires { T (depth_ok depth) × (nat_abs sum ≤ 2 ^ 58) }
    ensures { (result ≡ paper.clip (2 ^ depth) (paper.rounded sum)) × (result < 65536) }
{
    clip(frame::sample_bound(depth), rounded(sum))
}
