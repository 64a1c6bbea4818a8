// Small functions on 64-bit numbers that the crates above share. The mathematics that the toolchain's libraries lack
// stands in specs/ and proofs/.
#![tactic(auto)]

ghost use Rattle.std.specs.Prelude.{◌≡◌, ℕ, true, false, ◌⊎◌, ◌+◌, ◌<◌, ◌^◌, leb, nat_abs};
ghost use Rattle.arithmetic.specs.Integers.{with_sign_of};

// Is the size of x at most the bound?
pub fn within(bound: u64, x: i64) -> bool
    ensures { result ≡ leb (nat_abs x) bound }
{
    x.unsigned_abs() <= bound
}

// The size c with the sign of x.
pub fn with_sign_of(x: i64, c: u64) -> i64
    requires { c < 2 ^ 63 }
    ensures { result ≡ with_sign_of x c }
{
    if x < 0 { -(c as i64) } else { c as i64 }
}

// A number below `end` that passes and is followed by one that does not, by bisection: where those that pass come
// first, the last of them. 0 is taken to pass, and `end` not to.
pub fn last_passing<F: Fn(u64) -> bool>(end: u64, passes: F) -> u64
    requires nonzero { 0 < end }
    requires callable { (n : ℕ) → n < end → F.pre passes n }
    ensures below { result < end }
    ensures passed { (result ≡ 0) ⊎ F.post passes result true }
    ensures failed { (result + 1 ≡ end) ⊎ F.post passes (result + 1) false }
{
    let mut low = 0;
    let mut high = end;
    while low + 1 < high {
        let middle = low + (high - low) / 2;
        if passes(middle) {
            low = middle;
        } else {
            high = middle;
        }
    }
    low
}
