// Rotations (the paper's turns) on 64-bit numbers: the matrix applied to a ray, product, reduction to lowest terms,
// fold and equality.
#![tactic(auto)]

ghost use Rattle.std.specs.Prelude.{◌≡◌, ◌+◌, ◌*◌, ◌%◌, ◌^◌, ◌≤◌, ◌<◌, T, nat_abs};
ghost use Rattle.std.specs.Int.Count.{count_trailing_zeros};
ghost use Rattle.arithmetic.proofs.Divisors.{IsGcd};
ghost use Rattle.cubemap.specs.Checks.{rotation_in_range, ray_in_range};
ghost use Rattle.cubemap.specs.Rotations as paper;
ghost use Rattle.cubemap.proofs.Ranges.{Within, RayWithin};
ghost use Rattle.cubemap.proofs.Rotations.{next_axis, next_axis_ray};

// A range stands in each contract, and in no type: a call's numbers may be any, and a type of those in range would be
// made from a rotation in every function that needs it, and taken apart again in the next one.
use cubemap::{Ray, Rotation};

// ---- the three axes, moved round: what holds of the first axis then holds of the next one

fn next_axis(t: Rotation) -> Rotation
    ensures { result ≡ next_axis t }
{
    Rotation {
        e0: t.e0,
        e1: t.e2,
        e2: t.e3,
        e3: t.e1,
    }
}

fn next_axis_ray(v: Ray) -> Ray
    ensures { result ≡ next_axis_ray v }
{
    Ray {
        x: v.y,
        y: v.z,
        z: v.x,
    }
}

// ---- the matrix

// The matrix's first row.
fn row1(t: Rotation) -> Ray
    requires { T (rotation_in_range t) }
    ensures { (result ≡ paper.row1 t) × RayWithin 3844 result }
{
    Ray {
        x: t.e0 * t.e0 + t.e1 * t.e1 - t.e2 * t.e2 - t.e3 * t.e3,
        y: 2 * (t.e1 * t.e2 - t.e0 * t.e3),
        z: 2 * (t.e1 * t.e3 + t.e0 * t.e2),
    }
}

// A row of the matrix applied to a ray.
fn dot(row: Ray, v: Ray) -> i64
    requires { RayWithin 3844 row × T (ray_in_range v) }
    ensures { result ≡ paper.dot row v }
{
    row.x * v.x + row.y * v.y + row.z * v.z
}

// X of the rotated ray.
fn rotated_x(t: Rotation, v: Ray) -> i64
    requires { T (rotation_in_range t) × T (ray_in_range v) }
    ensures { result ≡ (paper.rotated t v).x }
{
    dot(row1(t), v)
}

// The matrix applied to a ray. Its second and third rows are the first one with the axes moved round.
pub fn rotate(t: Rotation, v: Ray) -> Ray
    requires { T (rotation_in_range t) × T (ray_in_range v) }
    ensures { result ≡ paper.rotated t v }
{
    let t2 = next_axis(t);
    let v2 = next_axis_ray(v);
    let t3 = next_axis(t2);
    let v3 = next_axis_ray(v2);
    Ray {
        x: rotated_x(t, v),
        y: rotated_x(t2, v2),
        z: rotated_x(t3, v3),
    }
}

// ---- the product

// The product's number without an axis. (That of an axis has other signs and other pairs.)
fn product_e0(a: Rotation, b: Rotation) -> i64
    requires { T (rotation_in_range a) × T (rotation_in_range b) }
    ensures { result ≡ (paper.product a b).e0 }
{
    a.e0 * b.e0 - a.e1 * b.e1 - a.e2 * b.e2 - a.e3 * b.e3
}

// The product's number of the first axis.
fn product_e1(a: Rotation, b: Rotation) -> i64
    requires { T (rotation_in_range a) × T (rotation_in_range b) }
    ensures { result ≡ (paper.product a b).e1 }
{
    a.e0 * b.e1 + a.e1 * b.e0 + a.e2 * b.e3 - a.e3 * b.e2
}

// The quaternion product, a on the left. The numbers of the second and the third axis are that of the first one with
// the axes moved round.
fn product(a: Rotation, b: Rotation) -> Rotation
    requires { T (rotation_in_range a) × T (rotation_in_range b) }
    ensures { result ≡ paper.product a b }
{
    let a2 = next_axis(a);
    let b2 = next_axis(b);
    let a3 = next_axis(a2);
    let b3 = next_axis(b2);
    Rotation {
        e0: product_e0(a, b),
        e1: product_e1(a, b),
        e2: product_e1(a2, b2),
        e3: product_e1(a3, b3),
    }
}

// ---- the greatest common divisor, by trailing zeros, with halving and subtraction

// n without its factors of two.
fn odd_part(n: u64) -> u64
    requires { 0 < n }
    ensures { (result % 2 ≡ 1) × (n ≡ result * 2 ^ count_trailing_zeros 64 n) × (result ≤ n) }
{
    n >> n.trailing_zeros()
}

// Of two odd numbers: the difference of two odd numbers is even, and what is left of it when it is halved is odd again.
// (The loop counts nothing, and std has no divisor.)
fn gcd_of_odd(a: u64, b: u64) -> u64
    requires { (a % 2 ≡ 1) × (b % 2 ≡ 1) }
    ensures { IsGcd a b result }
{
    let mut x = a;
    let mut y = b;
    while x != y {
        if x < y {
            y = odd_part(y - x);
        } else {
            x = odd_part(x - y);
        }
    }
    x
}

fn gcd(a: u64, b: u64) -> u64
    ensures { IsGcd a b result }
{
    if a == 0 {
        return b;
    }
    if b == 0 {
        return a;
    }
    let g = gcd_of_odd(odd_part(a), odd_part(b));
    g << a.trailing_zeros().min(b.trailing_zeros())
}

// The greatest whole number that divides all four; 1 where all four are 0.
fn common_divisor(t: Rotation) -> u64
    ensures { result ≡ paper.common_divisor t }
{
    let g01 = gcd(t.e0.unsigned_abs(), t.e1.unsigned_abs());
    let g23 = gcd(t.e2.unsigned_abs(), t.e3.unsigned_abs());
    gcd(g01, g23).max(1)
}

// ---- reduction to lowest terms

// x / d, where d divides x. (In 32 bits: of 64, the quotient of a number below zero took a quarter of a fold's time.)
fn divided_by(d: u64, x: i64) -> i64
    requires { (0 < d) × (d < 2 ^ 31) × (nat_abs x < 2 ^ 31) }
    ensures { result ≡ paper.divided_by d x }
{
    i64::from(x as i32 / d as i32)
}

// The four numbers divided by the greatest whole number that divides them all.
fn divided(t: Rotation) -> Rotation
    requires { Within 3844 t }
    ensures { result ≡ paper.divided t }
{
    let d = common_divisor(t);
    Rotation {
        e0: divided_by(d, t.e0),
        e1: divided_by(d, t.e1),
        e2: divided_by(d, t.e2),
        e3: divided_by(d, t.e3),
    }
}

// Is the first nonzero number negative, where x comes first and `rest` says so of those behind?
fn lead_negative(x: i64, rest: bool) -> bool
    ensures { result ≡ paper.lead_negative x rest }
{
    x < 0 || (x == 0 && rest)
}

fn first_negative(t: Rotation) -> bool
    ensures { result ≡ paper.first_negative t }
{
    let n3 = lead_negative(t.e3, false);
    let n2 = lead_negative(t.e2, n3);
    let n1 = lead_negative(t.e1, n2);
    lead_negative(t.e0, n1)
}

// All four change sign where the first nonzero number is negative.
fn sign_normalized(t: Rotation) -> Rotation
    requires { Within 3844 t }
    ensures { result ≡ paper.sign_normalized t }
{
    if first_negative(t) {
        Rotation {
            e0: -t.e0,
            e1: -t.e1,
            e2: -t.e2,
            e3: -t.e3,
        }
    } else {
        t
    }
}

fn reduced(t: Rotation) -> Rotation
    requires { Within 3844 t }
    ensures { result ≡ paper.reduced t }
{
    sign_normalized(divided(t))
}

// ---- fold and equality

// The fold of a first and a later rotation.
pub fn compose(first: Rotation, later: Rotation) -> Rotation
    requires { T (rotation_in_range first) × T (rotation_in_range later) }
    ensures { result ≡ paper.compose first later }
{
    reduced(product(first, later))
}

// Are the two rotations equal, once reduced?
pub fn same_rotation(a: Rotation, b: Rotation) -> bool
    requires { T (rotation_in_range a) × T (rotation_in_range b) }
    ensures { result ≡ paper.same_rotation a b }
{
    reduced(a) == reduced(b)
}
