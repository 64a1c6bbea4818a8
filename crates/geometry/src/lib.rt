// From place to ray and from ray to place, on 64-bit numbers.
#![tactic(auto)]

ghost use Rattle.std.specs.Prelude.{◌≡◌, ℕ, ◌/◌, ◌≤◌, ◌<◌, T, get_or, pos, nat_abs};
ghost use Rattle.cubemap.specs.PlaceToRay as paper;
ghost use Rattle.cubemap.specs.RayToPlace.{face_of};
ghost use Rattle.cubemap.specs.RayToPlace as to_place;
ghost use Rattle.cubemap.specs.Checks.{ray_in_range, ray_nonzero};
ghost use Rattle.cubemap.proofs.Curves.{bent};
ghost use Rattle.cubemap.proofs.Faces.{Row4};

use cubemap::{Format, Located, Ray};

// N of the ACP curve.
const N: u64 = 65536;

// ---- from place to ray

// c·(34N − 9c), the left side of equation 12.
fn bent_at(c: u64) -> u64
    requires { c ≤ 65536 }
    ensures { result ≡ bent 65536 c }
{
    c * (34 * N - 9 * c)
}

// The largest whole c from 0 to N with c·(34N − 9c)·A ≤ 25·N²·k: those up to it pass.
fn curve(size: u64, k: u64) -> u64
    requires { (size ≤ 512) × (k ≤ 512) }
    ensures { result ≡ paper.curve size k }
{
    let goal = 25 * N * N * k;
    arithmetic::last_passing(N + 1, |c| bent_at(c) * size <= goal)
}

// The scale s of a face's rays.
pub fn scale(format: Format, size: u64) -> u64
    ensures { result ≡ paper.scale format size }
{
    match format {
        Format::Cmp => size,
        Format::Acp => N,
    }
}

// 2m + 1 − A, of a column or a row.
pub fn from_centre(size: u64, m: u64) -> i64
    requires { (size ≤ 512) × (m < size) }
    ensures { result ≡ paper.from_centre size m }
{
    (2 * m + 1) as i64 - size as i64
}

// The face coordinate of a column or a row: a of column m, b of row m.
fn face_coordinate(format: Format, size: u64, m: u64) -> i64
    requires { (size ≤ 512) × (m < size) }
    ensures { result ≡ paper.face_coordinate format size m }
{
    let p = from_centre(size, m);
    match format {
        Format::Cmp => p,
        Format::Acp => arithmetic::with_sign_of(p, curve(size, p.unsigned_abs())),
    }
}

// The face coordinates of all columns of a face, which are those of its rows too. Nothing is said of the entries from A
// on.
pub fn face_coordinates(format: Format, size: u64) -> [i64; 512]
    requires { size ≤ 512 }
    ensures { (m : ℕ) → m < size → get_or result m (pos 0) ≡ paper.face_coordinate format size m }
{
    let mut coordinates = [0; 512];
    for m in 0..size {
        coordinates[m as usize] = face_coordinate(format, size, m);
    }
    coordinates
}

// A row of Table 3. (A face is its number here, as it is in the definitions table3, face_of and locate, and in what
// look-up answers.)
#[tactic(auto, unfolding(cubemap::specs::PlaceToRay::table3))]
pub fn table3(face: u64, s: i64, a: i64, b: i64) -> Ray
    requires { (face < 6) × (nat_abs s ≤ 65536) × (nat_abs a ≤ 65536) × (nat_abs b ≤ 65536) }
    ensures { result ≡ paper.table3 face s a b }
{
    match face {
        0 => Ray { x: s, y: -b, z: -a },
        1 => Ray { x: -s, y: -b, z: a },
        2 => Ray { x: a, y: s, z: b },
        3 => Ray { x: a, y: -s, z: -b },
        4 => Ray { x: a, y: -b, z: s },
        _ => Ray {
            x: -a,
            y: -b,
            z: -s,
        },
    }
}

// ---- from ray to place

// The face that a ray meets: the tests of Table 4, row by row. At equal sizes the earlier row wins.
pub fn face_of(v: Ray) -> u64
    requires { T (ray_in_range v) × T (ray_nonzero v) }
    ensures { result ≡ face_of v }
{
    let sx = v.x.unsigned_abs();
    let sy = v.y.unsigned_abs();
    let sz = v.z.unsigned_abs();
    if sy <= sx && sz <= sx {
        if v.x > 0 { 0 } else { 1 }
    } else if sx <= sy && sz <= sy {
        if v.y > 0 { 2 } else { 3 }
    } else if v.z > 0 {
        4
    } else {
        5
    }
}

// A ray by the row of Table 4 for a face: u × d, v × d, and d, which is positive where the ray points towards the
// face.
#[derive(Clone, Copy)]
pub struct Facing {
    pub across: i64,
    pub down: i64,
    pub toward: i64,
}

// A row of Table 4.
#[tactic(auto, unfolding(cubemap::specs::Checks::ray_in_range, cubemap::specs::RayToPlace::across, cubemap::specs::RayToPlace::down, cubemap::proofs::Faces::toward))]
pub fn table4(face: u64, v: Ray) -> Facing
    requires { (face < 6) × T (ray_in_range v) }
    ensures { Row4 face v result.across result.down result.toward }
{
    match face {
        0 => Facing {
            across: -v.z,
            down: -v.y,
            toward: v.x,
        },
        1 => Facing {
            across: v.z,
            down: -v.y,
            toward: -v.x,
        },
        2 => Facing {
            across: v.x,
            down: v.z,
            toward: v.y,
        },
        3 => Facing {
            across: v.x,
            down: -v.z,
            toward: -v.y,
        },
        4 => Facing {
            across: v.x,
            down: -v.y,
            toward: v.z,
        },
        _ => Facing {
            across: -v.x,
            down: -v.y,
            toward: -v.z,
        },
    }
}

// Where a ray falls on a face of this size and format.
pub fn locate(format: Format, size: u64, v: Ray) -> Located
    requires { (size ≤ 512) × T (ray_in_range v) × T (ray_nonzero v) }
    ensures { result ≡ to_place.locate format size v }
{
    let face = face_of(v);
    let f = table4(face, v);
    let d = f.toward as u64;
    Located {
        face,
        column: positions::position(format, size, f.across, d),
        row: positions::position(format, size, f.down, d),
    }
}
