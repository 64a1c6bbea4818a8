// The questions of the calls: a test for each, and how a call asks them.
#![tactic(auto)]

ghost use Rattle.std.specs.Prelude.{◌≡◌, ◌↔◌, ◌+◌, ◌*◌, ◌≤◌, ◌<◌, ◌==◌};
ghost use Rattle.std.specs.Prelude.{ℕ, T, IsTrue, EachIndex, count_by, length, slice_index};
ghost use Rattle.arithmetic.specs.Searches.{all_below};
ghost use Rattle.cubemap.specs.Frames.{samples_in};
ghost use Rattle.cubemap.specs.Checks.{size_ok, depth_ok, layout_ok, length_ok, sample_ok};
ghost use Rattle.cubemap.specs.Checks.{rotation_in_range, rotation_nonzero, ray_in_range, ray_nonzero};
ghost use Rattle.cubemap.specs.Outcomes.{refusal};
ghost use Rattle.checks.specs.Asking.{asked, searched, Readable};

use arithmetic::within;
use cubemap::{Ray, Refusal, Rotation, Shape};

// ---- one question after the other

// Asks a question. A call asks its questions one by one, each with `?`: the first "no" ends it.
pub fn ask(holds: bool, refused: Refusal) -> Result<(), Refusal>
    ensures { result ≡ asked holds refused }
{
    if holds { Ok(()) } else { Err(refused) }
}

// ---- numbers and codes

// Questions 1 and 2, of one face size.
#[tactic(auto, unfolding(cubemap::specs::Checks::size_ok))]
pub fn size_ok(size: u64) -> bool
    ensures { result ≡ size_ok size }
{
    (1..=512).contains(&size)
}

// Question 3.
#[tactic(auto, unfolding(cubemap::specs::Checks::depth_ok))]
pub fn depth_ok(depth: u64) -> bool
    ensures { result ≡ depth_ok depth }
{
    (8..=12).contains(&depth)
}

// ---- layouts

// How many of these slots hold the face.
fn face_count(faces: &[u8], face: u8) -> usize
    ensures { result ≡ count_by (λ held. held == face) faces.now }
{
    faces.iter().filter(|held| **held == face).count()
}

// Is each face in one slot?
fn faces_ok(faces: &[u8]) -> bool
    ensures { IsTrue result ↔ ((face : ℕ) → face < 6 → count_by (λ held. held == face) faces.now ≡ 1) }
{
    (0..6).all(|face| face_count(faces, face) == 1)
}

// Is each slot turned at most three times?
fn turns_ok(turns: &[u8]) -> bool
    ensures { IsTrue result ↔ EachIndex turns.now (λ slot. slice_index turns.now slot ≤ 3) }
{
    turns.iter().all(|turned| *turned <= 3)
}

// Question 5, of a layout of any length.
pub fn layout_ok(layout: &[u8]) -> bool
    ensures { result ≡ layout_ok layout.now }
{
    if layout.len() != 12 {
        return false;
    }
    let (faces, turns) = layout.split_at(6);
    faces_ok(faces) & turns_ok(turns)
}

// ---- rotations and rays

// Questions 6 and 12, of one rotation.
#[tactic(auto, unfolding(cubemap::specs::Checks::rotation_in_range))]
pub fn rotation_in_range(t: Rotation) -> bool
    ensures { result ≡ rotation_in_range t }
{
    within(31, t.e0) & within(31, t.e1) & within(31, t.e2) & within(31, t.e3)
}

// Question 7, of one rotation.
#[tactic(auto, unfolding(cubemap::specs::Checks::rotation_nonzero))]
pub fn rotation_nonzero(t: Rotation) -> bool
    ensures { result ≡ rotation_nonzero t }
{
    [t.e0, t.e1, t.e2, t.e3] != [0; 4]
}

// Question 13.
#[tactic(auto, unfolding(cubemap::specs::Checks::ray_in_range))]
pub fn ray_in_range(v: Ray) -> bool
    ensures { result ≡ ray_in_range v }
{
    within(536870911, v.x) & within(536870911, v.y) & within(536870911, v.z)
}

// Question 14.
#[tactic(auto, unfolding(cubemap::specs::Checks::ray_nonzero))]
pub fn ray_nonzero(v: Ray) -> bool
    ensures { result ≡ ray_nonzero v }
{
    [v.x, v.y, v.z] != [0; 3]
}

// ---- the bytes of a frame

// Questions 8 and 9: is this the length of a frame's bytes? Where 12·A² is beyond 64 bits, no length is that long.
#[tactic(auto, unfolding(cubemap::specs::Checks::length_ok, cubemap::specs::Frames::bytes_in, cubemap::specs::Frames::samples_in))]
pub fn length_ok(shape: Shape, length: usize) -> bool
    ensures { result ≡ length_ok shape length }
{
    let bytes = shape
        .size
        .checked_mul(shape.size)
        .and_then(|square| square.checked_mul(12));
    bytes == Some(length as u64)
}

// The number of samples of a frame.
#[tactic(auto, unfolding(cubemap::specs::Frames::samples_in))]
fn samples_in(shape: Shape) -> u64
    requires { shape.size ≤ 512 }
    ensures { (result ≡ samples_in shape) × (result ≤ 1572864) }
{
    let size = shape.size;
    6 * (size * size)
}

// Is each of `count` samples from `from` on within the depth? The bits that any of them has, taken together, are below
// 2^D exactly where each one is. They are kept as the 16 that a sample has: in wider numbers each sample would be
// widened first, which takes four times as long.
fn part_ok(shape: Shape, bytes: &[u8], from: u64, count: u64) -> bool
    requires { T (depth_ok shape.depth) × (2 * (from + count) ≤ length bytes.now) }
    ensures { result ≡ all_below (λ i. sample_ok shape bytes.now (from + i)) count }
{
    let mut bits: u16 = 0;
    for i in 0..count {
        bits |= frame::sample(bytes, (from + i) as usize) as u16;
    }
    u64::from(bits) < frame::sample_bound(shape.depth)
}

// The samples of a block. A block that is within the depth is passed over as a whole.
const BLOCK: u64 = 1024;

// Where a search begins: the samples before it are within the depth, and the block that begins there is not, or is no
// whole one.
fn blocks_ok(shape: Shape, bytes: &[u8]) -> u64
    requires { Readable shape bytes.now }
    ensures { T (all_below (sample_ok shape bytes.now) result) × (result ≤ samples_in shape) }
{
    let whole = samples_in(shape) / BLOCK;
    for block in 0..whole {
        let start = block * BLOCK;
        if !part_ok(shape, bytes, start, BLOCK) {
            return start;
        }
    }
    whole * BLOCK
}

// Questions 10 and 11: is each sample within the depth? Else the lowest index of one that is not. One block at most is
// searched sample by sample.
pub fn samples_within(shape: Shape, bytes: &[u8]) -> Result<(), u32>
    requires { Readable shape bytes.now }
    ensures { result ≡ searched shape bytes.now }
{
    let bound = frame::sample_bound(shape.depth);
    for index in blocks_ok(shape, bytes)..samples_in(shape) {
        if bound <= frame::sample(bytes, index as usize) {
            return Err(index as u32);
        }
    }
    Ok(())
}

// ---- a refusal, as the paper has it

// The number of the question that a refusal says "no" to.
pub fn number(refused: Refusal) -> u64
    ensures { (result ≡ (refusal refused).number) × (result ≤ 24) }
{
    u64::from(refused) % 256
}
