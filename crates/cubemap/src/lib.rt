// The shared types of the part. What their numbers mean stands in specs/, one module for each section of the paper.
#![tactic(auto)]

mod codes;

pub use codes::{format_of, sampler_of};

// The two formats of faces: plain (CMP, code 0) and adjusted (ACP, code 1).
#[derive(Clone, Copy)]
pub enum Format {
    Cmp,
    Acp,
}

// The two samplers, codes 0 and 1.
#[derive(Clone, Copy)]
pub enum Sampler {
    Nearest,
    Cubic,
}

// What a frame travels with beside its layout: face size, depth in bits, format code.
#[derive(Clone, Copy)]
pub struct Shape {
    pub size: u64,
    pub depth: u64,
    pub format: u64,
}

// A place (f, m, n): a sample of a face.
#[derive(Clone, Copy)]
pub struct Place {
    pub face: u64,
    pub column: u64,
    pub row: u64,
}

// A layout of 12 bytes taken apart: the faces of the six slots, and their counts of clockwise quarter turns.
#[derive(Clone, Copy)]
pub struct Layout {
    pub faces: [u8; 6],
    pub turns: [u8; 6],
}

// A ray. X points to the front, Y to the top, Z to the right.
#[derive(Clone, Copy)]
pub struct Ray {
    pub x: i64,
    pub y: i64,
    pub z: i64,
}

// A rotation (the paper's turn): four whole numbers, a quaternion that is not divided by its length.
#[derive(Clone, Copy, PartialEq, Eq)]
pub struct Rotation {
    pub e0: i64,
    pub e1: i64,
    pub e2: i64,
    pub e3: i64,
}

// Where a ray falls: a face, and the column and row there in 64ths of a sample (the paper's T).
#[derive(Clone, Copy)]
pub struct Located {
    pub face: u64,
    pub column: i64,
    pub row: i64,
}

// A refusal (the paper's "no"): a case for each question, 1 to 16. Questions 10 and 11 bring the lowest offending
// index, which is below 6·512².
#[derive(Clone, Copy)]
pub enum Refusal {
    FaceSize,
    TargetSize,
    Depth,
    Code,
    Layout,
    RotationRange,
    RotationZero,
    FirstLength,
    SecondLength,
    FirstSample(u32),
    SecondSample(u32),
    FoldedRange,
    RayRange,
    RayZero,
    RecordKind,
    RecordCut,
}

// The two sums of a score: the weighted error sum and the sum of the weights.
#[derive(Clone, Copy)]
pub struct Sums {
    pub errors: u64,
    pub weights: u64,
}
