// Two faces and two planes of one size, and their squared differences. The rows of the first one run ahead along the
// rows of its frame. A row and its mirror are two numbers and no struct: that would have to hold the size, too, and
// each call would ask that it is the pair's.
ghost use Rattle.std.specs.Prelude.{◌≡◌, ◌+◌, ◌*◌, ◌<◌, pos};
ghost use Rattle.arithmetic.specs.Sums.{both_terms};
ghost use Rattle.strides.specs.FaceStrides.{RowsAhead};
ghost use Rattle.differences.specs.RowSquares.{SumsTo, Room, Added, Squares};

use crate::scored::{ScoredFace, ScoredPlane};
use crate::{add_columns, squared};

// A face of each frame.
#[derive(Clone, Copy)]
pub struct FacePair<'a> {
    pub first: ScoredFace<'a>,
    pub second: ScoredFace<'a>,
    pub ghost one_size: { first.face.size ≡ second.face.size },
    pub ghost ahead: { first.face.strides.column ≡ pos 1 },
}

// A plane of each frame.
#[derive(Clone, Copy)]
pub struct PlanePair<'a> {
    pub first: ScoredPlane<'a>,
    pub second: ScoredPlane<'a>,
    pub ghost one_size: { first.plane.size ≡ second.plane.size },
    pub ghost ahead: { RowsAhead first.plane.strides.now },
}

impl<'a> FacePair<'a> {
    ghost use Rattle.differences.specs.PairSquares.{face_pair_squares};

    // Adds the squares of a row, whichever way it runs in the second frame. Where it runs ahead or back along a row of
    // that frame, too, its bytes are read one after the other.
    fn add_row(self, row: u64, squares: &mut [u32; 512])
        requires { (row < self.first.face.size) × Room self.first.face.size squares.old }
        ensures { Added self.entry.first.face.size (face_pair_squares self.entry row) squares.old squares.new }
    {
        let size = self.first.face.size;
        let first = self.first.unbroken_row(row);
        let second = self.second;
        match second.face.strides.column {
            1 => {
                let ahead = second.unbroken_row(row);
                add_columns(size, squares, |m| squared(first.sample(m), ahead.sample(m)));
            }
            -1 => {
                let back = second.mirrored().unbroken_row(row);
                add_columns(
                    size,
                    squares,
                    |m| squared(first.sample(m), back.sample(size - 1 - m)),
                );
            }
            _ => add_columns(
                size,
                squares,
                |m| squared(first.sample(m), second.sample(m, row)),
            ),
        }
    }

    // Adds the squares of two rows. Where rows run down the second frame, the two meet the same rows of it: one loop
    // goes through those once.
    fn add_rows(self, row: u64, mirror: u64, squares: &mut [u32; 512])
        requires within { (row < self.first.face.size) × (mirror < self.first.face.size) }
        requires room { Room self.first.face.size squares.old }
        ensures { Added self.entry.first.face.size
            (λ m. face_pair_squares self.entry row m + face_pair_squares self.entry mirror m) squares.old squares.new }
    {
        let first = self.first.unbroken_row(row);
        let first_mirror = self.first.unbroken_row(mirror);
        let second = self.second;
        add_columns(self.first.face.size, squares, |m| {
            squared(first.sample(m), second.sample(m, row))
                + squared(first_mirror.sample(m), second.sample(m, mirror))
        });
    }

    // Adds the squares of a row and of its mirror; of the one row where they are the same.
    fn add_both(self, row: u64, mirror: u64, squares: &mut [u32; 512])
        requires within { (row < self.first.face.size) × (mirror < self.first.face.size) }
        requires room { SumsTo self.first.face.size 201228300 squares.old }
        ensures { Added self.entry.first.face.size
            (λ m. both_terms (λ n. face_pair_squares self.entry n m) row mirror) squares.old squares.new }
    {
        if mirror <= row {
            return self.add_row(row, squares);
        }
        if self.second.face.strides.runs_along() {
            self.add_row(row, squares);
            self.add_row(mirror, squares)
        } else {
            self.add_rows(row, mirror, squares)
        }
    }
}

impl<'a> PlanePair<'a> {
    ghost use Rattle.differences.specs.PairSquares.{plane_pair_squares, IsFace};

    // A face of each plane.
    fn face(self, face: u64) -> FacePair<'a>
        requires { face < 6 }
        ensures { IsFace self.entry face result }
    {
        FacePair {
            first: self.first.face(face),
            second: self.second.face(face),
        }
    }

    // The squares of a row of all six faces and of its mirror; of the one row where they are the same.
    pub fn squares_of(self, row: u64, mirror: u64) -> [u32; 512]
        requires { (row < self.first.plane.size) × (mirror < self.first.plane.size) }
        ensures { Squares self.entry.first.plane.size
            (λ m. both_terms (λ n. plane_pair_squares self.entry n m) row mirror) result }
    {
        let mut squares = [0; 512];
        for face in 0..6 {
            self.face(face).add_both(row, mirror, &mut squares);
        }
        squares
    }
}
