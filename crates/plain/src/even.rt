// The numbers of a stretch of evenly spaced columns.
ghost use Rattle.std.specs.Prelude.{◌≡◌, ◌<◌};
ghost use Rattle.plain.specs.Walks.{Walks};

use positions::Line;

// The numbers of `count` evenly spaced columns, each a line over the column's number: the sums x + d of the columns and
// those of their rows, and the distances d.
#[derive(Clone, Copy)]
pub struct EvenStretch {
    pub size: u64,
    pub columns: Line,
    pub rows: Line,
    pub distances: Line,
    pub count: usize,
    pub ghost column_walks: { Walks size columns distances count },
    pub ghost row_walks: { Walks size rows distances count },
}
