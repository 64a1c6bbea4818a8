// The tables of a stretch, one entry for each column.
ghost use Rattle.stretches.specs.Numbers.{Zeros};

// The numbers that lead to the positions of a stretch, and these: T + 32 of each column, and of its row.
#[derive(Drop)]
pub struct Tables {
    pub guesses: [u64; 512],
    pub distances: [u32; 512],
    pub reciprocals: [u32; 512],
    pub columns: [u32; 512],
    pub rows: [u32; 512],
}

impl Tables {
    // Tables of zeros.
    pub fn new() -> Tables
        ensures { Zeros result.guesses × Zeros result.distances × Zeros result.reciprocals × Zeros result.columns
            × Zeros result.rows }
    {
        Tables {
            guesses: [0; 512],
            distances: [0; 512],
            reciprocals: [0; 512],
            columns: [0; 512],
            rows: [0; 512],
        }
    }
}
