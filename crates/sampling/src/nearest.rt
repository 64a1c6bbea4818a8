// The nearest sample at each position of a stretch of one face: first the indices of all, then their samples.
ghost use Rattle.std.specs.Prelude.{◌≡◌, ◌*◌, ◌≤◌, ◌<◌, length, get_or};
ghost use Rattle.cubemap.specs.declared.Sampler.{Sampler};
ghost use Rattle.cubemap.specs.Frames.{sample_at, framed};
ghost use Rattle.cubemap.specs.Samplers.{nearest_column};
ghost use Rattle.cubic.specs.PositionTables.{position_of, Reached, Filled};
ghost use Rattle.cubic.specs.Stretches.{value_in};
ghost use Rattle.sampling.specs.NearestIndices.{nearest_index, InPlane};

use cubic::{AlongRows, Stretch};

// The column, or row, that is nearest to a position: beyond the last column it is the last.
fn nearest_column(size: u32, position: u32) -> u32
    requires { (1 ≤ size) × Reached size position }
    ensures { (result ≡ nearest_column size (position_of position)) × (result < size) }
{
    let column = position / 64;
    column - u32::from(column == size)
}

// The index of the sample at the nearest column and row.
fn nearest_index(along: AlongRows<'_>, column: u32, row: u32) -> u32
    requires { Reached along.face.size column × Reached along.face.size row }
    ensures { result ≡ nearest_index along.entry.face.size along.entry.face.strides column row }
{
    let size = along.face.size as u32;
    let m = nearest_column(size, column);
    let n = nearest_column(size, row);
    along.face.strides.index_in_row(m, n)
}

// Stores those of all positions.
fn nearest_indices(along: AlongRows<'_>, indices: &mut [u32; 512])
    ensures { Filled (nearest_index along.entry.face.size along.entry.face.strides) along.entry.columns.now
        along.entry.rows.now (length along.entry.columns.now) indices.new }
{
    along.store_each(|column, row| nearest_index(along, column, row), indices);
}

// Stores the samples at the indices, one after the other.
fn copy_indexed(plane: &[u8], indices: &[u32], target: &mut [u8])
    requires { InPlane plane.now indices.now × (length target.old ≡ 2 * length indices.now) }
    ensures { target.new ≡ framed 2 (λ j. sample_at plane.now (get_or indices.now j 0)) (length indices.now) }
{
    for (j, &index) in indices.iter().enumerate() {
        frame::put_sample(target, j, frame::sample(plane, index as usize));
    }
}

// Stores the nearest sample at each position.
pub fn nearest_stretch(stretch: Stretch<'_>, indices: &mut [u32; 512], target: &mut [u8])
    requires { length target.old ≡ 2 * length stretch.columns.now }
    ensures { target.new ≡ framed 2 (value_in Sampler.Nearest stretch.entry) (length stretch.entry.columns.now) }
{
    let along = stretch.along_rows();
    nearest_indices(along, indices);
    copy_indexed(along.face.bytes, &indices[..along.columns.len()], target);
}
