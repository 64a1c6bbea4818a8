// Squared differences of two planes: of a row and of its mirror, the opposite row, on all six faces, summed up for each
// column.
#![tactic(auto)]

ghost use Rattle.std.specs.Prelude.{◌≡◌, ℕ, ◌+◌, ◌≤◌, ◌<◌, get_or};
ghost use Rattle.cubemap.specs.Score.{squared_difference};
ghost use Rattle.differences.specs.RowSquares.{Room};

pub use pairs::PlanePair;
pub use scored::ScoredPlane;

mod pairs;
mod scored;

// The square of the difference of two samples. It is a signed one, of which the compiler squares no size: by `abs_diff`
// the loop over a row's columns took seven instructions a sample, and takes four.
fn squared(x: u64, y: u64) -> u32
    requires { (x < 4096) × (y < 4096) }
    ensures { (result ≡ squared_difference x y) × (result ≤ 16769025) }
{
    let d = (x as i64 - y as i64).unsigned_abs();
    (d * d) as u32
}

// Adds to the sum of each column what `more` gives there, one square or two. How large the sums are is asked of callers
// and no fact of a type: it grows with each row that is added. The table has the greatest length, and the size beside
// it: of a slice each caller would have to show that it is as long as faces are wide.
fn add_columns<F: Fn(u64) -> u32>(size: u64, squares: &mut [u32; 512], more: F)
    requires callable { (m : ℕ) → m < size → F.pre more m }
    requires small { (m v : ℕ) → m < size → F.post more m v → v ≤ 33538050 }
    requires room { (size ≤ 512) × Room size squares.old }
    ensures { (m : ℕ) → m < size → (v : ℕ) × F.post more m v × (get_or squares.new m 0 ≡ get_or squares.old m 0 + v) }
{
    for column in 0..size {
        squares[column as usize] += more(column);
    }
}
