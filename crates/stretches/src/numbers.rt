// The numbers of a line of rays, at one coordinate and along a stretch.
ghost use Rattle.std.specs.Prelude.{◌≡◌, ◌≤◌, pos, nat_abs, ◌+ℤ◌, ◌*ℤ◌, length};
ghost use Rattle.plain.specs.Walks.{walk};
ghost use Rattle.positions.specs.RayLines.{line_at};
ghost use Rattle.stretches.specs.Numbers.{Wide, Ahead, Numbers};

use positions::Line;

// A number of a line that is not negative. 32 bits hold it, and four such are found at once.
fn number_at(start: i32, slope: i32, a: i64) -> u32
    requires start_bound { (nat_abs start ≤ 1073741822) × (nat_abs a ≤ 65536) }
    requires slope_value { (pos (nat_abs (start +ℤ a *ℤ slope)) ≡ start +ℤ a *ℤ slope)
        × (nat_abs (start +ℤ a *ℤ slope) ≤ 1073741822) }
    ensures { result ≡ nat_abs (start +ℤ a *ℤ slope) }
{
    (start + a as i32 * slope) as u32
}

// The numbers of a line along a stretch.
pub fn line_numbers(line: Line, coordinates: &[i64], numbers: &mut [u32])
    requires { Ahead line coordinates.now × (length coordinates.now ≤ length numbers.old) }
    ensures { Numbers line coordinates.now numbers.new × (length numbers.new ≡ length numbers.old) }
{
    let start = line.start as i32;
    let slope = line.slope as i32;
    for (j, &a) in coordinates.iter().enumerate() {
        numbers[j] = number_at(start, slope, a);
    }
}

// The numbers of a line from a column on, each 2 further than the one before.
pub fn walk_from(line: Line, a: i64) -> Line
    requires { Wide line × (nat_abs a ≤ 65536) }
    ensures { result ≡ walk (line_at line a) (pos 2 *ℤ line.slope) }
{
    Line {
        start: line.at(a),
        slope: 2 * line.slope,
    }
}
