// The two sides of the middle of a face.
ghost use Rattle.std.specs.Prelude.{◌≡◌, ◌+◌, ◌≤◌, ◌<◌};
ghost use Rattle.adjusted.specs.Adjusted.{Column, IsPosition};

use crate::bends::Bend;

// What is told of T + 32 of a column: the number, the flag that is below 2^62 where it is the one between the two ends
// of its bracket, and the flag that is below 2^29 where x is on this side of the middle. Flags stand here in the place
// of an Option, so that the loop over the columns has no branch.
#[derive(Clone, Copy)]
pub struct Told {
    pub entry: u32,
    pub bracket: u64,
    pub size: u64,
}

// A side of the middle of a face: where no x is below zero, or none above. T + 32 lies between v and v + slack; where
// these have one quotient by 2^48, that is it.
pub trait Side {
    // T + 32 of a column on this side, from its sum x + d, its distance d, and the reciprocal of that.
    fn tell(b: Bend, shift: u64, sum: u32, distance: u32, reciprocal: u32) -> Told
        requires { (shift ≤ 31) × Column shift sum distance reciprocal }
        ensures { result.bracket < 4611686018427387904 → result.size < 536870912
            → IsPosition b.size sum distance result.entry };
}

// a − b; 2^32 more where that is below zero.
fn difference(a: u32, b: u32) -> u64
    ensures { (result < 4294967296) × (b ≤ 1073741824 → result < 536870912 → result + b ≡ a) }
{
    (u64::from(a) + 4294967296 - u64::from(b)) % 4294967296
}

// Where no x is below zero. The base makes up for the 2^31 of `part`.
pub struct Above;

impl Side for Above {
    fn tell(b: Bend, shift: u64, sum: u32, distance: u32, reciprocal: u32) -> Told {
        let size = difference(sum, distance);
        let v = (b.middle - 2147483648) + b.part(shift, size, reciprocal);
        Told {
            entry: (v >> 48) as u32,
            bracket: v % 281474976710656 + (b.slack + 4611404543450677248),
            size,
        }
    }
}

// Where no x is above zero. The base has 2^63 more, a multiple of 2^48, so that v is above zero whatever the columns
// are.
pub struct Below;

impl Side for Below {
    fn tell(b: Bend, shift: u64, sum: u32, distance: u32, reciprocal: u32) -> Told {
        let size = difference(distance, sum);
        let v = (b.middle + 9223372039002259456 - b.slack) - b.part(shift, size, reciprocal);
        Told {
            entry: ((v >> 48) % 32768) as u32,
            bracket: v % 281474976710656 + (b.slack + 4611404543450677248),
            size,
        }
    }
}
