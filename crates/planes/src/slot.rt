// The rays of a slot of the target.
ghost use Rattle.std.specs.Prelude.{◌<◌};

use cubemap::Ray;

// The face that a slot holds, and how many quarter turns it is turned.
#[derive(Clone, Copy)]
pub struct Slot {
    pub face: u64,
    pub turns: u64,
    pub ghost face_known: { face < 6 },
    pub ghost turns_known: { turns < 4 },
}

impl Slot {
    ghost use Rattle.std.specs.Prelude.{◌≡◌, ◌≤◌, nat_abs};
    ghost use Rattle.planes.specs.TargetPlane.{slot_ray};

    // The ray at a spot of the slot: u is the coordinate of the spot's column, v that of its row.
    pub fn ray(self, s: i64, u: i64, v: i64) -> Ray
        requires { (nat_abs s ≤ 65536) × (nat_abs u ≤ 65536) × (nat_abs v ≤ 65536) }
        ensures { result ≡ slot_ray self.face self.turns s u v }
    {
        match self.turns {
            0 => geometry::table3(self.face, s, u, v),
            1 => geometry::table3(self.face, s, v, -u),
            2 => geometry::table3(self.face, s, -u, -v),
            _ => geometry::table3(self.face, s, -v, u),
        }
    }
}
