// T of one ratio.
ghost use Rattle.std.specs.Prelude.{◌≡◌, ◌≤◌, pos, ◌-ℤ◌};
ghost use Rattle.cubemap.specs.RayToPlace.{position64};
ghost use Rattle.cubemap.proofs.Positions.{acp_first};
ghost use Rattle.positions.specs.Ratios.{Ratio};

use cubemap::Format;

// x / d on a face of `size` samples.
#[derive(Clone, Copy)]
pub struct FaceRatio {
    pub size: u64,
    pub x: i64,
    pub d: u64,
    pub ghost ratio: { Ratio size x d },
}

impl FaceRatio {
    // T + 32 in CMP.
    fn shifted_cmp(self) -> u64
        ensures { position64 Format.Cmp self.size self.x self.d ≡ pos result -ℤ pos 32 }
    {
        let s = (self.x + self.d as i64) as u64;
        (64 * self.size * s + self.d) / (2 * self.d)
    }

    // The numerator of T + 32 in ACP, which exceeds 64 bits, divided by d and rounded down: by the quotient and the
    // remainder of x² / d.
    fn acp_first(self) -> u64
        ensures { result ≡ acp_first self.size self.x self.d }
    {
        let size = self.size;
        let d = self.d;
        let k = self.x.unsigned_abs();
        let square = k * k;
        let whole = 576 * size * (square / d);
        let part = 576 * size * (square % d);
        let linear = 2176 * size * k;
        let middle = 1600 * size * d + 25 * d;
        if self.x < 0 {
            middle + whole + part / d - linear
        } else {
            middle + linear - whole - (part + (d - 1)) / d
        }
    }

    // T + 32 in ACP.
    fn shifted_acp(self) -> u64
        ensures { position64 Format.Acp self.size self.x self.d ≡ pos result -ℤ pos 32 }
    {
        self.acp_first() / (50 * self.d)
    }

    // T + 32: it is never negative.
    pub fn shifted(self, format: Format) -> u64
        ensures { (position64 format self.size self.x self.d ≡ pos result -ℤ pos 32) × (result ≤ 32768) }
    {
        match format {
            Format::Cmp => self.shifted_cmp(),
            Format::Acp => self.shifted_acp(),
        }
    }
}

// T of x / d.
pub fn position(format: Format, size: u64, x: i64, d: u64) -> i64
    requires { Ratio size x d }
    ensures { result ≡ position64 format size x d }
{
    FaceRatio { size, x, d }.shifted(format) as i64 - 32
}
