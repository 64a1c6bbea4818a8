// Look-up: questions 1, 4, 13 and 14 in order, and then where the ray falls.
#![tactic(auto)]

ghost use Rattle.std.specs.Prelude.{◌≡◌};
ghost use Rattle.cubemap.specs.Outcomes.{looked_up_means, look_up_result};

use checks::{ask, ray_in_range, ray_nonzero, size_ok};
use cubemap::{Format, Located, Ray, Refusal};

// Looks up a ray in a cube of this face size and format.
#[tactic(auto, unfolding(cubemap::specs::Checks::first_failed, cubemap::specs::Checks::size_ok, cubemap::specs::Checks::look_up_checks, cubemap::specs::Outcomes::look_up_result))]
pub fn look_up(size: u64, format: u64, v: Ray) -> Result<Located, Refusal>
    ensures { looked_up_means result ≡ look_up_result size format v }
{
    ask(size_ok(size), Refusal::FaceSize)?;
    let format = Format::try_from(format)?;
    ask(ray_in_range(v), Refusal::RayRange)?;
    ask(ray_nonzero(v), Refusal::RayZero)?;
    Ok(geometry::locate(format, size, v))
}
