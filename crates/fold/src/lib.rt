// Fold: questions 6, 7 and 12 in order, and then the folded rotation. Equality: questions 6 and 7, and then whether two
// rotations are equal.
#![tactic(auto)]

ghost use Rattle.std.specs.Prelude.{◌≡◌};
ghost use Rattle.cubemap.specs.Checks.{first_failed, equal_checks};
ghost use Rattle.cubemap.specs.Outcomes.{converted_means, folded_means, fold_result, compared_means, equal_result};

use checks::{ask, rotation_in_range, rotation_nonzero};
use cubemap::{Refusal, Rotation};

// Questions 6 and 7, of two rotations.
fn ask_rotations(first: Rotation, second: Rotation) -> Result<(), Refusal>
    ensures { converted_means result ≡ first_failed (equal_checks first second) }
{
    ask(
        rotation_in_range(first) & rotation_in_range(second),
        Refusal::RotationRange,
    )?;
    ask(
        rotation_nonzero(first) & rotation_nonzero(second),
        Refusal::RotationZero,
    )
}

// Folds a first and a later rotation.
#[tactic(auto, unfolding(cubemap::specs::Checks::first_failed, cubemap::specs::Checks::equal_checks, cubemap::specs::Checks::fold_checks, cubemap::specs::Outcomes::fold_result))]
pub fn fold(first: Rotation, later: Rotation) -> Result<Rotation, Refusal>
    ensures { folded_means result ≡ fold_result first later }
{
    ask_rotations(first, later)?;
    let folded = rotation::compose(first, later);
    ask(rotation_in_range(folded), Refusal::FoldedRange)?;
    Ok(folded)
}

// Tests two rotations for equality.
#[tactic(auto, unfolding(cubemap::specs::Checks::first_failed, cubemap::specs::Checks::equal_checks, cubemap::specs::Outcomes::equal_result))]
pub fn equal(first: Rotation, second: Rotation) -> Result<bool, Refusal>
    ensures { compared_means result ≡ equal_result first second }
{
    ask_rotations(first, second)?;
    Ok(rotation::same_rotation(first, second))
}
