// Lists of conversions by cube rotations. What such a list is held to stands in specs/, and that it is so is proved in
// proofs/ of every program whose calls keep the promises. The function here is one such program: its contract is drawn
// from that theorem. Its parameters are those of the theorem, so no struct holds them together.
#![tactic(auto)]

ghost use Rattle.cubemap.specs.Promises.{ConvertPromise};
ghost use Rattle.sequences.specs.Twice.{turn_call, TurnedTwice};

use cubemap::{Rotation, Shape};

// What two calls of convert returned: codes, as the theorem `TurnedTwice` has them.
#[derive(Clone, Copy)]
pub struct Codes {
    pub first: u64,
    pub later: u64,
}

// One turn, to a frame of the same shape and layout: what convert returned.
fn turn(
    shape: Shape,
    sampler: u64,
    layout: &[u8],
    t: Rotation,
    source: &[u8],
    target: &mut [u8],
) -> u64
    ensures { ConvertPromise (turn_call shape sampler layout.now t source.now target.old result
        layout.exit.now source.exit.now target.new) }
{
    welchodrys::welchodrys_convert(
        shape.size,
        shape.size,
        shape.depth,
        shape.format,
        shape.format,
        sampler,
        layout,
        layout,
        t.e0,
        t.e1,
        t.e2,
        t.e3,
        source,
        target,
    )
}

// Turn a frame twice, from the source into the middle buffer and on into the target. Where the first turn is refused,
// the second reads the source.
pub fn turn_twice(
    shape: Shape,
    sampler: u64,
    layout: &[u8],
    first: Rotation,
    later: Rotation,
    source: &[u8],
    middle: &mut [u8],
    target: &mut [u8],
) -> Codes
    ensures { TurnedTwice shape sampler layout.now first later
        source.now middle.old target.old result
        layout.exit.now source.exit.now middle.new target.new }
{
    let first_code = turn(shape, sampler, layout, first, source, middle);
    let later_code = if first_code == 0 {
        turn(shape, sampler, layout, later, middle, target)
    } else {
        turn(shape, sampler, layout, later, source, target)
    };
    Codes {
        first: first_code,
        later: later_code,
    }
}
