// The five calls: numbers and lent buffers go in, a code and bytes come out. Each is thin over the function that does
// the work. The crate welchodrys_c exports them to C: so each takes its numbers one by one, and gives a code, as C
// does.
#![tactic(auto)]

ghost use Rattle.cubemap.specs.PlaceToRay.{ray};
ghost use Rattle.cubemap.specs.Frames.{shape_of};
ghost use Rattle.cubemap.specs.Checks.{convert_settings, score_settings};
ghost use Rattle.cubemap.specs.Promises.{convert_call, ConvertPromise, score_call, ScorePromise};
ghost use Rattle.cubemap.specs.Promises.{FoldPromise, EqualPromise, LookUpPromise};
ghost use Rattle.cubemap.specs.Rotations.{rotation};

use conversion::Settings;
use cubemap::{Ray, Rotation, Shape};

// Convert a frame through a turn: the target's bytes.
pub fn welchodrys_convert(
    source_size: u64,
    target_size: u64,
    depth: u64,
    source_format: u64,
    target_format: u64,
    sampler: u64,
    source_layout: &[u8],
    target_layout: &[u8],
    e0: i64,
    e1: i64,
    e2: i64,
    e3: i64,
    source: &[u8],
    target: &mut [u8],
) -> u64
    ensures { ConvertPromise (convert_call
        (convert_settings (shape_of source_size depth source_format) target_size target_format sampler
        source_layout.now target_layout.now (rotation e0 e1 e2 e3))
        source.now target.old result
        source_layout.exit.now target_layout.exit.now source.exit.now target.new) }
{
    let settings = Settings {
        source: Shape {
            size: source_size,
            depth,
            format: source_format,
        },
        target_size,
        target_format,
        sampler,
        source_layout,
        target_layout,
        rotation: Rotation { e0, e1, e2, e3 },
    };
    match conversion::convert(settings, source, target) {
        Ok(()) => 0,
        Err(refused) => u64::from(refused),
    }
}

// Score two frames: the weighted error sum, then the sum of the weights.
pub fn welchodrys_score(
    size: u64,
    depth: u64,
    format: u64,
    first_layout: &[u8],
    second_layout: &[u8],
    first: &[u8],
    second: &[u8],
    answer: &mut [u8],
) -> u64
    ensures { ScorePromise (score_call
        (score_settings (shape_of size depth format) first_layout.now second_layout.now)
        first.now second.now answer.old result
        first_layout.exit.now second_layout.exit.now first.exit.now second.exit.now answer.new) }
{
    let shape = Shape {
        size,
        depth,
        format,
    };
    answers::answer(
        scoring::score(shape, first_layout, second_layout, first, second),
        answer,
    )
}

// Fold a first and a later turn: four numbers.
pub fn welchodrys_fold(
    first0: i64,
    first1: i64,
    first2: i64,
    first3: i64,
    later0: i64,
    later1: i64,
    later2: i64,
    later3: i64,
    answer: &mut [u8],
) -> u64
    ensures { FoldPromise (rotation first0 first1 first2 first3) (rotation later0 later1 later2 later3)
        answer.old result answer.new }
{
    let first = Rotation {
        e0: first0,
        e1: first1,
        e2: first2,
        e3: first3,
    };
    let later = Rotation {
        e0: later0,
        e1: later1,
        e2: later2,
        e3: later3,
    };
    answers::answer(fold::fold(first, later), answer)
}

// Are two turns equal? One number, 1 or 0.
pub fn welchodrys_equal(
    first0: i64,
    first1: i64,
    first2: i64,
    first3: i64,
    second0: i64,
    second1: i64,
    second2: i64,
    second3: i64,
    answer: &mut [u8],
) -> u64
    ensures { EqualPromise (rotation first0 first1 first2 first3) (rotation second0 second1 second2 second3)
        answer.old result answer.new }
{
    let first = Rotation {
        e0: first0,
        e1: first1,
        e2: first2,
        e3: first3,
    };
    let second = Rotation {
        e0: second0,
        e1: second1,
        e2: second2,
        e3: second3,
    };
    answers::answer(fold::equal(first, second), answer)
}

// Look up a ray: the face, then column and row in 64ths of a sample.
pub fn welchodrys_look_up(size: u64, format: u64, x: i64, y: i64, z: i64, answer: &mut [u8]) -> u64
    ensures { LookUpPromise size format (ray x y z) answer.old result answer.new }
{
    answers::answer(look_up::look_up(size, format, Ray { x, y, z }), answer)
}
