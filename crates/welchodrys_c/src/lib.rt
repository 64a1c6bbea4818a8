// What C calls: each call of the crate welchodrys under its own name, with the same promise, since Rattle crates call
// that one. A slice comes from C as a pointer and a length.
#![tactic(auto)]

ghost use Rattle.cubemap.specs.PlaceToRay.{ray};
ghost use Rattle.cubemap.specs.Frames.{shape_of};
ghost use Rattle.cubemap.specs.Checks.{convert_settings, score_settings};
ghost use Rattle.cubemap.specs.Promises.{convert_call, ConvertPromise, score_call, ScorePromise};
ghost use Rattle.cubemap.specs.Promises.{FoldPromise, EqualPromise, LookUpPromise};
ghost use Rattle.cubemap.specs.Rotations.{rotation};

// Convert a frame through a turn: the target's bytes.
#[unsafe(no_mangle)]
pub extern "C" fn welchodrys_convert(
    source_size: u64,
    target_size: u64,
    depth: u64,
    source_format: u64,
    target_format: u64,
    sampler: u64,
    source_layout: &[u8],
    target_layout: &[u8],
    e0: i64,
    e1: i64,
    e2: i64,
    e3: i64,
    source: &[u8],
    target: &mut [u8],
) -> u64
    ensures { ConvertPromise (convert_call
        (convert_settings (shape_of source_size depth source_format) target_size target_format sampler
        source_layout.now target_layout.now (rotation e0 e1 e2 e3))
        source.now target.old result
        source_layout.exit.now target_layout.exit.now source.exit.now target.new) }
{
    welchodrys::welchodrys_convert(
        source_size,
        target_size,
        depth,
        source_format,
        target_format,
        sampler,
        source_layout,
        target_layout,
        e0,
        e1,
        e2,
        e3,
        source,
        target,
    )
}

// Score two frames: the weighted error sum, then the sum of the weights.
#[unsafe(no_mangle)]
pub extern "C" fn welchodrys_score(
    size: u64,
    depth: u64,
    format: u64,
    first_layout: &[u8],
    second_layout: &[u8],
    first: &[u8],
    second: &[u8],
    answer: &mut [u8],
) -> u64
    ensures { ScorePromise (score_call
        (score_settings (shape_of size depth format) first_layout.now second_layout.now)
        first.now second.now answer.old result
        first_layout.exit.now second_layout.exit.now first.exit.now second.exit.now answer.new) }
{
    welchodrys::welchodrys_score(
        size,
        depth,
        format,
        first_layout,
        second_layout,
        first,
        second,
        answer,
    )
}

// Fold a first and a later turn: four numbers.
#[unsafe(no_mangle)]
pub extern "C" fn welchodrys_fold(
    first0: i64,
    first1: i64,
    first2: i64,
    first3: i64,
    later0: i64,
    later1: i64,
    later2: i64,
    later3: i64,
    answer: &mut [u8],
) -> u64
    ensures { FoldPromise (rotation first0 first1 first2 first3) (rotation later0 later1 later2 later3)
        answer.old result answer.new }
{
    welchodrys::welchodrys_fold(
        first0, first1, first2, first3, later0, later1, later2, later3, answer,
    )
}

// Are two turns equal? One number, 1 or 0.
#[unsafe(no_mangle)]
pub extern "C" fn welchodrys_equal(
    first0: i64,
    first1: i64,
    first2: i64,
    first3: i64,
    second0: i64,
    second1: i64,
    second2: i64,
    second3: i64,
    answer: &mut [u8],
) -> u64
    ensures { EqualPromise (rotation first0 first1 first2 first3) (rotation second0 second1 second2 second3)
        answer.old result answer.new }
{
    welchodrys::welchodrys_equal(
        first0, first1, first2, first3, second0, second1, second2, second3, answer,
    )
}

// Look up a ray: the face, then column and row in 64ths of a sample.
#[unsafe(no_mangle)]
pub extern "C" fn welchodrys_look_up(
    size: u64,
    format: u64,
    x: i64,
    y: i64,
    z: i64,
    answer: &mut [u8],
) -> u64
    ensures { LookUpPromise size format (ray x y z) answer.old result answer.new }
{
    welchodrys::welchodrys_look_up(size, format, x, y, z, answer)
}
