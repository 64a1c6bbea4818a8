// One conversion and the score of its source against its target: both calls, on buffers that are lent as its case says.
ghost use Rattle.std.specs.Prelude.{◌≡◌, ◌+◌, ◌*◌, ◌^◌, ◌≤◌, ◌<◌, min, length};

use crate::samples::layout;
use crate::{Case, Damage, Outcome, ROOM, ScoreOutcome};
use cubemap::Shape;

// Each byte of the target before the call.
const UNWRITTEN: u8 = 165;

// The bytes of a frame: two for each of 6·A² samples, and no more than face size 512 has.
fn frame_bytes(size: u64) -> usize
    ensures { (result ≡ min (12 * (size * size)) 3145728) × (result ≤ 3145728) }
{
    if size <= 512 {
        (12 * (size * size)) as usize
    } else {
        3145728
    }
}

// How many bytes of a frame are lent: one less than it has where this damage makes it short, one more where that makes
// it long.
fn lent(size: u64, damage: Damage, short: Damage, long: Damage) -> usize
    ensures { result ≤ 3145729 }
{
    let whole = frame_bytes(size);
    if damage == long {
        whole + 1
    } else if damage == short {
        whole.saturating_sub(1)
    } else {
        whole
    }
}

// The conversion, with the bytes of the layouts and of the two frames: its code.
fn convert(
    case: Case,
    source_layout: &[u8],
    target_layout: &[u8],
    source: &[u8],
    target: &mut [u8],
) -> u64 {
    let turn = case.turn;
    welchodrys::welchodrys_convert(
        case.source_size,
        case.target_size,
        case.depth,
        case.source_format,
        case.target_format,
        case.sampler,
        source_layout,
        target_layout,
        turn.e0,
        turn.e1,
        turn.e2,
        turn.e3,
        source,
        target,
    )
}

// Eight bytes of an answer as a number, the low one first.
pub fn number_at(answer: &[u8], at: usize) -> u64
    requires { at + 8 ≤ length answer.now }
{
    u64::from_le_bytes([
        answer[at],
        answer[at + 1],
        answer[at + 2],
        answer[at + 3],
        answer[at + 4],
        answer[at + 5],
        answer[at + 6],
        answer[at + 7],
    ])
}

// The score of the source against the target.
fn score(
    case: Case,
    source_layout: &[u8],
    target_layout: &[u8],
    source: &[u8],
    target: &[u8],
) -> ScoreOutcome {
    let mut answer = [0u8; 16];
    let code = welchodrys::welchodrys_score(
        case.source_size,
        case.depth,
        case.source_format,
        source_layout,
        target_layout,
        source,
        target,
        &mut answer,
    );
    ScoreOutcome {
        code,
        errors: number_at(&answer, 0),
        weights: number_at(&answer, 8),
    }
}

// Both calls, on a target that is filled before them.
fn convert_and_score(
    case: Case,
    source_layout: &[u8],
    target_layout: &[u8],
    source: &[u8],
    target: &mut [u8],
) -> Outcome {
    target.fill(UNWRITTEN);
    let code = convert(case, source_layout, target_layout, source, target);
    let digest = crate::samples::digest_of(target);
    let shape = Shape {
        size: case.target_size,
        depth: case.depth,
        format: case.target_format,
    };
    let samples = crate::samples::corner_samples(shape, target_layout, target);
    let score = score(case, source_layout, target_layout, source, target);
    Outcome {
        code,
        digest,
        samples,
        score,
    }
}

// Lends the layouts.
fn with_layouts(case: Case, source: &[u8], target: &mut [u8]) -> Outcome {
    convert_and_score(
        case,
        layout(case.source_layout),
        layout(case.target_layout),
        source,
        target,
    )
}

// Fills the source, and lends both frames.
pub fn run(case: Case, source: &mut [u8; ROOM], target: &mut [u8; ROOM]) -> Outcome {
    let samples = frame_bytes(case.source_size) / 2;
    crate::samples::fill_source(source, samples, case.depth, case.damage);
    let source_end = lent(
        case.source_size,
        case.damage,
        Damage::SourceShort,
        Damage::SourceLong,
    );
    let target_end = lent(
        case.target_size,
        case.damage,
        Damage::TargetShort,
        Damage::TargetLong,
    );
    with_layouts(case, &source[..source_end], &mut target[..target_end])
}
