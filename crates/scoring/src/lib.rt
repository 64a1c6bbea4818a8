// Score: questions 1, 3, 4, 5 and 8 to 11 in order, and then the two sums.
#![tactic(auto)]

ghost use Rattle.std.specs.Prelude.{◌≡◌, ◌*◌, ◌≤◌, ◌<◌, get_or};
ghost use Rattle.arithmetic.specs.Sums.{sum_below, both_terms};
ghost use Rattle.cubemap.specs.Interface.{format_of};
ghost use Rattle.cubemap.specs.Score.{error_sum, weight_sum};
ghost use Rattle.cubemap.specs.Checks.{score_settings, first_failed, score_checks};
ghost use Rattle.cubemap.specs.Outcomes.{converted_means, scored_means, score_result};
ghost use Rattle.frame.specs.LumaPlane.{luma_of};
ghost use Rattle.strides.specs.FaceStrides.{StrideTable};
ghost use Rattle.differences.specs.PairSquares.{plane_pair_squares};
ghost use Rattle.view.specs.Views.{shown};
ghost use Rattle.weights.specs.RowWeights.{AtMost};
ghost use Rattle.scoring.specs.Comparing.{Scorable, Comparable, sample_in, sums_of};

use checks::{ask, depth_ok, layout_ok, length_ok, samples_within, size_ok};
use cubemap::{Format, Refusal, Shape, Sums};
use differences::{PlanePair, ScoredPlane};
use strides::{Plane, Strides};
use view::FrameView;
use weights::RowWeights;

// ---- the sums

// The sum of the squares by their weights.
fn weigh(weights: &RowWeights, squares: &[u32; 512]) -> u64
    requires { AtMost weights.now.size 201228300 squares.now }
    ensures { (result ≡ sum_below (λ m. get_or weights.now.weights m 0 * get_or squares.now m 0) weights.now.size)
        × (result ≤ 6752101308825600) }
{
    let mut error = 0;
    for column in 0..weights.size as usize {
        error += weights.weights[column] * u64::from(squares[column]);
    }
    error
}

// The error sum of a row and of its mirror, the opposite row, which has the same weights; of the one row where they are
// the same.
fn rows_error(planes: PlanePair, weights: &RowWeights, row: u64, mirror: u64) -> u64
    requires one_size { planes.first.plane.size ≡ weights.now.size }
    requires within { (row < weights.now.size) × (mirror < weights.now.size) }
    ensures { (result ≡ both_terms (λ n. sum_below (λ m. get_or weights.now.weights m 0
        * plane_pair_squares planes.entry n m) weights.now.size) row mirror) × (result ≤ 6752101308825600) }
{
    weigh(weights, &planes.squares_of(row, mirror))
}

// The sum of the weights of a row and of its mirror, the opposite row, which has the same; of the one row where they
// are the same.
fn rows_weight(weights: &RowWeights, row: u64, mirror: u64) -> u64
    ensures { (result ≡ both_terms (λ _. sum_below (λ m. get_or weights.now.weights m 0) weights.now.size) row mirror)
        × (result ≤ 67108864) }
{
    let sum = weights.sum();
    if row < mirror { sum + sum } else { sum }
}

// The two sums of two planes. The weights of a row are found once for all six faces and the opposite row.
fn score_planes(format: Format, planes: PlanePair) -> Sums
    ensures errors { result.errors ≡ error_sum format planes.entry.first.plane.size (sample_in planes.entry.first)
        (sample_in planes.entry.second) }
    ensures weights { result.weights ≡ weight_sum format planes.entry.first.plane.size }
{
    let size = planes.first.plane.size;
    let mut weights = RowWeights::new(size);
    let mut errors = 0;
    let mut sum = 0;
    for row in 0..(size + 1) / 2 {
        let opposite = size - 1 - row;
        weights.weigh(format, row);
        errors += rows_error(planes, &weights, row, opposite);
        sum += rows_weight(&weights, row, opposite);
    }
    Sums {
        errors,
        weights: 6 * sum,
    }
}

// Luma of a frame that has passed its questions, with strides to its samples.
fn scored_luma<'a>(frame: FrameView<'a>, strides: &'a [Strides; 6]) -> ScoredPlane<'a>
    requires { Scorable (shown frame) × StrideTable frame.shape.size strides.now }
    ensures { (result.plane.size ≡ frame.entry.shape.size)
        × (result.plane.bytes.now ≡ luma_of frame.entry.shape.size frame.entry.bytes.now)
        × (result.plane.strides.now ≡ strides.now) }
{
    let size = frame.shape.size;
    ScoredPlane {
        plane: Plane {
            size,
            bytes: frame::luma(frame.bytes, size),
            strides,
        },
    }
}

// The two sums of two frames of one shape. A place has the weight of the one with column and row exchanged, and of the
// one in the opposite column: so both frames' strides are aligned with the first one's, and each of its rows then runs
// ahead along a row of the frame.
fn sums_of(format: Format, first: FrameView, second: FrameView) -> Sums
    requires { Comparable (shown first) (shown second) × (format ≡ format_of first.shape.format) }
    ensures { result ≡ sums_of (shown first.entry) (shown second.entry) }
{
    let size = first.shape.size;
    let first_table = strides::face_strides(size, first.layout);
    let second_table = strides::face_strides(size, second.layout);
    let first_strides = strides::aligned_strides(size, &first_table, &first_table);
    let second_strides = strides::aligned_strides(size, &first_table, &second_table);
    let planes = PlanePair {
        first: scored_luma(first, &first_strides),
        second: scored_luma(second, &second_strides),
    };
    score_planes(format, planes)
}

// ---- the call

// Questions 1, 3, 4, 5 and 8 to 11, in order.
#[tactic(auto, unfolding(cubemap::specs::Checks::first_failed, cubemap::specs::Checks::score_checks))]
pub fn score_answer(
    shape: Shape,
    first_layout: &[u8],
    second_layout: &[u8],
    first: &[u8],
    second: &[u8],
) -> Result<(), Refusal>
    ensures { converted_means result ≡ first_failed (score_checks (score_settings shape first_layout.now second_layout.now)
        first.now second.now) }
{
    ask(size_ok(shape.size), Refusal::FaceSize)?;
    ask(depth_ok(shape.depth), Refusal::Depth)?;
    Format::try_from(shape.format)?;
    let layouts = layout_ok(first_layout) & layout_ok(second_layout);
    ask(layouts, Refusal::Layout)?;
    ask(length_ok(shape, first.len()), Refusal::FirstLength)?;
    ask(length_ok(shape, second.len()), Refusal::SecondLength)?;
    samples_within(shape, first).map_err(Refusal::FirstSample)?;
    samples_within(shape, second).map_err(Refusal::SecondSample)
}

// Scores two frames: asks the questions, and then finds the two sums.
pub fn score(
    shape: Shape,
    first_layout: &[u8],
    second_layout: &[u8],
    first: &[u8],
    second: &[u8],
) -> Result<Sums, Refusal>
    ensures { scored_means result ≡ score_result (score_settings shape first_layout.now second_layout.now)
        first.now second.now }
{
    score_answer(shape, first_layout, second_layout, first, second)?;
    let first_frame = FrameView {
        bytes: first,
        shape,
        layout: frame::layout_of(first_layout),
    };
    let second_frame = FrameView {
        bytes: second,
        shape,
        layout: frame::layout_of(second_layout),
    };
    let format = cubemap::format_of(shape.format);
    Ok(sums_of(format, first_frame, second_frame))
}
