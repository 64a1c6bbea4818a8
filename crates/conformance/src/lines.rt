// The line of a conversion: each function stores bytes from index `at` on and says where they end.
ghost use Rattle.std.specs.Prelude.{◌≡◌, ◌+◌, ◌*◌, ◌≤◌, length};

use crate::{Case, LINE, Outcome};
use cubemap::Rotation;
use itoa::{Buffer, Integer};

// A number in decimal, with a minus sign where it is negative, and a byte behind it.
pub fn put_number<I: Integer>(text: &mut [u8], at: usize, n: I, behind: u8) -> usize
    requires { (I.MAX_STR_LEN ≤ 20) × (at + 21 ≤ length text.old) }
    ensures { result ≤ at + 21 }
{
    let mut digits = Buffer::new();
    let end = listing::put_bytes(text, at, digits.format(n).as_bytes());
    text[end] = behind;
    end + 1
}

// Numbers with a space behind each.
pub fn put_numbers<I: Integer>(text: &mut [u8], at: usize, numbers: &[I]) -> usize
    requires { (I.MAX_STR_LEN ≤ 20) × (at + 21 * length numbers.now ≤ length text.old) }
    ensures { result ≤ at + 21 * length numbers.now }
{
    let mut end = at;
    for &n in numbers {
        end = put_number(text, end, n, b' ');
    }
    end
}

// The turn's four numbers.
pub fn put_turn(text: &mut [u8], at: usize, turn: Rotation) -> usize
    requires { at + 84 ≤ length text.old }
    ensures { result ≤ at + 84 }
{
    put_numbers(text, at, &[turn.e0, turn.e1, turn.e2, turn.e3])
}

// The line of a conversion: a code is the refusal's number plus 256 times its index.
pub fn put_line(text: &mut [u8; LINE], case: Case, outcome: Outcome) -> usize
    ensures { result ≤ 572 }
{
    let numbers = [
        case.source_size,
        case.target_size,
        case.depth,
        case.source_format,
        case.target_format,
        case.sampler,
        case.source_layout,
        case.target_layout,
    ];
    let answer = [
        case.damage as u64,
        outcome.code % 256,
        outcome.code / 256,
        outcome.digest,
    ];
    let score = outcome.score;
    let scored = [score.code % 256, score.code / 256, score.errors];
    let turn_at = put_numbers(text, 0, &numbers);
    let answer_at = put_turn(text, turn_at, case.turn);
    let samples_at = put_numbers(text, answer_at, &answer);
    let score_at = put_numbers(text, samples_at, &outcome.samples);
    let weights_at = put_numbers(text, score_at, &scored);
    put_number(text, weights_at, score.weights, b'\n')
}
