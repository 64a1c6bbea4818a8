// The six calls of fold, equal and look_up, each with its line.
ghost use Rattle.std.specs.Prelude.{◌≡◌, ◌+◌, ◌*◌, ◌/◌, ◌≤◌, length};

use crate::LINE;
use crate::cases::turn_of;
use cubemap::{Ray, Rotation};

// A call, and the numbers that it is given.
#[derive(Clone, Copy)]
pub enum Call {
    Fold(Rotation, Rotation),
    Equal(Rotation, Rotation),
    LookUp { size: u64, format: u64, ray: Ray },
}

// What stands behind a number: the line's end behind the last one, else a space.
fn behind(last: bool) -> u8 {
    if last { b'\n' } else { b' ' }
}

// What a call came to: the number of its refusal and the index, the numbers in its answer buffer, and the line's end.
fn put_outcome(text: &mut [u8], at: usize, code: u64, answer: &[u8]) -> usize
    requires { at + 42 + 21 * (length answer.now / 8) ≤ length text.old }
    ensures { result ≤ at + 42 + 21 * (length answer.now / 8) }
{
    let count = answer.len() / 8;
    let mut end = crate::lines::put_numbers(text, at, &[code % 256, code / 256]);
    for i in 0..count {
        let z = crate::conversions::number_at(answer, 8 * i).cast_signed();
        end = crate::lines::put_number(text, end, z, behind(i + 1 == count));
    }
    end
}

// The numbers of two turns.
fn put_turns(text: &mut [u8], at: usize, first: Rotation, second: Rotation) -> usize
    requires { at + 168 ≤ length text.old }
    ensures { result ≤ at + 168 }
{
    let second_at = crate::lines::put_turn(text, at, first);
    crate::lines::put_turn(text, second_at, second)
}

// The fold of two turns: its code.
fn fold(first: Rotation, later: Rotation, answer: &mut [u8]) -> u64 {
    welchodrys::welchodrys_fold(
        first.e0, first.e1, first.e2, first.e3, later.e0, later.e1, later.e2, later.e3, answer,
    )
}

// The line of a fold.
fn put_fold(text: &mut [u8; LINE], first: Rotation, later: Rotation) -> usize
    ensures { result ≤ 572 }
{
    let mut answer = [0u8; 32];
    let code = fold(first, later, &mut answer);
    let turns_at = listing::put_bytes(text, 0, b"fold ");
    let outcome_at = put_turns(text, turns_at, first, later);
    put_outcome(text, outcome_at, code, &answer)
}

// The test whether two turns are equal: its code. (It and `fold` are two calls as C sees them, number by number.)
fn equal(first: Rotation, second: Rotation, answer: &mut [u8]) -> u64 {
    welchodrys::welchodrys_equal(
        first.e0, first.e1, first.e2, first.e3, second.e0, second.e1, second.e2, second.e3, answer,
    )
}

// The line of a test whether two turns are equal.
fn put_equal(text: &mut [u8; LINE], first: Rotation, second: Rotation) -> usize
    ensures { result ≤ 572 }
{
    let mut answer = [0u8; 8];
    let code = equal(first, second, &mut answer);
    let turns_at = listing::put_bytes(text, 0, b"equal ");
    let outcome_at = put_turns(text, turns_at, first, second);
    put_outcome(text, outcome_at, code, &answer)
}

// A ray's three numbers.
fn put_ray(text: &mut [u8], at: usize, ray: Ray) -> usize
    requires { at + 63 ≤ length text.old }
    ensures { result ≤ at + 63 }
{
    crate::lines::put_numbers(text, at, &[ray.x, ray.y, ray.z])
}

// The line of a look-up.
fn put_look_up(text: &mut [u8; LINE], size: u64, format: u64, ray: Ray) -> usize
    ensures { result ≤ 572 }
{
    let mut answer = [0u8; 24];
    let code = welchodrys::welchodrys_look_up(size, format, ray.x, ray.y, ray.z, &mut answer);
    let cube_at = listing::put_bytes(text, 0, b"look_up ");
    let ray_at = crate::lines::put_numbers(text, cube_at, &[size, format]);
    let outcome_at = put_ray(text, ray_at, ray);
    put_outcome(text, outcome_at, code, &answer)
}

impl Call {
    // The call's line.
    pub fn put(self, text: &mut [u8; LINE]) -> usize
        ensures { result ≤ 572 }
    {
        match self {
            Call::Fold(first, later) => put_fold(text, first, later),
            Call::Equal(first, second) => put_equal(text, first, second),
            Call::LookUp { size, format, ray } => put_look_up(text, size, format, ray),
        }
    }
}

// The six calls. The first three are the paper's P9, P10 and P11. In each of the last three, an exchange of two numbers
// of one type changes what comes out. So does an exchange of fold's two turns; an exchange of equal's two turns cannot
// show, because equality is symmetric.
pub fn calls() -> [Call; 6] {
    let about_x = turn_of(1, 1, 0, 0);
    let about_y = turn_of(1, 0, 1, 0);
    let long = turn_of(31, 1, 0, 0);
    [
        Call::Fold(about_x, about_y),
        Call::Fold(about_y, about_x),
        Call::Fold(long, long),
        Call::Fold(turn_of(1, 2, 3, 4), turn_of(5, 6, 7, 8)),
        Call::Equal(turn_of(1, 2, 4, 5), turn_of(-3, -6, -12, -15)),
        Call::LookUp {
            size: 4,
            format: 1,
            ray: Ray { x: 10, y: -3, z: 9 },
        },
    ]
}
