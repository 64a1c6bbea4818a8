// The groups of conversions, each counted from 0.
ghost use Rattle.std.specs.Prelude.{◌≡◌, ◌<◌};

use crate::{Case, Damage};
use cubemap::Rotation;

// A turn by its four numbers.
pub fn turn_of(e0: i64, e1: i64, e2: i64, e3: i64) -> Rotation {
    Rotation { e0, e1, e2, e3 }
}

// A turn that takes no axis onto an axis.
fn oblique_turn() -> Rotation {
    turn_of(29, 3, 7, -5)
}

// A conversion with all codes 0 and no damage. (Codes are numbers: those that name nothing are tried too.)
fn plain(
    source_size: u64,
    target_size: u64,
    depth: u64,
    source_layout: u64,
    target_layout: u64,
    turn: Rotation,
) -> Case
    requires { depth < 16 }
    ensures { result.depth ≡ depth }
{
    Case {
        source_size,
        target_size,
        depth,
        source_format: 0,
        target_format: 0,
        sampler: 0,
        source_layout,
        target_layout,
        turn,
        damage: Damage::None,
    }
}

// The conversion with the codes of a mix, 0 to 7: its three bits.
fn mixed(mut case: Case, mix: u64) -> Case
    ensures { result.depth ≡ case.depth }
{
    case.source_format = mix % 2;
    case.target_format = mix / 2 % 2;
    case.sampler = mix / 4;
    case
}

// Group 1: each size to itself and to the next one, with each mix.
pub fn size_case(i: u64) -> Case {
    let sizes = [0, 1, 2, 3, 511, 512, 513];
    let first = (i / 16 % 7) as usize;
    let second = ((i / 16 + i / 8 % 2) % 7) as usize;
    mixed(
        plain(sizes[first], sizes[second], 10, 0, 2, oblique_turn()),
        i % 8,
    )
}

// Group 2: both ends of the range of depths and one beyond each, with each mix, to a smaller target and to one of the
// same size.
pub fn depth_case(i: u64) -> Case {
    let depth = match i / 8 % 4 {
        0 => 7,
        1 => 8,
        2 => 12,
        _ => 13,
    };
    mixed(plain(3, 2 + i / 32, depth, 0, 1, oblique_turn()), i % 8)
}

// Group 3: both ends of the range of a turn's numbers and one beyond each, at each position, with mixes 0 and 7.
pub fn turn_number_case(i: u64) -> Case {
    let numbers = [-32, -31, 31, 32];
    let mut e = [5, -3, 2, 1];
    let position = (i / 8 % 4) as usize;
    let number = (i / 2 % 4) as usize;
    e[position] = numbers[number];
    let turn = turn_of(e[0], e[1], e[2], e[3]);
    mixed(plain(3, 3, 12, 1, 3, turn), i % 2 * 7)
}

// Group 4: each layout with each, to a smaller target and to one of the same size.
pub fn layout_case(i: u64) -> Case {
    mixed(plain(3, 2 + i / 49, 8, i / 7 % 7, i % 7, oblique_turn()), 6)
}

// A turn of group 5: it takes each axis onto an axis.
fn whole_cube_turn(i: u64) -> Rotation {
    match i {
        0 => turn_of(1, 0, 0, 0),
        1 => turn_of(1, 1, 0, 0),
        2 => turn_of(1, 0, -1, 0),
        3 => turn_of(0, 0, 0, 3),
        4 => turn_of(1, 1, 1, 1),
        5 => turn_of(0, 1, -1, 0),
        6 => turn_of(-2, 0, 0, 2),
        _ => turn_of(1, -1, 1, -1),
    }
}

// Group 5: whole-cube turns, with mixes 0, 3, 4 and 7.
pub fn whole_cube_case(i: u64) -> Case {
    let mixes = [0, 3, 4, 7];
    let mix = (i % 4) as usize;
    mixed(plain(3, 3, 12, 0, 3, whole_cube_turn(i / 4)), mixes[mix])
}

// Group 6: each damage, to a smaller target and to one of the same size.
pub fn damage_case(i: u64) -> Case {
    let damages = [
        Damage::SourceShort,
        Damage::SourceLong,
        Damage::TargetShort,
        Damage::TargetLong,
        Damage::LastSamples,
        Damage::FirstSample,
    ];
    let mut case = mixed(plain(3, 2 + i / 6, 8, 2, 1, oblique_turn()), 5);
    case.damage = damages[(i % 6) as usize];
    case
}

// Group 7: codes that name nothing, and the zero turn.
pub fn code_case(i: u64) -> Case {
    let mut case = plain(3, 2, 8, 0, 0, oblique_turn());
    match i {
        0 => case.source_format = 2,
        1 => case.target_format = 2,
        2 => case.sampler = 2,
        _ => case.turn = turn_of(0, 0, 0, 0),
    }
    case
}

// Is this size outside its range?
fn outside(size: u64) -> bool {
    !(1..=512).contains(&size)
}

// Is this conversion left out? Where a size is outside its range, only mix 0 is tried.
pub fn left_out(case: Case) -> bool {
    let mix = (case.source_format != 0) | (case.target_format != 0) | (case.sampler != 0);
    mix & (outside(case.source_size) | outside(case.target_size))
}
