// Runs a fixed list of conversions through the five calls, scores the source against each target, and prints a line for
// each, so that what the part gives can be compared byte by byte with what a program that was written from the paper
// gives. The conversions try each number of a call at the ends of its range and beyond them, each layout with each,
// whole-cube turns, and damaged buffers. Six calls of fold, equal and look_up follow: with two parameters of such a
// call exchanged, another text is printed.
//
// Behind a heading, the line of a conversion holds 26 numbers: source size, target size, depth, source format, target
// format, sampler, source layout, target layout, the turn's four numbers, damage; then what the conversion answered,
// the number of its refusal (0 where there is none) and the index, the digest of the target's bytes after the call, and
// six single samples of it, one of each face; then what a score of the source against the target answered, with the
// source's size, depth and format: the number of its refusal and the index, and the two numbers in its answer buffer,
// which are 0 where it wrote none.
//
// Layouts: 0 is the usual one; 1, 2 and 3 are valid too; 4 has a face twice, 5 a slot turned four times, 6 only eleven
// bytes.
//
// Damage: 0 none; 1 the source is lent one byte short, 2 one byte more, which is 0; 3 the target is lent one byte
// short, 4 one byte more; 5 the source's last two samples are 2^D; 6 its first sample is 65535.
//
// Behind a second heading, the line of one of the six calls holds its name, the numbers that it was given, the number
// of its refusal and the index, and the numbers in its answer buffer, which are 0 where it wrote none: four of fold,
// one of equal, three of look_up.
#![tactic(auto)]

ghost use Rattle.std.specs.Prelude.{◌<◌};

use cubemap::Rotation;
use std::io;
use std::process::ExitCode;

mod calls;
mod cases;
mod conversions;
mod lines;
mod samples;

// The most bytes that are lent: a frame of face size 512 and one byte more.
const ROOM: usize = 3145729;

// The most bytes of a line, which a conversion's has: 26 numbers, each with a sign, 20 digits and the byte behind them.
const LINE: usize = 572;

// What is wrong with a conversion's buffers, by its number in the line.
#[derive(Clone, Copy, PartialEq, Eq)]
enum Damage {
    None = 0,
    SourceShort = 1,
    SourceLong = 2,
    TargetShort = 3,
    TargetLong = 4,
    LastSamples = 5,
    FirstSample = 6,
}

// One conversion, and what is wrong with its buffers.
#[derive(Clone, Copy)]
struct Case {
    source_size: u64,
    target_size: u64,
    depth: u64,
    source_format: u64,
    target_format: u64,
    sampler: u64,
    source_layout: u64,
    target_layout: u64,
    turn: Rotation,
    damage: Damage,
    ghost shallow: { depth < 16 },
}

// What a score came to: the code that the call returned and the two numbers of its answer.
#[derive(Clone, Copy)]
struct ScoreOutcome {
    code: u64,
    errors: u64,
    weights: u64,
}

// What a conversion came to: the code that the call returned, the digest of the target and six of its samples, and the
// score of the source against it.
#[derive(Clone, Copy)]
struct Outcome {
    code: u64,
    digest: u64,
    samples: [u64; 6],
    score: ScoreOutcome,
}

// ---- printing: each function fails where not all was written

// Runs a conversion, and prints its line.
fn print_case(
    rt: &impl Print,
    case: Case,
    source: &mut [u8; ROOM],
    target: &mut [u8; ROOM],
) -> io::Result<()> {
    let mut text = [0u8; LINE];
    let end = lines::put_line(&mut text, case, conversions::run(case, source, target));
    rt.write_all(&text[..end])
}

// All lines of a group of so many conversions.
fn print_group<F: Fn(u64) -> Case>(
    rt: &impl Print,
    count: u64,
    case_at: F,
    source: &mut [u8; ROOM],
    target: &mut [u8; ROOM],
) -> io::Result<()>
    requires { F.IsAlwaysCallable case_at }
{
    for i in 0..count {
        let case = case_at(i);
        if !cases::left_out(case) {
            print_case(rt, case, source, target)?;
        }
    }
    Ok(())
}

// The heading of the conversions, then the seven groups.
fn print_conversions(
    rt: &impl Print,
    source: &mut [u8; ROOM],
    target: &mut [u8; ROOM],
) -> io::Result<()> {
    rt.write_all(
        b"source target depth formats sampler layouts turn damage number index digest samples score score-index errors weights\n",
    )?;
    print_group(rt, 112, cases::size_case, source, target)?;
    print_group(rt, 64, cases::depth_case, source, target)?;
    print_group(rt, 32, cases::turn_number_case, source, target)?;
    print_group(rt, 98, cases::layout_case, source, target)?;
    print_group(rt, 32, cases::whole_cube_case, source, target)?;
    print_group(rt, 12, cases::damage_case, source, target)?;
    print_group(rt, 4, cases::code_case, source, target)
}

// The heading of the six calls, then their lines.
fn print_calls(rt: &impl Print) -> io::Result<()> {
    rt.write_all(b"call parameters number index answer\n")?;
    for call in calls::calls() {
        let mut text = [0u8; LINE];
        let end = call.put(&mut text);
        rt.write_all(&text[..end])?;
    }
    Ok(())
}

// Both parts.
fn print_all(rt: &impl Print, source: &mut [u8; ROOM], target: &mut [u8; ROOM]) -> io::Result<()> {
    print_conversions(rt, source, target)?;
    print_calls(rt)
}

fn main(rt: HostRuntime) -> ExitCode {
    let mut source = [0u8; ROOM];
    let mut target = [0u8; ROOM];
    match print_all(&rt, &mut source, &mut target) {
        Ok(()) => ExitCode::SUCCESS,
        Err(error) => {
            let _ = eprintln!(rt; "conformance: standard output: {error}");
            ExitCode::FAILURE
        }
    }
}
