// The bytes that the calls are lent, and what is read of the target behind them: the source's samples, the target's
// bytes, layouts.
ghost use Rattle.std.specs.Prelude.{◌≡◌, ◌*◌, ◌/◌, ◌%◌, ◌^◌, ◌≤◌, ◌<◌, length};

use crate::Damage;
use cubemap::{Place, Shape};

// The largest prime below 2^32: digests are counted modulo this.
const MODULUS: u64 = 4294967291;

// ---- the source's samples

// 2^D: samples within the depth are below it.
fn levels(depth: u64) -> u64
    requires { depth < 16 }
    ensures { (result ≡ 2 ^ depth) × (1 ≤ result) }
{
    1 << depth
}

// The sample at an index of an undamaged source: the index, spread over the levels.
fn sample_of(i: u64, depth: u64) -> u64
    requires { (i < 2 ^ 32) × (depth < 16) }
    ensures { result ≡ i * 2654435761 / 65536 % 2 ^ depth }
{
    i * 2654435761 / 65536 % levels(depth)
}

// The sample at an index of a source of so many samples, with damages 5 and 6.
fn damaged_sample(i: u64, samples: u64, depth: u64, damage: Damage) -> u64
    requires { (i < samples) × (samples < 2 ^ 32) × (depth < 16) }
{
    match damage {
        Damage::LastSamples if samples <= i + 2 => levels(depth),
        Damage::FirstSample if i == 0 => 65535,
        _ => sample_of(i, depth),
    }
}

// Fills the source with its samples, and puts a 0 behind them.
pub fn fill_source(source: &mut [u8], samples: usize, depth: u64, damage: Damage)
    requires { (2 * samples < length source.old) × (samples < 2 ^ 32) × (depth < 16) }
{
    for i in 0..samples {
        let sample = damaged_sample(i as u64, samples as u64, depth, damage);
        frame::put_sample(source, i, sample);
    }
    source[2 * samples] = 0;
}

// ---- the target's bytes

// The digest of all bytes, in order.
pub fn digest_of(bytes: &[u8]) -> u64
    ensures { result < 4294967291 }
{
    let mut h: u64 = 0;
    for &b in bytes {
        h = (h * 257 + u64::from(b) + 1) % MODULUS;
    }
    h
}

// The sample at column 0 in the last row of a face, read through a view of the frame; 0 where shape, layout and bytes
// are not those of a frame.
fn corner_sample(shape: Shape, layout: &[u8], bytes: &[u8], face: u64) -> u64
    requires { face < 6 }
{
    let size = checks::size_ok(shape.size);
    let whole = size & checks::layout_ok(layout) & checks::length_ok(shape, bytes.len());
    if !whole {
        return 0;
    }
    let corner = Place {
        face,
        column: 0,
        row: shape.size - 1,
    };
    view::read_sample(bytes, shape, frame::layout_of(layout), corner)
}

// The corner samples of the six faces.
pub fn corner_samples(shape: Shape, layout: &[u8], bytes: &[u8]) -> [u64; 6] {
    let mut samples = [0; 6];
    for (face, sample) in samples.iter_mut().enumerate() {
        *sample = corner_sample(shape, layout, bytes, face as u64);
    }
    samples
}

// ---- layouts

// The bytes that are lent: the faces of the six slots, then their quarter turns.
pub fn layout(number: u64) -> &'static [u8] {
    match number {
        0 => &[4, 0, 5, 3, 1, 2, 0, 0, 0, 1, 1, 1],
        1 => &[0, 1, 2, 3, 4, 5, 0, 0, 0, 0, 0, 0],
        2 => &[5, 4, 3, 2, 1, 0, 0, 1, 2, 3, 0, 1],
        3 => &[2, 0, 4, 1, 5, 3, 3, 3, 2, 2, 1, 1],
        4 => &[0, 1, 2, 3, 4, 4, 0, 0, 0, 0, 0, 0],
        5 => &[0, 1, 2, 3, 4, 5, 0, 0, 0, 0, 0, 4],
        _ => &[0, 1, 2, 3, 4, 5, 0, 0, 0, 0, 0],
    }
}
