// Frames in code: samples, planes and layouts.
#![tactic(auto)]

ghost use Rattle.std.specs.Prelude.{◌≡◌, ◌+◌, ◌*◌, ◌^◌, ◌≤◌, ◌<◌, T, length, MatchOption};
ghost use Rattle.std.proofs.lemmas.List.Edits.{sets};
ghost use Rattle.cubemap.specs.Interface.{little_endian};
ghost use Rattle.cubemap.specs.Frames.{sample_at, plane_samples, layout_bytes, face_in, quarter_turns_in, slot_of};
ghost use Rattle.cubemap.specs.Checks.{depth_ok};
ghost use Rattle.frame.specs.LumaPlane.{luma_of};

use cubemap::Layout;

// ---- samples

// The sample at an index.
pub fn sample(bytes: &[u8], index: usize) -> u64
    requires { 2 * index + 1 < length bytes.now }
    ensures { (result ≡ sample_at bytes.now index) × (result < 65536) }
{
    u64::from(u16::from_le_bytes([bytes[2 * index], bytes[2 * index + 1]]))
}

// Stores a sample at an index. Every other byte stays.
pub fn put_sample(bytes: &mut [u8], index: usize, value: u64)
    requires { 2 * index + 1 < length bytes.old }
    ensures { bytes.new ≡ sets bytes.old (2 * index) (little_endian 2 value) }
{
    let [low, high, ..] = value.to_le_bytes();
    bytes[2 * index] = low;
    bytes[2 * index + 1] = high;
}

// 2^D: samples within the depth are below it.
pub fn sample_bound(depth: u64) -> u64
    requires { T (depth_ok depth) }
    ensures { (result ≡ 2 ^ depth) × (result ≤ 4096) }
{
    1 << depth
}

// ---- planes

// Where luma ends in the bytes of a frame.
pub fn luma_end(size: u64) -> usize
    requires { size ≤ 512 }
    ensures { (result ≡ 2 * plane_samples size) × (result ≤ 3145728) }
{
    (12 * size * size) as usize
}

// Luma, the first plane of a frame, as the part of its bytes that it is.
pub fn luma(bytes: &[u8], size: u64) -> &[u8]
    requires { (size ≤ 512) × (2 * plane_samples size ≤ length bytes.now) }
    ensures { result.now ≡ luma_of size bytes.now }
{
    let end = luma_end(size);
    &bytes[0..end]
}

// ---- layouts

// The layout of 12 bytes, taken apart.
pub fn layout_of(bytes: &[u8]) -> Layout
    requires { length bytes.now ≡ 12 }
    ensures { layout_bytes result ≡ bytes.now }
{
    Layout {
        faces: [bytes[0], bytes[1], bytes[2], bytes[3], bytes[4], bytes[5]],
        turns: [bytes[6], bytes[7], bytes[8], bytes[9], bytes[10], bytes[11]],
    }
}

// The face in a slot.
pub fn face_in(layout: Layout, slot: u64) -> u64
    requires { slot < 6 }
    ensures { result ≡ face_in (layout_bytes layout) slot }
{
    u64::from(layout.faces[slot as usize])
}

// The count of quarter turns of a slot.
pub fn turns_in(layout: Layout, slot: u64) -> u64
    requires { slot < 6 }
    ensures { result ≡ quarter_turns_in (layout_bytes layout) slot }
{
    u64::from(layout.turns[slot as usize])
}

// The slot that holds a face.
pub fn slot_of(layout: Layout, face: u64) -> Option<u64>
    ensures { MatchOption result (slot_of (layout_bytes layout) face ≡ 6)
        (λ slot. (slot ≡ slot_of (layout_bytes layout) face) × (slot < 6)) }
{
    for slot in 0..6 {
        if face_in(layout, slot) == face {
            return Some(slot);
        }
    }
    None
}
