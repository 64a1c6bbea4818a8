// The listing program's work: bytes of records go in, the bytes of the listing come out in a lent buffer.
#![tactic(auto)]

ghost use Rattle.std.specs.Prelude.{◌≡◌, true, ℤ, [], ◌∷◌, ◌+◌, ◌≤◌, ◌<◌, pos, length};
ghost use Rattle.cubemap.specs.Outcomes.{looked_up_means, look_up_values, refusal};
ghost use Rattle.cubemap.specs.Listing as paper;
ghost use Rattle.cubemap.specs.Promises.{ListingPromise};
ghost use Rattle.cubemap.proofs.Records.{passed};
ghost use Rattle.cubemap.proofs.Listings.{behind_space, refused_text, lines_from};
ghost use Rattle.listing.specs.Records.{whole_length};
ghost use Rattle.listing.specs.Texts.{Put};

use checks::ask;
use cubemap::{Located, Ray, Refusal};

// The most bytes that a listing has: the header and 10,923 refused records.
pub const LONGEST: usize = 174600;

// "Input beyond 65,536 bytes counts as absent."
pub const LIMIT: usize = 65536;

// ---- records: each function takes the input from a record's first byte on

// The number in the two bytes from index i on, little-endian.
fn two_bytes(bytes: &[u8], i: usize) -> u16
    requires { i + 2 ≤ length bytes.now }
    ensures { result ≡ paper.read_from bytes.now i 2 }
{
    u16::from_le_bytes([bytes[i], bytes[i + 1]])
}

fn four_bytes(bytes: &[u8], i: usize) -> u32
    requires { i + 4 ≤ length bytes.now }
    ensures { result ≡ paper.read_from bytes.now i 4 }
{
    u32::from_le_bytes([bytes[i], bytes[i + 1], bytes[i + 2], bytes[i + 3]])
}

// Four bytes in two's complement.
fn signed(bytes: &[u8], i: usize) -> i64
    requires { i + 4 ≤ length bytes.now }
    ensures { result ≡ paper.signed32 (paper.read_from bytes.now i 4) }
{
    i64::from(four_bytes(bytes, i).cast_signed())
}

// 16: are the six leading bytes and the body there?
#[tactic(auto, unfolding(cubemap::specs::Listing::is_whole))]
fn is_whole(bytes: &[u8]) -> bool
    ensures { result ≡ paper.is_whole bytes.now }
{
    bytes.len() >= 6 && 6 + four_bytes(bytes, 0) as usize <= bytes.len()
}

// How long a record is that is whole.
#[tactic(auto, unfolding(cubemap::specs::Listing::is_whole))]
fn whole_length(bytes: &[u8]) -> Result<usize, Refusal>
    ensures { result ≡ whole_length bytes.now }
{
    ask(is_whole(bytes), Refusal::RecordCut)?;
    Ok(6 + four_bytes(bytes, 0) as usize)
}

// The ray of a record that passes 15: its body begins at byte 6, with the format and the face size in front of the ray.
fn ray_of(bytes: &[u8]) -> Ray
    requires { 21 ≤ length bytes.now }
    ensures { result ≡ paper.record_ray bytes.now }
{
    Ray {
        x: signed(bytes, 9),
        y: signed(bytes, 13),
        z: signed(bytes, 17),
    }
}

// What a whole record comes to: 15 (kind 1 with length 15?), then the look-up's questions.
#[tactic(auto, unfolding(cubemap::specs::Listing::is_whole, cubemap::specs::Listing::is_ray_record, cubemap::specs::Listing::record_checks, cubemap::specs::Listing::record_result, cubemap::specs::Checks::first_failed))]
fn whole_result(bytes: &[u8]) -> Result<Located, Refusal>
    requires { paper.is_whole bytes.now ≡ true }
    ensures { looked_up_means result ≡ paper.record_result bytes.now }
{
    let is_ray = (two_bytes(bytes, 4) == 1) & (four_bytes(bytes, 0) == 15);
    ask(is_ray, Refusal::RecordKind)?;
    look_up::look_up(
        u64::from(two_bytes(bytes, 7)),
        u64::from(bytes[6]),
        ray_of(bytes),
    )
}

// What the first record of the input comes to, 16 and then the rest, and how many bytes to pass over: the record, or all
// that is left where it is not whole.
#[tactic(auto, unfolding(cubemap::specs::Listing::record_checks, cubemap::specs::Listing::record_result, cubemap::specs::Checks::first_failed))]
fn first_record(bytes: &[u8]) -> (Result<Located, Refusal>, usize)
    ensures found { looked_up_means result.0 ≡ paper.record_result bytes.now }
    ensures length { result.1 ≡ passed bytes.now }
{
    match whole_length(bytes) {
        Ok(length) => (whole_result(bytes), length),
        Err(refused) => (Err(refused), bytes.len()),
    }
}

// ---- text: each function stores bytes from index `at` on and says where they end

fn put_byte(text: &mut [u8], at: usize, b: u8) -> usize
    requires { at + 1 ≤ length text.old }
    ensures { Put text.old at (b ∷ []) result text.new }
{
    text[at] = b;
    at + 1
}

// A text as it stands.
pub fn put_bytes(text: &mut [u8], at: usize, more: &[u8]) -> usize
    requires { at + length more.now ≤ length text.old }
    ensures { Put text.old at more.now result text.new }
{
    let end = at + more.len();
    text[at..end].copy_from_slice(more);
    end
}

// n in decimal: the digits in front of the last one, then the last one.
fn put_decimal(text: &mut [u8], at: usize, n: u64) -> usize
    requires { at + length (paper.decimal (pos n)) ≤ length text.old }
    ensures { Put text.old at (paper.decimal (pos n)) result text.new }
{
    if n < 10 {
        return put_byte(text, at, (48 + n) as u8);
    }
    let last = put_decimal(text, at, n / 10);
    put_byte(text, last, (48 + n % 10) as u8)
}

// A number that has a text in decimal.
trait Decimal {
    ghost number: { Self → ℤ };

    // Its text.
    fn put(self, text: &mut [u8], at: usize) -> usize
        requires { at + length (paper.decimal (number self)) ≤ length text.old }
        ensures { Put text.old at (paper.decimal (number self)) result text.new };
}

impl Decimal for u64 {
    ghost number = { λ n. pos n };

    fn put(self, text: &mut [u8], at: usize) -> usize {
        put_decimal(text, at, self)
    }
}

// A negative number begins with '-'.
impl Decimal for i64 {
    ghost number = { λ z. z };

    fn put(self, text: &mut [u8], at: usize) -> usize {
        let size = self.unsigned_abs();
        if self < 0 {
            let digits = put_byte(text, at, b'-');
            return put_decimal(text, digits, size);
        }
        put_decimal(text, at, size)
    }
}

// A number behind a space.
fn put_spaced<N: Decimal>(text: &mut [u8], at: usize, n: N) -> usize
    requires { at + length (behind_space (N.number n)) ≤ length text.old }
    ensures { Put text.old at (behind_space (N.number n)) result text.new }
{
    let digits = put_byte(text, at, b' ');
    n.put(text, digits)
}

// ---- lines, behind the record's number

// Where a ray falls: face, column and row.
fn put_located(text: &mut [u8], at: usize, p: Located) -> usize
    requires { at + length (paper.spaced (look_up_values p)) ≤ length text.old }
    ensures { Put text.old at (paper.spaced (look_up_values p)) result text.new }
{
    let column = put_spaced(text, at, p.face);
    let row = put_spaced(text, column, p.column);
    let end = put_spaced(text, row, p.row);
    put_byte(text, end, b'\n')
}

// Which question refuses the record.
fn put_refused(text: &mut [u8], at: usize, refused: Refusal) -> usize
    requires { at + length (refused_text (refusal refused).number) ≤ length text.old }
    ensures { Put text.old at (refused_text (refusal refused).number) result text.new }
{
    let number = put_bytes(text, at, b" refused");
    let end = put_spaced(text, number, checks::number(refused));
    put_byte(text, end, b'\n')
}

// The line of record number k.
fn put_line(text: &mut [u8], at: usize, k: u64, found: Result<Located, Refusal>) -> usize
    requires { at + length (paper.line k (looked_up_means found)) ≤ length text.old }
    ensures { Put text.old at (paper.line k (looked_up_means found)) result text.new }
{
    let number = put_decimal(text, at, k);
    match found {
        Ok(p) => put_located(text, number, p),
        Err(refused) => put_refused(text, number, refused),
    }
}

// ---- the listing

// The lines of all records of the input. (The loop goes from record to record, and no iterator tells where one ends.)
fn put_lines(text: &mut [u8], at: usize, input: &[u8]) -> usize
    requires { at + length (lines_from 0 input.now) ≤ length text.old }
    ensures { Put text.old at (lines_from 0 input.now) result text.new }
{
    let mut end = at;
    let mut k: u64 = 0;
    let mut from = 0;
    while from < input.len() {
        let (found, length) = first_record(&input[from..]);
        end = put_line(text, end, k, found);
        from += length;
        k += 1;
    }
    end
}

// The listing of the input at the start of a buffer that has room for any; the answer is its length.
pub fn list(input: &[u8], text: &mut [u8; LONGEST]) -> usize
    ensures { ListingPromise input.entry.now text.old result input.exit.now text.new }
{
    let lines = put_bytes(text, 0, b"at face column row\n");
    if input.len() <= LIMIT {
        put_lines(text, lines, input)
    } else {
        put_lines(text, lines, &input[..LIMIT])
    }
}
