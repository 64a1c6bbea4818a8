// T + 32 along a stretch in ACP, by reciprocals of the distances.
ghost use Rattle.std.specs.Prelude.{◌≡◌, true, ◌≤◌, length};
ghost use Rattle.positions.specs.RayLines.{sum_line, Positioned};
ghost use Rattle.stretches.specs.Found.{Found};
ghost use Rattle.stretches.specs.Numbers.{Numbers};

use crate::numbers::line_numbers;
use crate::{RayStretch, Tables};
use cubemap::Format;
use positions::LineStretch;
use reciprocals::{DistanceTable, ReciprocalTable};

// T + 32 in ACP of each column of a part of a stretch in the place of its sum: by the reciprocals, or by division where
// a bracket does not tell.
fn acp_part(stretch: LineStretch<'_>, divisors: ReciprocalTable<'_>, table: &mut [u32])
    requires numbers { Numbers stretch.distance stretch.coordinates.now divisors.distances.now
        × Numbers (sum_line stretch.line stretch.distance) stretch.coordinates.now table.old }
    requires lengths { (length divisors.distances.now ≡ length stretch.coordinates.now)
        × (length table.old ≡ length stretch.coordinates.now) }
    ensures { Positioned Format.Acp stretch.entry.size stretch.entry.line stretch.entry.distance
        stretch.entry.coordinates.now table.new
        × (length table.new ≡ length table.old) }
{
    if !adjusted::adjusted_positions(stretch.size, divisors, table) {
        stretch.divide(Format::Acp, table);
    }
}

// T + 32 in ACP of each column of a stretch, for one number of its rays, in parts of 64 columns: a bracket that does
// not tell costs the divisions of one part.
fn acp_line(stretch: LineStretch<'_>, divisors: ReciprocalTable<'_>, table: &mut [u32])
    requires { Numbers stretch.distance stretch.coordinates.now divisors.distances.now
        × (length divisors.distances.now ≡ length stretch.coordinates.now)
        × (length stretch.coordinates.now ≤ length table.old) }
    ensures { Positioned Format.Acp stretch.entry.size stretch.entry.line stretch.entry.distance
        stretch.entry.coordinates.now table.new × (length table.new ≡ length table.old) }
{
    let sums = stretch.line.plus(stretch.distance);
    line_numbers(sums, stretch.coordinates, table);
    let count = stretch.coordinates.len();
    for k in 0..count.div_ceil(64) {
        let from = 64 * k;
        let to = count.min(from + 64);
        acp_part(
            stretch.part(from, to),
            divisors.part(from, to),
            &mut table[from..to],
        );
    }
}

// T + 32 in ACP of each column of a stretch, and of its row: the distances and their reciprocals serve both. False
// where the columns are few, or the reciprocal of one distance is not confirmed.
pub fn by_reciprocals(stretch: RayStretch<'_>, tables: &mut Tables) -> bool
    ensures { result ≡ true → Found Format.Acp stretch.entry tables.new }
{
    let count = stretch.coordinates.len();
    if count < 16 {
        return false;
    }
    let all_distances = &mut tables.distances[..];
    let distances = &mut all_distances[..count];
    let all_reciprocals = &mut tables.reciprocals[..];
    let reciprocals = &mut all_reciprocals[..count];
    line_numbers(stretch.lines.distance, stretch.coordinates, distances);
    match reciprocals::reciprocals_of(DistanceTable { each: distances }, reciprocals) {
        None => false,
        Some(shift) => {
            let divisors = ReciprocalTable {
                shift,
                distances,
                reciprocals,
            };
            acp_line(stretch.across(), divisors, &mut tables.columns);
            acp_line(stretch.down(), divisors, &mut tables.rows);
            true
        }
    }
}
