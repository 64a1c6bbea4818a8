// T + 32 along a stretch in CMP: guessed and confirmed.
ghost use Rattle.std.specs.Prelude.{◌≡◌, true};
ghost use Rattle.stretches.specs.Found.{Found};

use crate::numbers::walk_from;
use crate::{RayStretch, Tables};
use cubemap::Format;
use plain::EvenStretch;

// T + 32 in CMP of each column of a stretch, and of its row; false where they are not evenly spaced, or few, or where a
// guess is not confirmed.
pub fn plain_stretch(stretch: RayStretch<'_>, tables: &mut Tables) -> bool
    ensures { result ≡ true → Found Format.Cmp stretch.entry tables.new }
{
    let count = stretch.coordinates.len();
    if !stretch.evenly || count < 32 {
        return false;
    }
    let a = stretch.coordinates[0];
    let lines = stretch.lines;
    let even = EvenStretch {
        size: stretch.size,
        columns: walk_from(lines.across.plus(lines.distance), a),
        rows: walk_from(lines.down.plus(lines.distance), a),
        distances: walk_from(lines.distance, a),
        count,
    };
    plain::plain_positions(
        even,
        &mut tables.guesses,
        &mut tables.columns,
        &mut tables.rows,
    )
}
