// T + 32 along a stretch of rays on one face, for the columns and for the rows: guessed and confirmed, or by division
// where a guess is not confirmed.
#![tactic(auto)]

ghost use Rattle.stretches.specs.Found.{Found};

use cubemap::Format;

mod acp;
mod cmp;
mod numbers;
mod rays;
mod tables;

pub use rays::RayStretch;
pub use tables::Tables;

// T + 32 of each column of a stretch, and of its row, by division.
fn divide(stretch: RayStretch<'_>, tables: &mut Tables)
    ensures { Found stretch.entry.format stretch.entry tables.new }
{
    stretch.across().divide(stretch.format, &mut tables.columns);
    stretch.down().divide(stretch.format, &mut tables.rows);
}

// T + 32 of each column of a stretch, and of its row. The other tables are scratch.
pub fn positions_on_face(stretch: RayStretch<'_>, tables: &mut Tables)
    ensures { Found stretch.entry.format stretch.entry tables.new }
{
    let found = match stretch.format {
        Format::Cmp => cmp::plain_stretch(stretch, tables),
        Format::Acp => acp::by_reciprocals(stretch, tables),
    };
    if !found {
        divide(stretch, tables);
    }
}
