// Position of an index along a dimension at level 0.
#![tactic(auto)]

ghost use Rattle.std.specs.Prelude.{◌≡◌};
ghost use Rattle.positions.specs.Positions.{position_answer, PositionNear};

use checks::check14;
use record::{Record, Refusal};

// Where an index stands along a dimension. Orig and inc are the grid's; that they are finite is part of check 14.
pub fn position(r: Record, dimension: u32, index: u32) -> Result<f64, Refusal>
    ensures answer { result ≡ position_answer r dimension index }
    ensures near { PositionNear r dimension index result }
{
    if check14(r) {
        return Err(Refusal::Record);
    }
    let along = dimension as usize;
    // Each array is taken out before it is indexed: an index into the record itself would copy it whole.
    let size = r.description.size;
    if 3 <= dimension || size[along] <= index {
        return Err(Refusal::Index);
    }
    let orig = r.grid.orig;
    let inc = r.grid.inc;
    Ok(floats::position(orig[along], inc[along], index))
}
