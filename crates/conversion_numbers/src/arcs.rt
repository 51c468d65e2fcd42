// The arcs of a sheet that are kept, under their new numbers.
ghost use Rattle.std.specs.Prelude.{◌≡◌, ◌≤◌};
ghost use Rattle.sheet.specs.Limits.{most_arcs};
ghost use Rattle.sheet.specs.Sections.{arc_count};
ghost use Rattle.conversion.specs.Converted.{kept_arc, new_arc};
ghost use Rattle.conversion.specs.Inner.{Numbers};
ghost use Rattle.conversion_numbers.specs.Numbers.{number_of};

use sheet::located::Sheet;
use sheet::{ARC_NUMBERS, Arc};

// Enters the new number of each arc that is kept, and `DROPPED` for a self-arc. How many are kept.
pub fn number_arcs(s: &Sheet, numbers: &mut [u16; ARC_NUMBERS]) -> u16
    requires { arc_count s.now ≤ most_arcs }
    ensures { Numbers (number_of (kept_arc s.now)) numbers.new (arc_count s.now)
        × (result ≡ new_arc s.now (arc_count s.now)) }
{
    crate::number(
        numbers,
        s.arcs(),
        |a| !judge_arcs::self_arcs::self_arc(s, Arc(a as u16)),
    )
}
