// Tests of a possible state at the arcs: those that leave unreached nodes have no key, and the others have one or are relaxed.
ghost use Rattle.std.specs.Prelude.{◌≡◌, ◌<◌};
ghost use Rattle.indices.specs.Tests.{all};
ghost use Rattle.sheet.specs.Sections.{arc_count};
ghost use Rattle.table_possible.specs.Held.{arc_held};

use sheet::Arc;
use table::lent::LongTable;

// Whether an arc has no key if its tail is unreached, and else a key or no higher label at its head than it gives.
#[tactic(auto, using(crate::proofs::arcs::Checked::arc_steps), unfolding(sheet::specs::Words::top))]
fn arc_held(long: &LongTable, a: Arc) -> bool
    requires { a.0 < arc_count long.now.table.sheet.now }
    ensures { result ≡ arc_held long.now.table.sheet.now long.now.table.words.now a.0 }
{
    let keyed = long.has_key(a);
    let from = long.table.label(long.table.sheet.tail(a));
    if from == sheet::NONE {
        return !keyed;
    }
    keyed || table_shortest::arcs::arc_relaxed(&long.table, a)
}

// Whether every arc is so.
pub fn arcs_held(long: &LongTable) -> bool
    ensures { result ≡ all (arc_held long.now.table.sheet.now long.now.table.words.now) (arc_count long.now.table.sheet.now) }
{
    (0..long.table.sheet.arcs() as u16).all(|a| arc_held(long, Arc(a)))
}
