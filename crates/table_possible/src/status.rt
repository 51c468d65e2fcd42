// The test of a possible state's status: it is ended exactly when nothing has a key.
ghost use Rattle.std.specs.Prelude.{◌≡◌};
ghost use Rattle.indices.specs.Tests.{any};
ghost use Rattle.sheet.specs.Sections.{arc_count};
ghost use Rattle.procedure.specs.OfSheet.{graph_of};
ghost use Rattle.calls.specs.LongTables.{has_key};
ghost use Rattle.calls.specs.Possible.{status_test};

use sheet::Arc;
use table::lent::LongTable;

// Whether something has a key.
fn some_key(long: &LongTable) -> bool
    ensures { result ≡ any (has_key (graph_of long.now.table.sheet.now) long.now.table.words.now) (arc_count long.now.table.sheet.now) }
{
    (0..long.table.sheet.arcs() as u16).any(|a| long.has_key(Arc(a)))
}

// Whether the status is 0 if something has a key, and else 1.
#[tactic(auto, using(procedure::proofs::OfSheet::graph_arcs), unfolding(calls::specs::Possible::status_test))]
pub fn status_held(long: &LongTable) -> bool
    ensures { result ≡ status_test (graph_of long.now.table.sheet.now) long.now.table.words.now }
{
    let status = table::read::status_of(long.table.words);
    if some_key(long) {
        status == 0
    } else {
        status == 1
    }
}
