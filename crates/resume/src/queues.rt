// The queues of a run, rebuilt out of the key words of a longer table: every tree is built once, without a key, and then each keyed arc is updated with its
// tail's label, in arc order. These updates are not counted.
ghost use Rattle.std.specs.Prelude.{◌+◌};
ghost use Rattle.procedure.specs.Graph.{arcs};
ghost use Rattle.procedure.specs.OfSheet.{graph_of, division_of};
ghost use Rattle.procedure.specs.Table.{updates_place};
ghost use Rattle.calls.specs.Tables.{count_in};
ghost use Rattle.calls.specs.LongTables.{state_in};
ghost use Rattle.resume.specs.Keys.{Keyless, queues_up_to, KeysUpTo, KeyNext, LeavesQueues};

use run_arrays::arrays::{Layout, Run};
use sheet::Arc;
use table::lent::LongTable;

// The key of arc a is entered, if its word says that it has one. How many updates there were.
fn enter_key(long: &LongTable, layout: &Layout, run: &mut Run, a: Arc, count: u64) -> u64
    requires { let table = long.now.table in KeyNext table.sheet.now layout.now table.words.now run.old a.0 count }
    ensures { let table = long.now.table in LeavesQueues (graph_of table.sheet.now) (division_of table.sheet.now)
        (queues_up_to table.sheet.now table.words.now (a.0 + 1)) layout.now run.old run.new result }
{
    if !long.has_key(a) {
        return count;
    }
    let key = run.label(layout.tail(a));
    run_engine::updates::update_arc(layout, &mut run.keys, a, key, count)
}

// The keys of all arcs are entered. How many updates there were.
fn enter_keys(long: &LongTable, layout: &Layout, run: &mut Run) -> u64
    requires { let table = long.now.table in KeysUpTo table.sheet.now layout.now table.words.now run.old 0 0 }
    ensures { let table = long.now.table in LeavesQueues (graph_of table.sheet.now) (division_of table.sheet.now)
        (queues_up_to table.sheet.now table.words.now (arcs (graph_of table.sheet.now))) layout.now run.old run.new result }
{
    let mut count: u64 = 0;
    for a in 0..layout.arcs {
        count = enter_key(long, layout, run, Arc(a), count);
    }
    count
}

// The queues that the table stands for, in a run with its labels and no own key; winners may hold anything. There are `count` regions.
pub fn rebuild(long: &LongTable, layout: &Layout, run: &mut Run, count: u16)
    requires { let table = long.now.table in Keyless table.sheet.now layout.now table.words.now run.old count }
    ensures { let table = long.now.table in LeavesQueues (graph_of table.sheet.now) (division_of table.sheet.now)
        (state_in (graph_of table.sheet.now) (division_of table.sheet.now) table.words.now).queues
        layout.now run.old run.new (count_in table.words.now updates_place) }
{
    run_queue::building::clear(&layout.rows, &layout.heights, &mut run.keys.winners, count);
    let _updates = enter_keys(long, layout, run);
}
