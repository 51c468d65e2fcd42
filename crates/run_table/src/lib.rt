// From a run that represents a state to the table of the state that so many rounds more reach, in the form whose length the table has.
#![tactic(auto)]

ghost use Rattle.std.specs.Prelude.{◌≡◌, List, ◌++◌, ℕ, ◌-◌, length, take};
ghost use Rattle.procedure.specs.OfSheet.{graph_of, division_of, spans_of};
ghost use Rattle.procedure.specs.State.{State};
ghost use Rattle.procedure.specs.Procedure.{more};
ghost use Rattle.procedure.specs.Table.{table_of, key_words};
ghost use Rattle.calls.specs.Tables.{table_length};
ghost use Rattle.run_counts.specs.Figures.{figures_in, counts_of};
ghost use Rattle.run_table.specs.Finish.{NodesFit, FormFits, Finishing, SomeFinishing, Finished};

use run_arrays::arrays::{Layout, Run};

// Writes the usual words: those of the counts and of the first n labels and predecessors.
fn write_nodes(run: &Run, n: usize, ended: bool, table: &mut [u32])
    requires { NodesFit run.now n (length table.old) }
    ensures { table.new ≡ table_of ended (counts_of (figures_in run.now.counts)) (take n run.now.labels)
        (take n run.now.predecessors) (length (take n run.now.labels)) }
{
    table::write_table(
        run.labels_of(n),
        run.predecessors_of(n),
        &run.counts,
        ended,
        table,
    );
}

// Writes the whole table: behind the usual words as many key words as it has room for.
fn write_form(run: &Run, n: usize, ended: bool, table: &mut [u32])
    requires { FormFits run.now n (length table.old) }
    ensures { let arcs = length table.old - table_length n in
        table.new ≡ table_of ended (counts_of (figures_in run.now.counts)) (take n run.now.labels)
        (take n run.now.predecessors) (length (take n run.now.labels))
        ++ key_words (take arcs run.now.keys.own) arcs }
{
    let front = table::length::table_length(n);
    let arcs = table.len() - front;
    write_nodes(run, n, ended, &mut table[..front]);
    table::keys::write_keys(run.own_keys_of(arcs), &mut table[front..]);
}

// Works a run for at most `limit` rounds and writes the table of n nodes. Whether the run has ended.
pub fn finish(layout: &Layout, run: &mut Run, limit: u64, n: usize, table: &mut [u32]) -> bool
    requires { SomeFinishing layout.now run.old limit n (length table.old) }
    ensures { (b : List ℕ) (s : State) → Finishing b s layout.now run.old limit n (length table.old)
        → Finished b (more (graph_of b) (division_of b) (spans_of b) limit s) (length table.old) result table.new }
{
    run_engine::rounds::run_rounds(layout, run, limit);
    let ended = run_engine::rounds::has_ended(&layout.rows, &run.keys.winners);
    write_form(run, n, ended, table);
    ended
}
