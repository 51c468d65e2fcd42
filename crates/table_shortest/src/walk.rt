// Walks back along the predecessors of a lent table, in time linear in the table: whether every reached node leads back to the source.
ghost use Rattle.std.specs.Prelude.{◌≡◌, true, ◌+◌, replicate};
ghost use Rattle.indices.specs.Tests.{all};
ghost use Rattle.sheet.specs.Sections.{node_count};
ghost use Rattle.sheet.specs.Limits.{node_numbers};
ghost use Rattle.table_shortest.specs.WalkChecks.{node_led};
ghost use Rattle.table_shortest.specs.Stamps.{Stamped, Walkable, Followable};

use sheet::{NODE_NUMBERS, Node};
use table::lent::Table;

// Whether v, if it is reached, leads back to the source: its predecessors are followed, and each node gets this walk's stamp, until one is met that
// has a stamp. If that is an earlier walk's, all of them lead back; if it is this walk's, they run round a ring. The loop follows links: it has no index.
#[tactic(auto, using(crate::proofs::walk::Walks::walk_steps), unfolding(sheet::specs::Words::top))]
fn node_led(table: &Table, v: Node, stamps: &mut [u16; NODE_NUMBERS]) -> bool
    requires { Walkable table.now.sheet.now table.now.words.now stamps.old v.0 }
    ensures { (result ≡ node_led table.now.sheet.now table.now.words.now v.0)
        × (result ≡ true → Stamped table.now.sheet.now table.now.words.now stamps.new (v.0 + 1)) }
{
    if table.label(v) == sheet::NONE {
        return true;
    }
    let stamp = v.0 + 2;
    let mut u = v;
    loop {
        let i = u.0 as usize;
        let met = stamps[i];
        if met != 0 {
            return met != stamp;
        }
        stamps[i] = stamp;
        u = table.previous(u);
    }
}

// Whether every reached node leads back to the source. No node is passed twice. Each walk changes the stamps, so this is a loop and no scan.
#[tactic(auto, using(judgement::proofs::Accepted::few_nodes, judgement::proofs::Accepted::source_in))]
fn all_led(table: &Table, stamps: &mut [u16; NODE_NUMBERS]) -> bool
    requires { Followable table.now.sheet.now table.now.words.now × (stamps.old ≡ replicate node_numbers 0) }
    ensures { result ≡ all (node_led table.now.sheet.now table.now.words.now) (node_count table.now.sheet.now) }
{
    let home = table.sheet.source_number() as usize;
    stamps[home] = 1;
    for v in 0..table.sheet.node_count() as u16 {
        if !node_led(table, Node(v), stamps) {
            return false;
        }
    }
    true
}

// The same, with no stamps at first.
pub fn nodes_led(table: &Table) -> bool
    requires { Followable table.now.sheet.now table.now.words.now }
    ensures { result ≡ all (node_led table.now.sheet.now table.now.words.now) (node_count table.now.sheet.now) }
{
    let mut stamps = [0u16; NODE_NUMBERS];
    all_led(table, &mut stamps)
}
