// The arcs of the route to a reached node: counted, and written into a lent buffer.
ghost use Rattle.std.specs.Prelude.{◌≡◌, ◌++◌, ◌<◌, false, length, drop};
ghost use Rattle.calls.specs.Routes.{not_shortest, route_to};
ghost use Rattle.sheet.specs.Limits.{most_nodes};
ghost use Rattle.route.specs.Reached.{Reached, RouteLent};

use sheet::Node;
use table::lent::Table;

// How many arcs the route to a reached node has. The loop follows predecessors, whose number is not known before.
#[tactic(auto, using(crate::proofs::arcs::Following::count_steps))]
pub fn count_arcs(table: &Table, v: Node) -> usize
    requires { (not_shortest table.now.sheet.now table.now.words.now ≡ false) × Reached table.now.sheet.now table.now.words.now v.0 }
    ensures { (result ≡ length (route_to table.now.sheet.now table.now.words.now v.0)) × (result < most_nodes) }
{
    let home = table.sheet.source_number();
    let mut u = v;
    let mut arcs = 0;
    while u.0 as u32 != home {
        u = table.previous(u);
        arcs += 1;
    }
    arcs
}

// Writes the route to a reached node, of so many arcs, at the front of the buffer, from its last arc to its first.
#[tactic(auto, using(crate::proofs::arcs::Following::write_steps))]
pub fn write_arcs(table: &Table, v: Node, arcs: usize, buffer: &mut [u32])
    requires { RouteLent table.now.sheet.now table.now.words.now v.0 arcs buffer.old }
    ensures { buffer.new ≡ route_to table.now.sheet.now table.now.words.now v.0 ++ drop arcs buffer.old }
{
    let mut u = v;
    for place in (0..arcs).rev() {
        buffer[place] = table.predecessor(u);
        u = table.previous(u);
    }
}
