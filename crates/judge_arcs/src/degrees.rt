// Refusal 10: how many arcs leave each node and enter it.
ghost use Rattle.std.specs.Prelude.{◌≡◌};
ghost use Rattle.sheet.specs.Limits.{most_arcs_each_way};
ghost use Rattle.judgement.specs.Arcs.{too_many_at_node};
ghost use Rattle.judge_arcs.specs.Joined.{Joined};

use sheet::located::Sheet;
use sheet::{Arc, NODE_NUMBERS};

// Refusal 10: some node is the tail of more arcs than it may be, or the head.
pub fn too_many_at_node(s: &Sheet) -> bool
    requires { Joined s.now }
    ensures { result ≡ too_many_at_node most_arcs_each_way s.now }
{
    let mut tails = [0u8; NODE_NUMBERS];
    let mut heads = [0u8; NODE_NUMBERS];
    for a in 0..s.arcs() as u16 {
        let tail = usize::from(s.tail(Arc(a)).0);
        let head = usize::from(s.head(Arc(a)).0);
        if tails[tail] >= sheet::MOST_ARCS_EACH_WAY || heads[head] >= sheet::MOST_ARCS_EACH_WAY {
            return true;
        }
        tails[tail] += 1;
        heads[head] += 1;
    }
    false
}
