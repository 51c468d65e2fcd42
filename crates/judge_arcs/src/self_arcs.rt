// Refusal 35: the arcs that lead from a node to itself.
ghost use Rattle.std.specs.Prelude.{◌≡◌, ◌≤◌, ◌<◌};
ghost use Rattle.sheet.specs.Limits.{most_arcs};
ghost use Rattle.sheet.specs.Sections.{arc_count};
ghost use Rattle.judgement.specs.Arcs.{self_arc, self_arcs};

use sheet::Arc;
use sheet::located::Sheet;

// Whether an arc leads from a node to itself.
#[tactic(auto, unfolding(judgement::specs::Arcs::self_arc))]
pub fn self_arc(s: &Sheet, a: Arc) -> bool
    requires { a.0 < arc_count s.now }
    ensures { result ≡ self_arc s.now a.0 }
{
    s.tail(a) == s.head(a)
}

// Refusal 35: some arc leads from a node to itself.
pub fn self_arcs(s: &Sheet) -> bool
    requires { arc_count s.now ≤ most_arcs }
    ensures { result ≡ self_arcs s.now }
{
    (0..s.arcs() as u16).any(|a| self_arc(s, Arc(a)))
}
