// The parents that region words name: refusal 11. Word k of the region words is region k + 1.
ghost use Rattle.std.specs.Prelude.{◌≡◌, ◌≤◌, ◌<◌};
ghost use Rattle.sheet.specs.Words.{words};
ghost use Rattle.sheet.specs.Regions.{parent};
ghost use Rattle.judgement.specs.Division.{wrong_parent, wrong_parents};
ghost use Rattle.judge_division.specs.Heights.{Passable};
ghost use Rattle.judge_division.specs.Parents.{HasParent};

use sheet::Region;

// Refusal 11 at word k: its parent is not a lower region, or is a leaf.
fn wrong_parent(d: &[u8], k: usize) -> bool
    requires { (k < words d.now) × (words d.now < 65536) }
    ensures { result ≡ wrong_parent d.now k }
{
    let p = sheet::fields::parent_word(d, k) as usize;
    let r = k + 1;
    r <= p || sheet::fields::is_leaf(d, Region(p as u16))
}

// Refusal 11: some word has a parent that is not a lower region, or is a leaf.
pub fn wrong_parents(d: &[u8]) -> bool
    requires { words d.now < 65536 }
    ensures { result ≡ wrong_parents d.now }
{
    (0..d.len() / 4).any(|k| wrong_parent(d, k))
}

// The parent of a region other than 0, where refusal 11 does not apply.
pub fn parent_of(d: &[u8], r: Region) -> Region
    requires { HasParent d.now r.0 }
    ensures { (result.0 ≡ parent d.now r.0) × (result.0 < r.0) }
{
    let i = usize::from(r.0);
    Region(sheet::fields::parent_word(d, i - 1) as u16)
}

// Region words that are few and to which refusal 11 does not apply: every region but 0 has a lower parent, which is inner.
#[derive(Drop)]
pub struct Nested<'a> {
    pub bytes: &'a [u8],
    pub ghost passable: { Passable bytes.now },
}

impl<'a> Nested<'a> {
    // The parent of a region other than 0.
    pub fn parent(&self, r: Region) -> Region
        requires { (0 < r.0) × (r.0 ≤ words self.now.bytes.now) }
        ensures { (result.0 ≡ parent self.now.bytes.now r.0) × (result.0 < r.0) }
    {
        parent_of(self.bytes, r)
    }
}
