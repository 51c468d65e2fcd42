// The leaves among the region words: of refusal 3 what it asks of a leaf's word, and refusal 12.
ghost use Rattle.std.specs.Prelude.{◌≡◌, ◌≤◌, ◌<◌, length};
ghost use Rattle.sheet.specs.Limits.{most_arcs, most_region_words, arc_numbers};
ghost use Rattle.sheet.specs.Words.{words};
ghost use Rattle.judgement.specs.Division.{wrong_leaves, leaf_of_arc};
ghost use Rattle.indices.specs.Tests.{any};
ghost use Rattle.indices.proofs.Tally.{Tally};
ghost use Rattle.judgement.specs.Form.{leaf_bits};

use sheet::ARC_NUMBERS;

// Refusal 3 at word k: a leaf with a bit set that must be zero.
fn leaf_bits(d: &[u8], k: usize) -> bool
    requires { k < words d.now }
    ensures { result ≡ leaf_bits d.now k }
{
    sheet::payload_at(d, k) >= 8388608 && sheet::fields::leaf_word(d, k)
}

// Refusal 3, of the leaves: a bit set that must be zero.
pub fn leaf_bits_set(d: &[u8]) -> bool
    ensures { result ≡ any (leaf_bits d.now) (words d.now) }
{
    (0..d.len() / 4).any(|k| leaf_bits(d, k))
}

// How many leaves each arc number of 11 bits has. A word that is no leaf adds 0, so that there is no branch on its kind.
fn count_leaves(d: &[u8]) -> [u16; ARC_NUMBERS]
    requires { words d.now ≤ most_region_words }
    ensures { (length result ≡ arc_numbers) × Tally (leaf_of_arc d.now) most_region_words result (words d.now) }
{
    let mut seen = [0u16; ARC_NUMBERS];
    for k in 0..d.len() / 4 {
        let arc = sheet::fields::arc_word(d, k);
        seen[usize::from(arc.0)] += u16::from(sheet::fields::leaf_word(d, k));
    }
    seen
}

// Refusal 12, of so many arcs: one of them has no leaf or several, or a number beyond them has one.
pub fn wrong_leaves(d: &[u8], arcs: u16) -> bool
    requires { (words d.now ≤ most_region_words) × (arcs ≤ most_arcs) }
    ensures { result ≡ wrong_leaves d.now arcs }
{
    let seen = count_leaves(d);
    (0..ARC_NUMBERS).any(|a| seen[a] != u16::from(a < usize::from(arcs)))
}
