// What is kept of a sheet without its self-arcs, under new numbers.
#![tactic(auto)]

pub mod arcs;
pub mod regions;

ghost use Rattle.std.specs.Prelude.{◌≡◌, ◌≤◌, ◌<◌, ℕ, Bool, length};
ghost use Rattle.indices.specs.Tests.{count};
ghost use Rattle.sheet.specs.Sections.{region_words};
ghost use Rattle.judgement.specs.Judgement.{Convertible};
ghost use Rattle.conversion.specs.Inner.{Numbers};
ghost use Rattle.conversion_numbers.specs.Numbers.{number_of, dropped, Numbered, Counted};

use crate::regions::ArcNumbers;
use sheet::located::Sheet;
use sheet::{ARC_NUMBERS, REGION_NUMBERS};

// Stands where the number of an arc or region would, if it is not kept: a number, so that the entries of the lent arrays take two bytes each.
pub const DROPPED: u16 = 65535;

// How many spans, holds, arcs and region words are kept.
#[derive(Clone, Copy)]
pub struct Kept {
    pub spans: usize,
    pub holds: usize,
    pub arcs: usize,
    pub words: usize,
}

// Enters the new number of each index below n that stays, and `DROPPED` for another one. How many stay.
fn number<F: Fn(usize) -> bool>(numbers: &mut [u16], n: usize, stays: F) -> u16
    requires room { n ≤ length numbers.old }
    requires few { n ≤ dropped }
    requires asked { (i : ℕ) → i < n → F.pre stays i }
    ensures { (p : ℕ → Bool) → ((i : ℕ) (b : Bool) → i < n → F.post stays i b → b ≡ p i)
        → Numbers (number_of p) numbers.new n × (result ≡ count p n) }
{
    let mut next: u16 = 0;
    for i in 0..n {
        let kept = stays(i);
        numbers[i] = if kept { next } else { DROPPED };
        next += u16::from(kept);
    }
    next
}

// Numbers the arcs and regions that are kept.
pub fn number_kept(
    s: &Sheet,
    arcs: &mut [u16; ARC_NUMBERS],
    regions: &mut [u16; REGION_NUMBERS],
) -> Kept
    requires { Convertible s.now }
    ensures { Numbered s.now (region_words s.now) arcs.new regions.new × Counted s.now result }
{
    let mut best = [0u16; REGION_NUMBERS];
    let arcs_kept = crate::arcs::number_arcs(s, arcs);
    let numbered = ArcNumbers::new(s, arcs);
    let height = numbered.hand_heights(&mut best);
    let regions_kept = numbered.number_regions(&best, regions);
    Kept {
        spans: usize::from(height),
        holds: s.holds(),
        arcs: usize::from(arcs_kept),
        words: usize::from(regions_kept) - 1,
    }
}
