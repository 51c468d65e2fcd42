// The words of an answer table, and the two words of a node or of a count, written from a place on.
ghost use Rattle.std.specs.Prelude.{◌≡◌, [], ◌∷◌, ◌+◌, ◌^◌, ◌<◌, length, set};
ghost use Rattle.std.proofs.lemmas.List.Edits.{sets};
ghost use Rattle.procedure.specs.Table.{status_word, count_words};
ghost use Rattle.sheet.specs.Words.{payloads, word_of};

use sheet::COUNT_BASE;
use sheet::kind::Kind;

// How many words the counts take, and how many stand before those of the nodes: these, and the status.
pub const COUNT_WORDS: usize = 2 * run_counts::array::COUNTS;

pub const HEADER: usize = 1 + COUNT_WORDS;

// The word of the status.
pub fn status_word(ended: bool) -> u32
    ensures { result ≡ status_word ended }
{
    Kind::Status.word(u32::from(ended))
}

// The words of a node.
pub fn label_word(label: u32) -> u32
    requires { label < payloads }
    ensures { result ≡ word_of 9 label }
{
    Kind::Label.word(label)
}

pub fn predecessor_word(predecessor: u32) -> u32
    requires { predecessor < payloads }
    ensures { result ≡ word_of 10 predecessor }
{
    Kind::Predecessor.word(predecessor)
}

// Writes a word at place i.
pub fn write_word(table: &mut [u32], i: usize, w: u32)
    requires { i < length table.old }
    ensures { table.new ≡ set table.old i w }
{
    table[i] = w;
}

// Writes two words from place i on.
pub fn write_pair(table: &mut [u32], i: usize, first: u32, second: u32)
    requires { i + 1 < length table.old }
    ensures { table.new ≡ sets table.old i (first ∷ second ∷ []) }
{
    write_word(table, i, first);
    write_word(table, i + 1, second);
}

// Writes the two words of a count, high 28 bits before low 28, from place i on.
pub fn write_count(table: &mut [u32], i: usize, count: u64)
    requires { (i + 1 < length table.old) × (count < 2 ^ 56) }
    ensures { table.new ≡ sets table.old i (count_words (count ∷ [])) }
{
    let high = (count / COUNT_BASE) as u32;
    let low = (count % COUNT_BASE) as u32;
    write_pair(table, i, Kind::Count.word(high), Kind::Count.word(low));
}
