// Writes the first words of an answer table: status and counts.
ghost use Rattle.std.specs.Prelude.{◌≡◌, ◌∷◌, ◌≤◌, length};
ghost use Rattle.std.proofs.lemmas.List.Edits.{sets};
ghost use Rattle.procedure.specs.Table.{status_word, count_words, header_length};
ghost use Rattle.table.specs.Countable.{Countable};

// Writes the counts, after the status.
fn write_counts(table: &mut [u32], counts: &[u64])
    requires { (header_length ≤ length table.old) × Countable counts.now }
    ensures { table.new ≡ sets table.old 1 (count_words counts.now) }
{
    for (i, count) in counts.iter().enumerate() {
        crate::words::write_count(table, 1 + 2 * i, *count);
    }
}

// Writes the status and the counts.
pub fn write_header(table: &mut [u32], ended: bool, counts: &[u64])
    requires { (header_length ≤ length table.old) × Countable counts.now }
    ensures { table.new ≡ sets table.old 0 (status_word ended ∷ count_words counts.now) }
{
    crate::words::write_word(table, 0, crate::words::status_word(ended));
    write_counts(table, counts);
}
