// Tests of a possible state at the counts: each is below 2^55, and 0 at heights without a span.
ghost use Rattle.std.specs.Prelude.{◌≡◌, ◌||◌, ◌+◌, ◌^◌, ◌≤◌, length, ltb, eqb};
ghost use Rattle.indices.specs.Tests.{all};
ghost use Rattle.sheet.specs.Limits.{most_spans};
ghost use Rattle.sheet.specs.Sections.{span_count};
ghost use Rattle.procedure.specs.Table.{inner_place, counts_length};
ghost use Rattle.calls.specs.Tables.{table_length, count_in};
ghost use Rattle.calls.specs.Possible.{counts_test};

use run_counts::array::{COUNTS, INNER_PLACE};
use sheet::MOST_SPANS;
use table::lent::Table;
use table::read::count_of;

// 2^55, which a count stays below.
const COUNT_LIMIT: u64 = 36028797018963968;

// Whether every count is below the limit.
fn counts_below(table: &[u32]) -> bool
    requires { table_length 0 ≤ length table.now }
    ensures { result ≡ all (λ i. ltb (count_in table.now i) (2 ^ 55)) counts_length }
{
    (0..COUNTS).all(|i| count_of(table, i) < COUNT_LIMIT)
}

// Whether the heights from the number of spans on, which are unused, have counts of 0.
fn unused_zero(table: &[u32], spans: usize) -> bool
    requires { table_length 0 ≤ length table.now }
    ensures { result ≡ all (λ i. ltb i spans || eqb (count_in table.now (inner_place + i)) 0) most_spans }
{
    (0..MOST_SPANS).all(|i| i < spans || count_of(table, INNER_PLACE + i) == 0)
}

// Whether every count is below the limit, and 0 at unused heights.
#[tactic(auto, unfolding(calls::specs::Possible::counts_test))]
pub fn counts_held(table: &Table) -> bool
    ensures { result ≡ counts_test (span_count table.now.sheet.now) table.now.words.now }
{
    counts_below(table.words) && unused_zero(table.words, table.sheet.spans())
}
