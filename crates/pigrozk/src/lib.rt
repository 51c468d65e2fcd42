// The library for C and Rust: the seven calls, each answered by one number.
#![tactic(auto)]

ghost use Rattle.std.specs.Prelude.{◌≡◌, false, length};
ghost use Rattle.sheet.specs.Sections.{node_count, arc_count};
ghost use Rattle.answer.specs.Answer.{ended, is_refused};
ghost use Rattle.judgement.specs.Judgement.{judgement, Accepted};
ghost use Rattle.procedure.specs.Procedure.{enough_rounds};
ghost use Rattle.calls.specs.Tables.{table_length, long_length, status_says, status_in};
ghost use Rattle.calls.specs.Runs.{run_answer, table_after, Delivered, DeliveredLong};
ghost use Rattle.calls.specs.Routes.{route_answer, buffer_after, TableKnown};
ghost use Rattle.calls.specs.Canonical.{canonical_answer, out_after};
ghost use Rattle.calls.specs.Convert.{convert_answer, convert_out};
ghost use Rattle.calls.specs.Resume.{resume_answer, resume_table, StateKnown, Carried};
ghost use Rattle.answer.specs.Codes.{code_of};

// Judges a sheet.
#[unsafe(no_mangle)]
pub extern "C" fn pigrozk_judge(sheet: &[u8]) -> u32
    ensures { result ≡ code_of (judgement sheet.now) }
{
    judge::judge(sheet).code()
}

// Runs a sheet to its end: the answer's code, and every word of the table afterwards. Where the sheet is accepted and the table has the usual length, or the
// longer one, the run has ended, its table is left as ended, its counts are small, its distances are shortest, and its work is as much as 2026-03 says.
#[unsafe(no_mangle)]
pub extern "C" fn pigrozk_run(sheet: &[u8], table: &mut [u32]) -> u32
    ensures { (result ≡ code_of (run_answer sheet.now enough_rounds table.old))
        × (table.new ≡ table_after sheet.now enough_rounds table.old)
        × (Accepted sheet.now → length table.old ≡ table_length (node_count sheet.now)
        → Delivered sheet.now enough_rounds table.new × (result ≡ code_of ended) × (status_in table.new ≡ 1))
        × (Accepted sheet.now → length table.old ≡ long_length (node_count sheet.now) (arc_count sheet.now)
        → DeliveredLong sheet.now enough_rounds table.new × (result ≡ code_of ended) × (status_in table.new ≡ 1)) }
{
    run::run(sheet, table).code()
}

// Runs a sheet for at most so many rounds: the answer's code, and every word of the table afterwards. Where the sheet is accepted and the table has
// the usual length, or the longer one, the table is what those rounds have reached and the answer what it says, its counts are small, and where it is left as
// ended its distances are shortest and its work is as much as 2026-03 says.
#[unsafe(no_mangle)]
pub extern "C" fn pigrozk_run_limited(sheet: &[u8], rounds: u32, table: &mut [u32]) -> u32
    ensures { (result ≡ code_of (run_answer sheet.now rounds table.old))
        × (table.new ≡ table_after sheet.now rounds table.old)
        × (Accepted sheet.now → length table.old ≡ table_length (node_count sheet.now)
        → Delivered sheet.now rounds table.new × (result ≡ code_of (status_says (status_in table.new))))
        × (Accepted sheet.now → length table.old ≡ long_length (node_count sheet.now) (arc_count sheet.now)
        → DeliveredLong sheet.now rounds table.new × (result ≡ code_of (status_says (status_in table.new)))) }
{
    run::run_limited(sheet, rounds, table).code()
}

// Reads the route to a node: the answer's code, every word of the buffer afterwards, and what the answer says of the table.
#[unsafe(no_mangle)]
pub extern "C" fn pigrozk_route(sheet: &[u8], table: &[u32], node: u32, buffer: &mut [u32]) -> u32
    ensures { (result ≡ code_of (route_answer sheet.now table.now node buffer.old))
        × (buffer.new ≡ buffer_after sheet.now table.now node buffer.old)
        × TableKnown sheet.now table.now (route_answer sheet.now table.now node buffer.old) }
{
    route::route(sheet, table, node, buffer).code()
}

// Writes the canonical form of a sheet at the front of `out`: the answer's code, and every byte of `out` afterwards.
#[unsafe(no_mangle)]
pub extern "C" fn pigrozk_canonical(sheet: &[u8], out: &mut [u8]) -> u32
    ensures { (result ≡ code_of (canonical_answer sheet.now out.old))
        × (out.new ≡ out_after sheet.now out.old) }
{
    canonical::canonical(sheet, out).code()
}

// Writes the converted sheet at the front of `out`: the answer's code, and every byte of `out` afterwards.
#[unsafe(no_mangle)]
pub extern "C" fn pigrozk_convert(sheet: &[u8], out: &mut [u8]) -> u32
    ensures { (result ≡ code_of (convert_answer sheet.now out.old))
        × (out.new ≡ convert_out sheet.now out.old) }
{
    convert::convert(sheet, out).code()
}

// Resumes a run from a longer table: the answer's code, every word of the table afterwards, and what the answer says of the table. Where the call is not
// refused the counts are small, and a table left as ended has shortest distances.
#[unsafe(no_mangle)]
pub extern "C" fn pigrozk_resume(sheet: &[u8], rounds: u32, table: &mut [u32]) -> u32
    ensures { (result ≡ code_of (resume_answer sheet.now table.old rounds))
        × (table.new ≡ resume_table sheet.now table.old rounds)
        × StateKnown sheet.now table.old (resume_answer sheet.now table.old rounds)
        × (is_refused (resume_answer sheet.now table.old rounds) ≡ false
        → Carried sheet.now table.old rounds) }
{
    resume::resume(sheet, rounds, table).code()
}
