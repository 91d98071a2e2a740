// The program sheet's step on one record: a record's bytes in, its line out, and the store as the record's call leaves it.
#![tactic(auto)]

ghost use Rattle.std.specs.Prelude.{◌≡◌, true, ◌+◌, ◌*◌, ◌≤◌, length, get_or};
ghost use Rattle.model.specs.Run.{run};
ghost use Rattle.soundness.specs.Scan.{lent, words};
ghost use Rattle.wang_judge.specs.Scheme.{wang};
ghost use Rattle.sheet_kinds.specs.Kinds.{zero_scratch, insert_call, remove_call, query_call, replace_call, fits_kind, good_length};
ghost use Rattle.sheet_kinds.specs.Bytes.{row_of};
ghost use Rattle.sheet_text.specs.Put.{line_most};
ghost use Rattle.sheet_records.specs.Step.{line_and_store, step_of, Stepped};

use sheet_kinds::Kind;
use wang::{Index, WangIndex};

// "The sheet stores under set 1 and asks for 0."
const STORED_SET: u32 = 1;

const ASKED_SET: u32 = 0;

// 01: limit, rate bits, hashes.
fn insert_record(
    fields: &[u32],
    refs: &mut [u32],
    postings: &mut [u32],
    stopped: &mut [u32],
    line: &mut [u8],
    at: usize,
) -> usize
    requires { (2 ≤ length fields.now) × (at + line_most ≤ length line.old) }
    ensures { Stepped line.old line.new at result (words refs.new postings.new stopped.new)
        (line_and_store fields.now (run wang (words refs.old postings.old stopped.old) (insert_call fields.now))) }
{
    let limit = fields[0];
    let rate = fields[1];
    let answer = WangIndex::insert(
        refs,
        postings,
        stopped,
        &fields[2..],
        rate,
        limit,
        STORED_SET,
    );
    sheet_lines::put_insertion(line, at, answer)
}

// 02: id.
fn remove_record(
    fields: &[u32],
    refs: &mut [u32],
    postings: &mut [u32],
    stopped: &[u32],
    line: &mut [u8],
    at: usize,
) -> usize
    requires { (1 ≤ length fields.now) × (at + line_most ≤ length line.old) }
    ensures { Stepped line.old line.new at result (words refs.new postings.new stopped.now)
        (line_and_store fields.now (run wang (words refs.old postings.old stopped.now) (remove_call fields.now))) }
{
    let id = fields[0];
    let answer = WangIndex::remove(refs, postings, stopped, id);
    sheet_lines::put_removal(line, at, id, answer)
}

// 03: tolerance, min_votes, min_score bits, min_prominence bits, rate bits, hashes.
fn query_record(
    fields: &[u32],
    refs: &[u32],
    postings: &[u32],
    stopped: &[u32],
    scratch: &mut [i64],
    line: &mut [u8],
    at: usize,
) -> usize
    requires in_bounds { (5 ≤ length fields.now) × (at + line_most ≤ length line.old) }
    requires scratch_value { scratch.old ≡ zero_scratch }
    ensures stepped { Stepped line.old line.new at result (lent refs.entry postings.entry stopped.entry)
        (line_and_store fields.now (run wang (lent refs.entry postings.entry stopped.entry) (query_call fields.now))) }
    ensures scratch_after { scratch.new ≡ zero_scratch }
{
    let cfg = wang_judge::config_of(fields[0], fields[1], fields[2], fields[3]);
    let rate = floats::f32_from_bits(fields[4]);
    let answer = WangIndex::query(
        refs,
        postings,
        stopped,
        scratch,
        &fields[5..],
        rate,
        cfg,
        ASKED_SET,
    );
    sheet_lines::put_finding(line, at, answer)
}

// 04: id, limit, rate bits, hashes.
fn replace_record(
    fields: &[u32],
    refs: &mut [u32],
    postings: &mut [u32],
    stopped: &mut [u32],
    line: &mut [u8],
    at: usize,
) -> usize
    requires { (3 ≤ length fields.now) × (at + line_most ≤ length line.old) }
    ensures { Stepped line.old line.new at result (words refs.new postings.new stopped.new)
        (line_and_store fields.now (run wang (words refs.old postings.old stopped.old) (replace_call fields.now))) }
{
    let id = fields[0];
    let limit = fields[1];
    let rate = fields[2];
    let answer = WangIndex::replace(refs, postings, stopped, id, &fields[3..], rate, limit);
    sheet_lines::put_insertion(line, at, answer)
}

// A record by its kind and its fields.
fn run_record(
    kind: Kind,
    fields: &[u32],
    refs: &mut [u32],
    postings: &mut [u32],
    stopped: &mut [u32],
    scratch: &mut [i64],
    line: &mut [u8],
    at: usize,
) -> usize
    requires kind_value { (fits_kind (4 * length fields.now + 1) (row_of kind) ≡ true) × (at + line_most ≤ length line.old) }
    requires scratch_value { scratch.old ≡ zero_scratch }
    ensures stepped { Stepped line.old line.new at result (words refs.new postings.new stopped.new)
        (line_and_store fields.now (run wang (words refs.old postings.old stopped.old) ((row_of kind).call fields.now))) }
    ensures scratch_after { scratch.new ≡ zero_scratch }
{
    match kind {
        Kind::Insert => insert_record(fields, refs, postings, stopped, line, at),
        Kind::Remove => remove_record(fields, refs, postings, stopped, line, at),
        Kind::Query => query_record(fields, refs, postings, stopped, scratch, line, at),
        Kind::Replace => replace_record(fields, refs, postings, stopped, line, at),
    }
}

// The step on one record, whose length is good for its kind: puts its line behind the first `at` bytes of a lent buffer and answers where the
// line ends. A line has at most `line_most` bytes. The scratch has room for 512 votes, and is zeros before and after.
// The slices stay one by one: a store of any lengths is worked on or refused, and a struct of three `&mut` would need clauses on its ghost names.
pub fn step(
    bytes: &[u8],
    refs: &mut [u32],
    postings: &mut [u32],
    stopped: &mut [u32],
    scratch: &mut [i64],
    line: &mut [u8],
    at: usize,
) -> usize
    requires bytes_value { (good_length (length bytes.now) (get_or bytes.now 0 0) ≡ true) × (at + line_most ≤ length line.old) }
    requires scratch_value { scratch.old ≡ zero_scratch }
    ensures stepped { Stepped line.old line.new at result (words refs.new postings.new stopped.new)
        (step_of (words refs.old postings.old stopped.old) bytes.now) }
    ensures scratch_after { scratch.new ≡ zero_scratch }
{
    let mut fields = [0u32; 2048];
    let n = sheet_text::read_fields(bytes, &mut fields);
    match Kind::try_from(bytes[0]) {
        Ok(kind) => run_record(
            kind,
            &fields[..n],
            refs,
            postings,
            stopped,
            scratch,
            line,
            at,
        ),
        Err(_) => at,
    }
}
