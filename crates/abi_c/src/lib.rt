// The engine for programs in C, or in any language that calls C: each public function of abi that names no type of Rattle's, under its own name, with its
// own clauses. The two are twins on purpose: a crate is a library for Rattle or an archive for C, and not both, so this one stands above abi, and each
// function is one call of abi's. A slice is a pointer and then a length, an array a pointer; what each function does stands there and in include/stobbarel.h.
#![tactic(auto)]

ghost use Rattle.std.specs.Prelude.{◌≡◌, ◌∷◌, length};
ghost use Rattle.std.specs.Result.{result_unwrap_or};
ghost use Rattle.terms.specs.Group.{group_wrong};
ghost use Rattle.records.specs.declared.ViewMark.TheVariants.{VS, EL};
ghost use Rattle.records.specs.Messages.{read_tx, read_vl, read_views, read_message, handed_back};
ghost use Rattle.rules.specs.Act.{receive, due};
ghost use Rattle.engine.specs.Outcome.{kept, called, lowered, table_by};
ghost use Rattle.sheet.specs.Sheets.{reply_to, reply_values, sheet_after, reached_of};
ghost use Rattle.sheet.specs.Listing.{listing_of};
ghost use Rattle.arrays.specs.Arrays.{lent_tx, lent_list, lent_views, marked_by, refusal_number, tx_or_none, list_or_none, views_or_none, found_number, mark_number, views_in_reading, fields, fields_of, view_row, view_fields, view_fields_of, ballot_numbers, ballot_answers, ballot_views, tx_row, tx_fields, tx_fields_of, list_fields, list_fields_of};
ghost use Rattle.election.specs.Elections.{heard_values, said, sheet_heard, gathered};
ghost use Rattle.election.specs.Telling.{tell_wrong, taller, telling};
ghost use Rattle.passage.specs.Passages.{report_of, asks_of};
ghost use Rattle.passage.specs.Corrections.{direction_corrected, corrected, entered};
ghost use Rattle.abi.specs.Register.{lent_seen, lent_values, asked_keys, report_number, report_row, made, made_of};
ghost use Rattle.abi.specs.Rows.{answer_row, told_of, sheet_of, sheet_with, election_sheet, thresholds_by, version, LeavesRow};
ghost use Rattle.held.specs.Held.{held_of, held_row, entry_told, how_many_told};
ghost use Rattle.abi.specs.Left.{left, tx_left, vl_left, views_left, pr_left, listed_mark, listed_left, viewed_left, rd_left};

#[unsafe(no_mangle)]
pub extern "C" fn stobbarel_version() -> u32
    ensures { result ≡ version }
{
    abi::stobbarel_version()
}

#[unsafe(no_mangle)]
pub extern "C" fn stobbarel_receive(
    table: &mut [u8],
    marks: &mut [u64; 512],
    f: u64,
    capacity: u64,
    clock: u64,
    delta: u64,
    message: &[u8],
    out: &mut [u64; 5],
)
    ensures { LeavesRow (called receive (told_of f capacity clock delta) (kept table.old marks.old) message.now) (kept table.old marks.old) out.new (kept table.new marks.new) }
{
    abi::stobbarel_receive(table, marks, f, capacity, clock, delta, message, out)
}

#[unsafe(no_mangle)]
pub extern "C" fn stobbarel_due(
    mark: u64,
    table: &mut [u8],
    marks: &mut [u64; 512],
    f: u64,
    capacity: u64,
    clock: u64,
    delta: u64,
    message: &[u8],
    out: &mut [u64; 5],
)
    ensures { LeavesRow (called (due (marked_by mark)) (told_of f capacity clock delta) (kept table.old marks.old) message.now) (kept table.old marks.old) out.new (kept table.new marks.new) }
{
    abi::stobbarel_due(mark, table, marks, f, capacity, clock, delta, message, out)
}

#[unsafe(no_mangle)]
pub extern "C" fn stobbarel_raise(
    table: &mut [u8],
    f: u64,
    capacity: u64,
    low: u64,
    out: &mut [u64; 5],
)
    ensures { (out.new ≡ answer_row (lowered low (told_of f capacity 0 0) table.old).answer) × (table.new ≡ table_by table.old (lowered low (told_of f capacity 0 0) table.old).change) }
{
    abi::stobbarel_raise(table, f, capacity, low, out)
}

#[unsafe(no_mangle)]
pub extern "C" fn stobbarel_held(table: &[u8], capacity: u64, stamp: u64, out: &mut [u64; 8]) -> u8
    ensures { (result ≡ refusal_number (held_of table.now capacity stamp)) × (out.new ≡ held_row (held_of table.now capacity stamp)) }
{
    abi::stobbarel_held(table, capacity, stamp, out)
}

#[unsafe(no_mangle)]
pub extern "C" fn stobbarel_entries(table: &[u8], capacity: u64, count: &mut usize) -> u8
    ensures { (result ≡ refusal_number (how_many_told table.now capacity)) × (count.new ≡ result_unwrap_or (how_many_told table.now capacity) 0) }
{
    abi::stobbarel_entries(table, capacity, count)
}

#[unsafe(no_mangle)]
pub extern "C" fn stobbarel_entry(table: &[u8], capacity: u64, i: u64, out: &mut [u64; 8]) -> u8
    ensures { (result ≡ refusal_number (entry_told table.now capacity i)) × (out.new ≡ held_row (entry_told table.now capacity i)) }
{
    abi::stobbarel_entry(table, capacity, i, out)
}

#[unsafe(no_mangle)]
pub extern "C" fn stobbarel_reading(f: u64, message: &[u8]) -> u8
    ensures { result ≡ found_number (read_message f message.now) }
{
    abi::stobbarel_reading(f, message)
}

#[unsafe(no_mangle)]
pub extern "C" fn stobbarel_reading_tx(bytes: &[u8]) -> u8
    ensures { result ≡ refusal_number (read_tx bytes.now) }
{
    abi::stobbarel_reading_tx(bytes)
}

#[unsafe(no_mangle)]
pub extern "C" fn stobbarel_tx_of(
    bytes: &[u8],
    head: &mut [u64; 3],
    reads: &mut [u16; 8],
    versions: &mut [u64; 8],
    writes: &mut [u16; 8],
    values: &mut [u64; 8],
) -> u8
    ensures { (result ≡ refusal_number (read_tx bytes.now)) × (head.new ≡ tx_row (tx_or_none (read_tx bytes.now))) × (tx_fields reads.new versions.new writes.new values.new ≡ tx_fields_of (tx_or_none (read_tx bytes.now))) }
{
    abi::stobbarel_tx_of(bytes, head, reads, versions, writes, values)
}

#[unsafe(no_mangle)]
pub extern "C" fn stobbarel_reading_vl(f: u64, bytes: &[u8]) -> u8
    ensures { result ≡ refusal_number (read_vl f bytes.now) }
{
    abi::stobbarel_reading_vl(f, bytes)
}

#[unsafe(no_mangle)]
pub extern "C" fn stobbarel_reading_vs(f: u64, bytes: &[u8]) -> u8
    ensures { result ≡ refusal_number (read_views VS f bytes.now) }
{
    abi::stobbarel_reading_vs(f, bytes)
}

#[unsafe(no_mangle)]
pub extern "C" fn stobbarel_reading_el(f: u64, bytes: &[u8]) -> u8
    ensures { result ≡ refusal_number (read_views EL f bytes.now) }
{
    abi::stobbarel_reading_el(f, bytes)
}

#[unsafe(no_mangle)]
pub extern "C" fn stobbarel_fields(
    f: u64,
    message: &[u8],
    head: &mut [u64; 9],
    reads: &mut [u16; 8],
    versions: &mut [u64; 8],
    writes: &mut [u16; 8],
    values: &mut [u64; 8],
    numbers: &mut [u8; 26],
    answers: &mut [u8; 26],
) -> u8
    ensures { (result ≡ found_number (read_message f message.now)) × (fields head.new reads.new versions.new writes.new values.new numbers.new answers.new ≡ fields_of (read_message f message.now)) }
{
    abi::stobbarel_fields(
        f, message, head, reads, versions, writes, values, numbers, answers,
    )
}

#[unsafe(no_mangle)]
pub extern "C" fn stobbarel_views(
    f: u64,
    message: &[u8],
    head: &mut [u64; 5],
    numbers: &mut [u8; 26],
    answers: &mut [u8; 26],
    views: &mut [u16; 26],
) -> u8
    ensures { (result ≡ found_number (read_message f message.now)) × (head.new ≡ mark_number (read_message f message.now) ∷ view_row (views_in_reading (read_message f message.now))) × (numbers.new ≡ ballot_numbers (views_in_reading (read_message f message.now)).ballots) × (answers.new ≡ ballot_answers (views_in_reading (read_message f message.now)).ballots) × (views.new ≡ ballot_views (views_in_reading (read_message f message.now)).ballots) }
{
    abi::stobbarel_views(f, message, head, numbers, answers, views)
}

#[unsafe(no_mangle)]
pub extern "C" fn stobbarel_part(f: u64, message: &[u8]) -> usize
    ensures { result ≡ length (handed_back f message.now) }
{
    abi::stobbarel_part(f, message)
}

#[unsafe(no_mangle)]
pub extern "C" fn stobbarel_take(
    kind: u8,
    commits: &mut u32,
    aborts: &mut u32,
    f: u64,
    number: u64,
    answer: u64,
    out: &mut [u8; 5],
)
    ensures { (out.new ≡ reply_values (reply_to (sheet_of kind commits.old aborts.old) f number answer)) × (commits.new ≡ (sheet_after (sheet_of kind commits.old aborts.old) f number answer).commits) × (aborts.new ≡ (sheet_after (sheet_of kind commits.old aborts.old) f number answer).aborts) }
{
    abi::stobbarel_take(kind, commits, aborts, f, number, answer, out)
}

#[unsafe(no_mangle)]
pub extern "C" fn stobbarel_reached(kind: u8, commits: u32, aborts: u32, f: u64, out: &mut [u8; 5])
    ensures { out.new ≡ reply_values (reached_of (sheet_of kind commits aborts) f) }
{
    abi::stobbarel_reached(kind, commits, aborts, f, out)
}

#[unsafe(no_mangle)]
pub extern "C" fn stobbarel_sheet_list(
    kind: u8,
    view: u16,
    commits: u32,
    aborts: u32,
    f: u64,
    decision: u64,
    head: &mut [u64; 4],
    numbers: &mut [u8; 26],
    answers: &mut [u8; 26],
) -> u8
    ensures { (result ≡ refusal_number (listing_of (sheet_with kind view commits aborts) f decision)) × (list_fields head.new numbers.new answers.new ≡ list_fields_of (list_or_none (listing_of (sheet_with kind view commits aborts) f decision))) }
{
    abi::stobbarel_sheet_list(
        kind, view, commits, aborts, f, decision, head, numbers, answers,
    )
}

#[unsafe(no_mangle)]
pub extern "C" fn stobbarel_elect(
    view: u16,
    commits: &mut u32,
    aborts: &mut u32,
    f: u64,
    number: u64,
    answer: u64,
    given: u64,
    out: &mut [u8; 2],
)
    ensures { (out.new ≡ heard_values (said (election_sheet view commits.old aborts.old) f number answer given)) × (commits.new ≡ (sheet_heard (election_sheet view commits.old aborts.old) f number answer given).commits) × (aborts.new ≡ (sheet_heard (election_sheet view commits.old aborts.old) f number answer given).aborts) }
{
    abi::stobbarel_elect(view, commits, aborts, f, number, answer, given, out)
}

#[unsafe(no_mangle)]
pub extern "C" fn stobbarel_election(
    view: u16,
    commits: u32,
    aborts: u32,
    f: u64,
    stamp: u64,
    head: &mut [u64; 4],
    numbers: &mut [u8; 26],
    answers: &mut [u8; 26],
    views: &mut [u16; 26],
) -> u8
    ensures { (result ≡ refusal_number (gathered (election_sheet view commits aborts) f stamp)) × (view_fields head.new numbers.new answers.new views.new ≡ view_fields_of (views_or_none (gathered (election_sheet view commits aborts) f stamp))) }
{
    abi::stobbarel_election(
        view, commits, aborts, f, stamp, head, numbers, answers, views,
    )
}

#[unsafe(no_mangle)]
pub extern "C" fn stobbarel_tell(
    told: &mut u32,
    views: &mut [u16; 26],
    f: u64,
    number: u64,
    view: u64,
) -> u8
    ensures { (result ≡ refusal_number (tell_wrong told.old f number view)) × (told.new ≡ (taller told.old views.old f number view).told) × (views.new ≡ (taller told.old views.old f number view).views) }
{
    abi::stobbarel_tell(told, views, f, number, view)
}

#[unsafe(no_mangle)]
pub extern "C" fn stobbarel_told(
    told: u32,
    views: &[u16; 26],
    f: u64,
    count: &mut usize,
    numbers: &mut [u8; 26],
    listed: &mut [u16; 26],
) -> u8
    ensures { (result ≡ refusal_number (telling told views.now f)) × (count.new ≡ (views_or_none (telling told views.now f)).count) × (numbers.new ≡ ballot_numbers (views_or_none (telling told views.now f)).ballots) × (listed.new ≡ ballot_views (views_or_none (telling told views.now f)).ballots) }
{
    abi::stobbarel_told(told, views, f, count, numbers, listed)
}

#[unsafe(no_mangle)]
pub extern "C" fn stobbarel_thresholds(f: u64, out: &mut [u64; 6]) -> u8
    ensures { (result ≡ refusal_number (group_wrong f)) × (out.new ≡ thresholds_by (group_wrong f) f out.old) }
{
    abi::stobbarel_thresholds(f, out)
}

// ---- writing

#[unsafe(no_mangle)]
pub extern "C" fn stobbarel_write_tx(
    stamp: u64,
    r: usize,
    w: usize,
    reads: &[u16; 8],
    versions: &[u64; 8],
    writes: &[u16; 8],
    values: &[u64; 8],
    out: &mut [u8],
    length: &mut usize,
) -> u8
    ensures { left result length.new out.new ≡ tx_left (lent_tx stamp r w reads.now versions.now writes.now values.now) out.old }
{
    abi::stobbarel_write_tx(stamp, r, w, reads, versions, writes, values, out, length)
}

#[unsafe(no_mangle)]
pub extern "C" fn stobbarel_write_vl(
    f: u64,
    kind: u8,
    decision: u8,
    view: u16,
    count: usize,
    numbers: &[u8; 26],
    answers: &[u8; 26],
    out: &mut [u8],
    length: &mut usize,
) -> u8
    ensures { left result length.new out.new ≡ vl_left f (lent_list kind decision view count numbers.now answers.now) out.old }
{
    abi::stobbarel_write_vl(
        f, kind, decision, view, count, numbers, answers, out, length,
    )
}

#[unsafe(no_mangle)]
pub extern "C" fn stobbarel_write_vs(
    f: u64,
    count: usize,
    numbers: &[u8; 26],
    views: &[u16; 26],
    out: &mut [u8],
    length: &mut usize,
) -> u8
    ensures { left result length.new out.new ≡ views_left VS f (lent_views 0 0 0 count numbers.now numbers.now views.now) out.old }
{
    abi::stobbarel_write_vs(f, count, numbers, views, out, length)
}

#[unsafe(no_mangle)]
pub extern "C" fn stobbarel_write_el(
    f: u64,
    leader: u8,
    decision: u8,
    view: u16,
    count: usize,
    numbers: &[u8; 26],
    answers: &[u8; 26],
    views: &[u16; 26],
    out: &mut [u8],
    length: &mut usize,
) -> u8
    ensures { left result length.new out.new ≡ views_left EL f (lent_views leader decision view count numbers.now answers.now views.now) out.old }
{
    abi::stobbarel_write_el(
        f, leader, decision, view, count, numbers, answers, views, out, length,
    )
}

#[unsafe(no_mangle)]
pub extern "C" fn stobbarel_write_pr(
    stamp: u64,
    r: usize,
    w: usize,
    reads: &[u16; 8],
    versions: &[u64; 8],
    writes: &[u16; 8],
    values: &[u64; 8],
    out: &mut [u8],
    length: &mut usize,
) -> u8
    ensures { left result length.new out.new ≡ pr_left (lent_tx stamp r w reads.now versions.now writes.now values.now) out.old }
{
    abi::stobbarel_write_pr(stamp, r, w, reads, versions, writes, values, out, length)
}

#[unsafe(no_mangle)]
pub extern "C" fn stobbarel_write_listed(
    mark: u64,
    f: u64,
    stamp: u64,
    r: usize,
    w: usize,
    reads: &[u16; 8],
    versions: &[u64; 8],
    writes: &[u16; 8],
    values: &[u64; 8],
    kind: u8,
    decision: u8,
    view: u16,
    count: usize,
    numbers: &[u8; 26],
    answers: &[u8; 26],
    out: &mut [u8],
    length: &mut usize,
) -> u8
    ensures { left result length.new out.new ≡ listed_left (listed_mark mark) f (lent_tx stamp r w reads.now versions.now writes.now values.now) (lent_list kind decision view count numbers.now answers.now) out.old }
{
    abi::stobbarel_write_listed(
        mark, f, stamp, r, w, reads, versions, writes, values, kind, decision, view, count,
        numbers, answers, out, length,
    )
}

#[unsafe(no_mangle)]
pub extern "C" fn stobbarel_write_iv(
    f: u64,
    stamp: u64,
    r: usize,
    w: usize,
    reads: &[u16; 8],
    versions: &[u64; 8],
    writes: &[u16; 8],
    values: &[u64; 8],
    count: usize,
    numbers: &[u8; 26],
    views: &[u16; 26],
    out: &mut [u8],
    length: &mut usize,
) -> u8
    ensures { left result length.new out.new ≡ viewed_left VS f (lent_tx stamp r w reads.now versions.now writes.now values.now) (lent_views 0 0 0 count numbers.now numbers.now views.now) out.old }
{
    abi::stobbarel_write_iv(
        f, stamp, r, w, reads, versions, writes, values, count, numbers, views, out, length,
    )
}

#[unsafe(no_mangle)]
pub extern "C" fn stobbarel_write_ld(
    f: u64,
    stamp: u64,
    r: usize,
    w: usize,
    reads: &[u16; 8],
    versions: &[u64; 8],
    writes: &[u16; 8],
    values: &[u64; 8],
    leader: u8,
    decision: u8,
    view: u16,
    count: usize,
    numbers: &[u8; 26],
    answers: &[u8; 26],
    views: &[u16; 26],
    out: &mut [u8],
    length: &mut usize,
) -> u8
    ensures { left result length.new out.new ≡ viewed_left EL f (lent_tx stamp r w reads.now versions.now writes.now values.now) (lent_views leader decision view count numbers.now answers.now views.now) out.old }
{
    abi::stobbarel_write_ld(
        f, stamp, r, w, reads, versions, writes, values, leader, decision, view, count, numbers,
        answers, views, out, length,
    )
}

#[unsafe(no_mangle)]
pub extern "C" fn stobbarel_write_rd(key: u16, stamp: u64, out: &mut [u8], length: &mut usize) -> u8
    ensures { left result length.new out.new ≡ rd_left key stamp out.old }
{
    abi::stobbarel_write_rd(key, stamp, out, length)
}

// ---- the passage register

#[unsafe(no_mangle)]
pub extern "C" fn stobbarel_asks(passage: u64, stamp: u64, keys: &mut [u16; 4]) -> u8
    ensures { (result ≡ refusal_number (asks_of passage stamp)) × (keys.new ≡ asked_keys (asks_of passage stamp)) }
{
    abi::stobbarel_asks(passage, stamp, keys)
}

#[unsafe(no_mangle)]
pub extern "C" fn stobbarel_report(
    passage: u64,
    versions: &[u64; 4],
    values: &[u64; 4],
    out: &mut [u64; 4],
) -> u8
    ensures { (result ≡ report_number (report_of passage (lent_seen versions.now values.now))) × (out.new ≡ report_row (report_of passage (lent_seen versions.now values.now))) }
{
    abi::stobbarel_report(passage, versions, values, out)
}

#[unsafe(no_mangle)]
pub extern "C" fn stobbarel_correct_direction(
    passage: u64,
    stamp: u64,
    stamps: &[u64; 4],
    stood: &[u64; 4],
    reads: &mut [u16; 8],
    versions: &mut [u64; 8],
    writes: &mut [u16; 8],
    values: &mut [u64; 8],
) -> u8
    ensures { made result reads.new versions.new writes.new values.new ≡ made_of (direction_corrected passage (lent_seen stamps.now stood.now) stamp) }
{
    abi::stobbarel_correct_direction(
        passage, stamp, stamps, stood, reads, versions, writes, values,
    )
}

#[unsafe(no_mangle)]
pub extern "C" fn stobbarel_correct(
    passage: u64,
    stamp: u64,
    stamps: &[u64; 4],
    stood: &[u64; 4],
    new: &[u64; 4],
    reads: &mut [u16; 8],
    versions: &mut [u64; 8],
    writes: &mut [u16; 8],
    values: &mut [u64; 8],
) -> u8
    ensures { made result reads.new versions.new writes.new values.new ≡ made_of (corrected passage (lent_seen stamps.now stood.now) stamp (lent_values new.now)) }
{
    abi::stobbarel_correct(
        passage, stamp, stamps, stood, new, reads, versions, writes, values,
    )
}

#[unsafe(no_mangle)]
pub extern "C" fn stobbarel_enter(
    passage: u64,
    stamp: u64,
    stamps: &[u64; 4],
    stood: &[u64; 4],
    new: &[u64; 4],
    reads: &mut [u16; 8],
    versions: &mut [u64; 8],
    writes: &mut [u16; 8],
    values: &mut [u64; 8],
) -> u8
    ensures { made result reads.new versions.new writes.new values.new ≡ made_of (entered passage (lent_seen stamps.now stood.now) stamp (lent_values new.now)) }
{
    abi::stobbarel_enter(
        passage, stamp, stamps, stood, new, reads, versions, writes, values,
    )
}
