// The engine for programs in C, or in any language that calls C, on numbers, arrays and slices: a box's calls with the answer as five
// numbers, what a table holds, records read and written, the tally, the leader's sheet, the thresholds, the passage register. Numbers stand for enums here,
// and what is told is put down in what the caller lends: that is the C interface of include/stobbarel.h, which may not change.
#![tactic(auto)]

ghost use Rattle.std.specs.Prelude.{◌≡◌, ◌∷◌, length};
ghost use Rattle.std.specs.Result.{result_unwrap_or};
ghost use Rattle.terms.specs.Group.{group_wrong};
ghost use Rattle.records.specs.declared.ViewMark.TheVariants.{VS, EL};
ghost use Rattle.records.specs.Messages.{read_tx, read_vl, read_views, read_message, handed_back};
ghost use Rattle.rules.specs.Act.{receive, due};
ghost use Rattle.engine.specs.Outcome.{kept, called, lowered, table_by};
ghost use Rattle.sheet.specs.Sheets.{reply_to, reply_values, sheet_after, reached_of};
ghost use Rattle.sheet.specs.Listing.{listing_of};
ghost use Rattle.arrays.specs.Arrays.{lent_tx, lent_list, lent_views, marked_by, refusal_number, tx_or_none, list_or_none, views_or_none, found_number, mark_number, views_in_reading, fields, fields_of, view_row, view_fields, view_fields_of, ballot_numbers, ballot_answers, ballot_views, tx_row, tx_fields, tx_fields_of, list_fields, list_fields_of};
ghost use Rattle.election.specs.Elections.{heard_values, said, sheet_heard, gathered};
ghost use Rattle.election.specs.Telling.{tell_wrong, taller, telling};
ghost use Rattle.passage.specs.Passages.{report_of, asks_of};
ghost use Rattle.passage.specs.Corrections.{direction_corrected, corrected, entered};
ghost use Rattle.abi.specs.Register.{lent_seen, lent_values, asked_keys, report_number, report_row, made, made_of};
ghost use Rattle.abi.specs.Rows.{answer_row, told_of, sheet_of, sheet_with, election_sheet, group_row, thresholds_by, version, LeavesRow};
ghost use Rattle.held.specs.Held.{held_of, held_row, entry_told, how_many_told};
ghost use Rattle.abi.specs.Left.{left, tx_left, vl_left, views_left, pr_left, listed_mark, listed_left, viewed_left, rd_left};

use held::Holding;
use passage::{Asked, Report, Seen, Values};
use records::{Mark, Message, NO_LIST, NO_TX, NO_VIEWS, Transaction, ViewList, ViewMark, VoteList};
use rules::{Answer, Told, Version};
use sheet::Sheet;
use terms::{Group, Key, Refusal, Stamp};

// The library's version, as a number.
pub fn stobbarel_version() -> u32
    ensures { result ≡ version }
{
    7000
}

// An answer as five numbers: 1 voted, 2 decided, 3 logged, 4 done, 5 found, 6 refused, 7 elected or 8 raised, and then its values.
pub fn values(a: Answer) -> [u64; 5]
    ensures { result ≡ answer_row a }
{
    match a {
        Answer::Voted(v, visited) => [
            1,
            records::widened(v.number()),
            records::widened(v.reason()),
            records::widened(rules::visited_told(visited)),
            rules::visited_number(visited) as u64,
        ],
        Answer::Decided(d) => [2, records::widened(d.number()), 0, 0, 0],
        Answer::Logged(d, v) => [3, records::widened(d.number()), v.0 as u64, 0, 0],
        Answer::Done => [4, 0, 0, 0, 0],
        Answer::Found(c, u) => [5, c.stamp.0, c.value, u.stamp.0, u.value],
        Answer::Refused(r) => [
            6,
            records::widened(r.number()),
            records::widened(r.lacking()),
            0,
            0,
        ],
        Answer::Elected(d, v, leader) => [
            7,
            records::widened(d.number()),
            v.0 as u64,
            records::widened(leader),
            0,
        ],
        Answer::Raised => [8, 0, 0, 0, 0],
    }
}

// What a box is told, lent as four numbers.
fn told_of(f: u64, capacity: u64, clock: u64, delta: u64) -> Told
    ensures { result ≡ told_of f capacity clock delta }
{
    Told {
        f,
        capacity,
        clock,
        delta,
    }
}

// Any of the six messages, by its mark.
pub fn stobbarel_receive(
    table: &mut [u8],
    marks: &mut [u64; 512],
    f: u64,
    capacity: u64,
    clock: u64,
    delta: u64,
    message: &[u8],
    out: &mut [u64; 5],
)
    ensures { LeavesRow (called receive (told_of f capacity clock delta) (kept table.old marks.old) message.now) (kept table.old marks.old) out.new (kept table.new marks.new) }
{
    let told = told_of(f, capacity, clock, delta);
    let answer = engine::receive(table, marks, told, message);
    *out = values(answer);
}

// A message where one with this mark is due: 1 PR, 2 LG, 3 DC, 4 RD, 5 IV, 6 LD.
#[tactic(auto, using(engine::proofs::Entrance::due_told))]
pub fn stobbarel_due(
    mark: u64,
    table: &mut [u8],
    marks: &mut [u64; 512],
    f: u64,
    capacity: u64,
    clock: u64,
    delta: u64,
    message: &[u8],
    out: &mut [u64; 5],
)
    ensures { LeavesRow (called (due (marked_by mark)) (told_of f capacity clock delta) (kept table.old marks.old) message.now) (kept table.old marks.old) out.new (kept table.new marks.new) }
{
    let told = told_of(f, capacity, clock, delta);
    let answer = engine::due(arrays::marked_of(mark), table, marks, told, message);
    *out = values(answer);
}

// The low mark raised. It is told f and capacity only: no clock matters.
pub fn stobbarel_raise(table: &mut [u8], f: u64, capacity: u64, low: u64, out: &mut [u64; 5])
    ensures { (out.new ≡ answer_row (lowered low (told_of f capacity 0 0) table.old).answer) × (table.new ≡ table_by table.old (lowered low (told_of f capacity 0 0) table.old).change) }
{
    let told = told_of(f, capacity, 0, 0);
    let answer = engine::raise_low(table, told, Stamp(low));
    *out = values(answer);
}

// What is told of a table's entry: zeros where nothing is held, and where it is refused.
fn held_row(told: Result<Option<Holding>, Refusal>) -> [u64; 8]
    ensures { result ≡ held_row told }
{
    match told {
        Ok(Some(holding)) => held::numbers(holding),
        Ok(None) | Err(_) => [0; 8],
    }
}

// What a table holds under a stamp.
pub fn stobbarel_held(table: &[u8], capacity: u64, stamp: u64, out: &mut [u64; 8]) -> u8
    ensures { (result ≡ refusal_number (held_of table.now capacity stamp)) × (out.new ≡ held_row (held_of table.now capacity stamp)) }
{
    let holding = held::held(table, capacity, Stamp(stamp));
    *out = held_row(holding);
    arrays::refusal_number(&holding)
}

// How many entries a table has.
pub fn stobbarel_entries(table: &[u8], capacity: u64, count: &mut usize) -> u8
    ensures { (result ≡ refusal_number (how_many_told table.now capacity)) × (count.new ≡ result_unwrap_or (how_many_told table.now capacity) 0) }
{
    let entries = held::how_many(table, capacity);
    *count = entries.unwrap_or(0);
    arrays::refusal_number(&entries)
}

// One of them, the first being 0.
pub fn stobbarel_entry(table: &[u8], capacity: u64, i: u64, out: &mut [u64; 8]) -> u8
    ensures { (result ≡ refusal_number (entry_told table.now capacity i)) × (out.new ≡ held_row (entry_told table.now capacity i)) }
{
    let entry = held::entry(table, capacity, i);
    *out = held_row(entry);
    arrays::refusal_number(&entry)
}

// What is put down of an answer: zeros where it is refused.
#[tactic(auto, unfolding(records::specs::Tx::held_tx, records::specs::Tx::no_tx))]
fn tx_or_none(answer: Result<Transaction, Refusal>) -> Transaction
    ensures { result ≡ tx_or_none answer }
{
    answer.unwrap_or(NO_TX)
}

#[tactic(auto, unfolding(records::specs::Vl::held_list, records::specs::Vl::no_list))]
fn list_or_none(answer: Result<VoteList, Refusal>) -> VoteList
    ensures { result ≡ list_or_none answer }
{
    answer.unwrap_or(NO_LIST)
}

#[tactic(auto, unfolding(records::specs::Views::held_views, records::specs::Views::no_views))]
fn views_or_none(answer: Result<ViewList, Refusal>) -> ViewList
    ensures { result ≡ views_or_none answer }
{
    answer.unwrap_or(NO_VIEWS)
}

// Reading alone: the refusal's number, or 0.
pub fn stobbarel_reading(f: u64, message: &[u8]) -> u8
    ensures { result ≡ found_number (read_message f message.now) }
{
    let reading = reading::read(f, message);
    arrays::found_number(&reading)
}

// A TX by itself.
pub fn stobbarel_reading_tx(bytes: &[u8]) -> u8
    ensures { result ≡ refusal_number (read_tx bytes.now) }
{
    let tx = reading::read_tx(bytes);
    arrays::refusal_number(&tx)
}

// Its values, put down in what is lent for them: all 0 where it is refused.
pub fn stobbarel_tx_of(
    bytes: &[u8],
    head: &mut [u64; 3],
    reads: &mut [u16; 8],
    versions: &mut [u64; 8],
    writes: &mut [u16; 8],
    values: &mut [u64; 8],
) -> u8
    ensures { (result ≡ refusal_number (read_tx bytes.now)) × (head.new ≡ tx_row (tx_or_none (read_tx bytes.now))) × (tx_fields reads.new versions.new writes.new values.new ≡ tx_fields_of (tx_or_none (read_tx bytes.now))) }
{
    let reading = reading::read_tx(bytes);
    let x = tx_or_none(reading);
    *head = [x.stamp.0, x.r as u64, x.w as u64];
    arrays::put_tx(x, reads, versions, writes, values);
    arrays::refusal_number(&reading)
}

// A VL by itself.
pub fn stobbarel_reading_vl(f: u64, bytes: &[u8]) -> u8
    ensures { result ≡ refusal_number (read_vl f bytes.now) }
{
    let list = reading::read_vl(f, bytes);
    arrays::refusal_number(&list)
}

// A VS by itself.
pub fn stobbarel_reading_vs(f: u64, bytes: &[u8]) -> u8
    ensures { result ≡ refusal_number (read_views VS f bytes.now) }
{
    let told = reading::read_views(ViewMark::VS, f, bytes);
    arrays::refusal_number(&told)
}

// An EL by itself.
pub fn stobbarel_reading_el(f: u64, bytes: &[u8]) -> u8
    ensures { result ≡ refusal_number (read_views EL f bytes.now) }
{
    let told = reading::read_views(ViewMark::EL, f, bytes);
    arrays::refusal_number(&told)
}

// A message's values, put down in what is lent for them: all 0 where it is refused.
#[tactic(auto, using(arrays::proofs::Reading::parts_put))]
pub fn stobbarel_fields(
    f: u64,
    message: &[u8],
    head: &mut [u64; 9],
    reads: &mut [u16; 8],
    versions: &mut [u64; 8],
    writes: &mut [u16; 8],
    values: &mut [u64; 8],
    numbers: &mut [u8; 26],
    answers: &mut [u8; 26],
) -> u8
    ensures { (result ≡ found_number (read_message f message.now)) × (fields head.new reads.new versions.new writes.new values.new numbers.new answers.new ≡ fields_of (read_message f message.now)) }
{
    let reading = reading::read(f, message);
    let parts = arrays::parts_of(&reading);
    arrays::put_fields(
        &parts, head, reads, versions, writes, values, numbers, answers,
    );
    arrays::found_number(&reading)
}

// The list of views of an IV or an LD; zeros in another message, and where it was refused.
#[tactic(auto, unfolding(records::specs::Views::held_views, records::specs::Views::no_views))]
fn views_in_reading(reading: &Result<Message, Refusal>) -> ViewList
    ensures { result ≡ views_in_reading reading.now }
{
    match *reading {
        Ok(Message::IV(_, l) | Message::LD(_, l)) => l,
        _ => NO_VIEWS,
    }
}

// What an IV or an LD lists, put down in what is lent for it: all 0 in another message, and where it is refused.
#[tactic(auto, unfolding(arrays::specs::Arrays::view_fields_of))]
pub fn stobbarel_views(
    f: u64,
    message: &[u8],
    head: &mut [u64; 5],
    numbers: &mut [u8; 26],
    answers: &mut [u8; 26],
    views: &mut [u16; 26],
) -> u8
    ensures { (result ≡ found_number (read_message f message.now)) × (head.new ≡ mark_number (read_message f message.now) ∷ view_row (views_in_reading (read_message f message.now))) × (numbers.new ≡ ballot_numbers (views_in_reading (read_message f message.now)).ballots) × (answers.new ≡ ballot_answers (views_in_reading (read_message f message.now)).ballots) × (views.new ≡ ballot_views (views_in_reading (read_message f message.now)).ballots) }
{
    let reading = reading::read(f, message);
    let told = views_in_reading(&reading);
    let mut row = [0; 4];
    arrays::put_views(told, &mut row, numbers, answers, views);
    let [leader, decision, view, count] = row;
    *head = [arrays::found_mark(&reading), leader, decision, view, count];
    arrays::found_number(&reading)
}

// The length of the transaction's bytes inside a message, which stand behind its mark.
pub fn stobbarel_part(f: u64, message: &[u8]) -> usize
    ensures { result ≡ length (handed_back f message.now) }
{
    let part = reading::tx_part(f, message);
    part.len()
}

// A sheet, lent as its four numbers.
fn sheet_with(kind: u8, view: u16, commits: u32, aborts: u32) -> Sheet
    ensures { result ≡ sheet_with kind view commits aborts }
{
    Sheet {
        kind,
        view,
        commits,
        aborts,
    }
}

// The gateway's sheet, lent as a kind and two masks: no answer looks at its view.
fn sheet_of(kind: u8, commits: u32, aborts: u32) -> Sheet
    ensures { result ≡ sheet_of kind commits aborts }
{
    sheet_with(kind, 0, commits, aborts)
}

// The gateway's tally: a sheet of one kind takes a box's answer.
pub fn stobbarel_take(
    kind: u8,
    commits: &mut u32,
    aborts: &mut u32,
    f: u64,
    number: u64,
    answer: u64,
    out: &mut [u8; 5],
)
    ensures { (out.new ≡ reply_values (reply_to (sheet_of kind commits.old aborts.old) f number answer)) × (commits.new ≡ (sheet_after (sheet_of kind commits.old aborts.old) f number answer).commits) × (aborts.new ≡ (sheet_after (sheet_of kind commits.old aborts.old) f number answer).aborts) }
{
    let s = sheet_of(kind, *commits, *aborts);
    let reply = sheet::reply_to(s, f, number, answer);
    let after = sheet::added(s, f, number, answer);
    *commits = after.commits;
    *aborts = after.aborts;
    *out = reply.values();
}

// What a sheet has reached as it is, as a reply tells it.
pub fn stobbarel_reached(kind: u8, commits: u32, aborts: u32, f: u64, out: &mut [u8; 5])
    ensures { out.new ≡ reply_values (reached_of (sheet_of kind commits aborts) f) }
{
    let reached = sheet::reached(sheet_of(kind, commits, aborts), f);
    *out = reached.values();
}

// The list of the boxes under a decision, put down; 14, 16, 8 or 0.
pub fn stobbarel_sheet_list(
    kind: u8,
    view: u16,
    commits: u32,
    aborts: u32,
    f: u64,
    decision: u64,
    head: &mut [u64; 4],
    numbers: &mut [u8; 26],
    answers: &mut [u8; 26],
) -> u8
    ensures { (result ≡ refusal_number (listing_of (sheet_with kind view commits aborts) f decision)) × (list_fields head.new numbers.new answers.new ≡ list_fields_of (list_or_none (listing_of (sheet_with kind view commits aborts) f decision))) }
{
    let s = sheet_with(kind, view, commits, aborts);
    let listing = sheet::list_by(s, f, decision);
    arrays::put_list(list_or_none(listing), head, numbers, answers);
    arrays::refusal_number(&listing)
}

// The leader's sheet, lent as a view and two masks.
fn election_sheet(view: u16, commits: u32, aborts: u32) -> Sheet
    ensures { result ≡ election_sheet view commits aborts }
{
    sheet_with(2, view, commits, aborts)
}

// The leader's sheet takes a box's election answer, given with a view.
pub fn stobbarel_elect(
    view: u16,
    commits: &mut u32,
    aborts: &mut u32,
    f: u64,
    number: u64,
    answer: u64,
    given: u64,
    out: &mut [u8; 2],
)
    ensures { (out.new ≡ heard_values (said (election_sheet view commits.old aborts.old) f number answer given)) × (commits.new ≡ (sheet_heard (election_sheet view commits.old aborts.old) f number answer given).commits) × (aborts.new ≡ (sheet_heard (election_sheet view commits.old aborts.old) f number answer given).aborts) }
{
    let s = election_sheet(view, *commits, *aborts);
    let heard = election::said(s, f, number, answer, given);
    let after = election::sheet_heard(s, f, number, answer, given);
    *commits = after.commits;
    *aborts = after.aborts;
    *out = heard.values();
}

// The EL of a leader's sheet, put down; 14, 16, 23 or 0.
pub fn stobbarel_election(
    view: u16,
    commits: u32,
    aborts: u32,
    f: u64,
    stamp: u64,
    head: &mut [u64; 4],
    numbers: &mut [u8; 26],
    answers: &mut [u8; 26],
    views: &mut [u16; 26],
) -> u8
    ensures { (result ≡ refusal_number (gathered (election_sheet view commits aborts) f stamp)) × (view_fields head.new numbers.new answers.new views.new ≡ view_fields_of (views_or_none (gathered (election_sheet view commits aborts) f stamp))) }
{
    let g = election::gather(election_sheet(view, commits, aborts), f, Stamp(stamp));
    arrays::put_views(views_or_none(g), head, numbers, answers, views);
    arrays::refusal_number(&g)
}

// The highest view that each box told: one more is told.
pub fn stobbarel_tell(told: &mut u32, views: &mut [u16; 26], f: u64, number: u64, view: u64) -> u8
    ensures { (result ≡ refusal_number (tell_wrong told.old f number view)) × (told.new ≡ (taller told.old views.old f number view).told) × (views.new ≡ (taller told.old views.old f number view).views) }
{
    match election::taller(*told, *views, f, number, view) {
        Ok(highest) => {
            let heights = highest.views; // a variable of its own: a field that is an array, stored straight, gets no proof
            *told = highest.told;
            *views = heights;
            0
        }
        Err(why) => why.number(),
    }
}

// The boxes that told a view, and the view of each, as a VS lists them; 14, 16 or 0.
#[tactic(auto, unfolding(arrays::specs::Arrays::view_fields_of))]
pub fn stobbarel_told(
    told: u32,
    views: &[u16; 26],
    f: u64,
    count: &mut usize,
    numbers: &mut [u8; 26],
    listed: &mut [u16; 26],
) -> u8
    ensures { (result ≡ refusal_number (telling told views.now f)) × (count.new ≡ (views_or_none (telling told views.now f)).count) × (numbers.new ≡ ballot_numbers (views_or_none (telling told views.now f)).ballots) × (listed.new ≡ ballot_views (views_or_none (telling told views.now f)).ballots) }
{
    let telling = election::listed(told, *views, f);
    let mut head = [0; 4];
    let mut answers = [0; 26];
    let list = views_or_none(telling);
    arrays::put_views(list, &mut head, numbers, &mut answers, listed);
    *count = list.count;
    arrays::refusal_number(&telling)
}

// n and the five thresholds.
fn group_row(g: Group) -> [u64; 6]
    ensures { result ≡ group_row g.f }
{
    [
        g.n() as u64,
        g.commit_list() as u64,
        g.abort_list() as u64,
        g.commit_proof() as u64,
        g.abort_proof() as u64,
        g.log_proof() as u64,
    ]
}

// The number of boxes and the five thresholds of a group; 14 or 0.
#[tactic(auto, using(terms::proofs::Groups::group_small), unfolding(crate::specs::Rows::thresholds_by))]
pub fn stobbarel_thresholds(f: u64, out: &mut [u64; 6]) -> u8
    ensures { (result ≡ refusal_number (group_wrong f)) × (out.new ≡ thresholds_by (group_wrong f) f out.old) }
{
    if let Err(why) = terms::group_wrong(f) {
        return why.number();
    }
    *out = group_row(Group { f: f as u8 });
    0
}

// ---- writing

// The mark of a message with a list, by its number; another number stands for a message without one.
#[tactic(auto, unfolding(crate::specs::Left::listed_mark))]
fn listed_mark(mark: u64) -> Mark
    ensures { result ≡ listed_mark mark }
{
    match mark {
        2 => Mark::LG,
        3 => Mark::DC,
        _ => Mark::PR,
    }
}

// A TX by itself.
#[tactic(auto, unfolding(crate::specs::Left::left_by))]
pub fn stobbarel_write_tx(
    stamp: u64,
    r: usize,
    w: usize,
    reads: &[u16; 8],
    versions: &[u64; 8],
    writes: &[u16; 8],
    values: &[u64; 8],
    out: &mut [u8],
    length: &mut usize,
) -> u8
    ensures { left result length.new out.new ≡ tx_left (lent_tx stamp r w reads.now versions.now writes.now values.now) out.old }
{
    let x = arrays::tx(stamp, r, w, reads, versions, writes, values);
    let written = writing::write_tx(x, out);
    arrays::wrote(written, length)
}

// A VL by itself.
#[tactic(auto, unfolding(crate::specs::Left::left_by))]
pub fn stobbarel_write_vl(
    f: u64,
    kind: u8,
    decision: u8,
    view: u16,
    count: usize,
    numbers: &[u8; 26],
    answers: &[u8; 26],
    out: &mut [u8],
    length: &mut usize,
) -> u8
    ensures { left result length.new out.new ≡ vl_left f (lent_list kind decision view count numbers.now answers.now) out.old }
{
    let l = arrays::list(kind, decision, view, count, numbers, answers);
    let written = writing::write_vl(f, l, out);
    arrays::wrote(written, length)
}

// A VS by itself.
#[tactic(auto, unfolding(crate::specs::Left::left_by))]
pub fn stobbarel_write_vs(
    f: u64,
    count: usize,
    numbers: &[u8; 26],
    views: &[u16; 26],
    out: &mut [u8],
    length: &mut usize,
) -> u8
    ensures { left result length.new out.new ≡ views_left VS f (lent_views 0 0 0 count numbers.now numbers.now views.now) out.old }
{
    let l = arrays::views(0, 0, 0, count, numbers, numbers, views);
    let written = writing::write_views(ViewMark::VS, f, l, out);
    arrays::wrote(written, length)
}

// An EL by itself.
#[tactic(auto, unfolding(crate::specs::Left::left_by))]
pub fn stobbarel_write_el(
    f: u64,
    leader: u8,
    decision: u8,
    view: u16,
    count: usize,
    numbers: &[u8; 26],
    answers: &[u8; 26],
    views: &[u16; 26],
    out: &mut [u8],
    length: &mut usize,
) -> u8
    ensures { left result length.new out.new ≡ views_left EL f (lent_views leader decision view count numbers.now answers.now views.now) out.old }
{
    let l = arrays::views(leader, decision, view, count, numbers, answers, views);
    let written = writing::write_views(ViewMark::EL, f, l, out);
    arrays::wrote(written, length)
}

// PR: a transaction to vote on.
#[tactic(auto, unfolding(crate::specs::Left::left_by))]
pub fn stobbarel_write_pr(
    stamp: u64,
    r: usize,
    w: usize,
    reads: &[u16; 8],
    versions: &[u64; 8],
    writes: &[u16; 8],
    values: &[u64; 8],
    out: &mut [u8],
    length: &mut usize,
) -> u8
    ensures { left result length.new out.new ≡ pr_left (lent_tx stamp r w reads.now versions.now writes.now values.now) out.old }
{
    let x = arrays::tx(stamp, r, w, reads, versions, writes, values);
    let written = writing::write_pr(x, out);
    arrays::wrote(written, length)
}

// LG or DC: a transaction and a list.
#[tactic(auto, unfolding(crate::specs::Left::left_by))]
pub fn stobbarel_write_listed(
    mark: u64,
    f: u64,
    stamp: u64,
    r: usize,
    w: usize,
    reads: &[u16; 8],
    versions: &[u64; 8],
    writes: &[u16; 8],
    values: &[u64; 8],
    kind: u8,
    decision: u8,
    view: u16,
    count: usize,
    numbers: &[u8; 26],
    answers: &[u8; 26],
    out: &mut [u8],
    length: &mut usize,
) -> u8
    ensures { left result length.new out.new ≡ listed_left (listed_mark mark) f (lent_tx stamp r w reads.now versions.now writes.now values.now) (lent_list kind decision view count numbers.now answers.now) out.old }
{
    let x = arrays::tx(stamp, r, w, reads, versions, writes, values);
    let l = arrays::list(kind, decision, view, count, numbers, answers);
    let written = writing::write_listed(listed_mark(mark), f, x, l, out);
    arrays::wrote(written, length)
}

// IV: a transaction and views.
#[tactic(auto, unfolding(crate::specs::Left::left_by))]
pub fn stobbarel_write_iv(
    f: u64,
    stamp: u64,
    r: usize,
    w: usize,
    reads: &[u16; 8],
    versions: &[u64; 8],
    writes: &[u16; 8],
    values: &[u64; 8],
    count: usize,
    numbers: &[u8; 26],
    views: &[u16; 26],
    out: &mut [u8],
    length: &mut usize,
) -> u8
    ensures { left result length.new out.new ≡ viewed_left VS f (lent_tx stamp r w reads.now versions.now writes.now values.now) (lent_views 0 0 0 count numbers.now numbers.now views.now) out.old }
{
    let x = arrays::tx(stamp, r, w, reads, versions, writes, values);
    let l = arrays::views(0, 0, 0, count, numbers, numbers, views);
    let written = writing::write_viewed(ViewMark::VS, f, x, l, out);
    arrays::wrote(written, length)
}

// LD: a transaction and election answers.
#[tactic(auto, unfolding(crate::specs::Left::left_by))]
pub fn stobbarel_write_ld(
    f: u64,
    stamp: u64,
    r: usize,
    w: usize,
    reads: &[u16; 8],
    versions: &[u64; 8],
    writes: &[u16; 8],
    values: &[u64; 8],
    leader: u8,
    decision: u8,
    view: u16,
    count: usize,
    numbers: &[u8; 26],
    answers: &[u8; 26],
    views: &[u16; 26],
    out: &mut [u8],
    length: &mut usize,
) -> u8
    ensures { left result length.new out.new ≡ viewed_left EL f (lent_tx stamp r w reads.now versions.now writes.now values.now) (lent_views leader decision view count numbers.now answers.now views.now) out.old }
{
    let x = arrays::tx(stamp, r, w, reads, versions, writes, values);
    let l = arrays::views(leader, decision, view, count, numbers, answers, views);
    let written = writing::write_viewed(ViewMark::EL, f, x, l, out);
    arrays::wrote(written, length)
}

// RD: what stands at a key.
#[tactic(auto, unfolding(crate::specs::Left::left_by))]
pub fn stobbarel_write_rd(key: u16, stamp: u64, out: &mut [u8], length: &mut usize) -> u8
    ensures { left result length.new out.new ≡ rd_left key stamp out.old }
{
    let written = writing::write_rd(Key(key), Stamp(stamp), out);
    arrays::wrote(written, length)
}

// ---- the passage register

// What was seen at a passage's keys: committed versions and values, in the keys' order.
#[tactic(auto, unfolding(crate::specs::Register::lent_seen))]
fn seen_of(versions: &[u64; 4], values: &[u64; 4]) -> Seen
    ensures { result ≡ lent_seen versions.now values.now }
{
    let at = |i: usize| Version {
        stamp: Stamp(versions[i]),
        value: values[i],
    };
    Seen {
        train: at(0),
        direction: at(1),
        axles: at(2),
        hot: at(3),
    }
}

#[tactic(auto, unfolding(crate::specs::Register::lent_values))]
fn values_of(values: &[u64; 4]) -> Values
    ensures { result ≡ lent_values values.now }
{
    let [train, direction, axles, hot] = *values;
    Values {
        train,
        direction,
        axles,
        hot,
    }
}

// The keys of four RDs; zeros where they are refused.
fn asked_keys(asked: Result<Asked, Refusal>) -> [u16; 4]
    ensures { result ≡ asked_keys asked }
{
    match asked {
        Ok(a) => [a.train.key.0, a.direction.key.0, a.axles.key.0, a.hot.key.0],
        Err(_) => [0; 4],
    }
}

// The keys of a passage's four RDs; 26, 5 or 0.
pub fn stobbarel_asks(passage: u64, stamp: u64, keys: &mut [u16; 4]) -> u8
    ensures { (result ≡ refusal_number (asks_of passage stamp)) × (keys.new ≡ asked_keys (asks_of passage stamp)) }
{
    let asked = passage::asks(passage, Stamp(stamp));
    *keys = asked_keys(asked);
    arrays::refusal_number(&asked)
}

// A report's numbers; zeros where it is refused.
fn report_row(reported: Result<Report, Refusal>) -> [u64; 4]
    ensures { result ≡ report_row reported }
{
    match reported {
        Ok(r) => [r.train, r.direction, r.axles, r.hot],
        Err(_) => [0; 4],
    }
}

// A passage's report; 26 to 30 or 0.
pub fn stobbarel_report(
    passage: u64,
    versions: &[u64; 4],
    values: &[u64; 4],
    out: &mut [u64; 4],
) -> u8
    ensures { (result ≡ report_number (report_of passage (lent_seen versions.now values.now))) × (out.new ≡ report_row (report_of passage (lent_seen versions.now values.now))) }
{
    let reported = passage::report_of(passage, seen_of(versions, values));
    *out = report_row(reported);
    arrays::refusal_number(&reported)
}

// A transaction that was made, put down; its refusal's number, or 0.
#[tactic(auto, unfolding(crate::specs::Register::made_of))]
fn put_made(
    m: Result<Transaction, Refusal>,
    reads: &mut [u16; 8],
    versions: &mut [u64; 8],
    writes: &mut [u16; 8],
    values: &mut [u64; 8],
) -> u8
    ensures { made result reads.new versions.new writes.new values.new ≡ made_of m }
{
    arrays::put_tx(tx_or_none(m), reads, versions, writes, values);
    arrays::refusal_number(&m)
}

// The direction's correction: 26 to 30, 5, 7 or 0.
pub fn stobbarel_correct_direction(
    passage: u64,
    stamp: u64,
    stamps: &[u64; 4],
    stood: &[u64; 4],
    reads: &mut [u16; 8],
    versions: &mut [u64; 8],
    writes: &mut [u16; 8],
    values: &mut [u64; 8],
) -> u8
    ensures { made result reads.new versions.new writes.new values.new ≡ made_of (direction_corrected passage (lent_seen stamps.now stood.now) stamp) }
{
    let seen = seen_of(stamps, stood);
    let m = passage::correct_direction(passage, seen, Stamp(stamp));
    put_made(m, reads, versions, writes, values)
}

// A general correction, with four new values: the same.
pub fn stobbarel_correct(
    passage: u64,
    stamp: u64,
    stamps: &[u64; 4],
    stood: &[u64; 4],
    new: &[u64; 4],
    reads: &mut [u16; 8],
    versions: &mut [u64; 8],
    writes: &mut [u16; 8],
    values: &mut [u64; 8],
) -> u8
    ensures { made result reads.new versions.new writes.new values.new ≡ made_of (corrected passage (lent_seen stamps.now stood.now) stamp (lent_values new.now)) }
{
    let seen = seen_of(stamps, stood);
    let m = passage::correct(passage, seen, Stamp(stamp), values_of(new));
    put_made(m, reads, versions, writes, values)
}

// An entry over whatever stands there: 26, 28 to 30, 5, 7 or 0.
pub fn stobbarel_enter(
    passage: u64,
    stamp: u64,
    stamps: &[u64; 4],
    stood: &[u64; 4],
    new: &[u64; 4],
    reads: &mut [u16; 8],
    versions: &mut [u64; 8],
    writes: &mut [u16; 8],
    values: &mut [u64; 8],
) -> u8
    ensures { made result reads.new versions.new writes.new values.new ≡ made_of (entered passage (lent_seen stamps.now stood.now) stamp (lent_values new.now)) }
{
    let seen = seen_of(stamps, stood);
    let m = passage::enter(passage, seen, Stamp(stamp), values_of(new));
    put_made(m, reads, versions, writes, values)
}
