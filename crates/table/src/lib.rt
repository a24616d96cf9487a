// The table that the caller lends: count, low mark and folds, then a row for each entry; the check for 16, look-up, store.
#![tactic(auto, unfolding(terms::proofs::Checks::chain))]

ghost use Rattle.std.specs.Prelude.{◌≡◌, ℕ, ◌+◌, ◌-◌, ◌*◌, ◌<◌, ◌≤◌, ◌&&◌, ◌++◌, eqb, length, drop};
ghost use Rattle.terms.specs.Choice.{tab, any};
ghost use Rattle.records.specs.Numbers.{le_bytes};
ghost use Rattle.records.specs.Tx.{r_count, w_count, read_at, write_at, writes_from, TxThere};
ghost use Rattle.rules.specs.Bodies.{stamp_of, writes_key, same_body};
ghost use Rattle.rules.specs.Table.{live, fold_at};
ghost use Rattle.table.specs.Table.{head_len, low_of, folds_of, row_len, body_at, table_len, count_of, row_at, row_tx, entry_of, entry_at, entries, WfRow, Wf, place};
ghost use Rattle.table.specs.Table.{reason_wrong, vote_wrong, settled_wrong, row_wrong, row_bad, table_wrong, reason_of, vote_of, settled_of, log_of, view_bytes, state_at};
ghost use Rattle.table.specs.Table.{log_view_at, codes_of, new_row, new_count, stored};
ghost use Rattle.table.specs.Looks.{looked, plain};

use records::{Read, Write};
use rules::{Logged, Reason, Version, Vote};
use terms::{Check, Decision, Key, Refusal, Stamp, View};

// Where the low mark stands behind the count, and where the folds do, for each key a stamp and a value.
pub const LOW_AT: usize = 1;

pub const FOLDS_AT: usize = 9;

pub const FOLD: usize = 16;

// How many bytes stand in front of the rows.
pub const HEAD: usize = 8201;

// How many bytes a row has, and where in it the codes of vote, reason, decision and log stand, the log's view, the current view, and the body.
pub const ROW: usize = 180;

pub const VOTE_AT: usize = 0;

pub const REASON_AT: usize = 1;

pub const DECIDED_AT: usize = 2;

pub const LOG_AT: usize = 3;

pub const LOG_VIEW_AT: usize = 4;

pub const VIEW_AT: usize = 6;

pub const BODY_AT: usize = 8;

// A row is plain with vote none or commit and so no reason, decision and log at most 2, r and w at most 8: 15 less each of these, a byte for each.
const RAISE: u64 = 0x0707_0d0d_0f0e;

// The upper half of each of six bytes.
const HIGH: u64 = 0xf0f0_f0f0_f0f0;

// What an entry holds beside the body.
#[derive(Clone, Copy)]
pub struct State {
    pub vote: Vote,
    pub log: Option<Logged>,
    pub view: View,
    pub decided: Option<Decision>,
}

// How many bytes a table of this capacity has.
pub fn table_len(capacity: usize) -> usize
    requires { capacity ≤ 255 }
    ensures { result ≡ table_len capacity }
{
    HEAD + capacity * ROW
}

// The rows of a table.
pub fn rows(t: &[u8]) -> &[u8]
    requires { head_len ≤ length t.now }
    ensures { result.now ≡ drop head_len t.now }
{
    &t[HEAD..]
}

// How many entries a table has.
pub fn count_of(t: &[u8]) -> usize
    requires { head_len ≤ length t.now }
    ensures { (result ≡ count_of t.now) × (result < 256) }
{
    records::wide(t[0])
}

// The low mark.
pub fn low_of(t: &[u8]) -> Stamp
    requires { head_len ≤ length t.now }
    ensures { result.0 ≡ low_of t.now }
{
    Stamp(records::u64_at(t, LOW_AT))
}

// The folded version and value of a key; none past the last key.
pub fn fold_of(t: &[u8], k: Key) -> Version
    requires { head_len ≤ length t.now }
    ensures { result ≡ fold_at (folds_of t.now) k.0 }
{
    if terms::LARGEST_KEY < k.0 {
        return Version {
            stamp: Stamp(0),
            value: 0,
        };
    }
    let at = FOLDS_AT + k.0 as usize * FOLD;
    Version {
        stamp: Stamp(records::u64_at(t, at)),
        value: records::u64_at(t, at + 8),
    }
}

// Row `i` of the rows.
pub fn row(t: &[u8], i: usize) -> &[u8]
    requires { i * row_len + row_len ≤ length t.now }
    ensures { (result.now ≡ row_at t.now i) × (length result.now ≡ row_len) }
{
    let b = i * ROW;
    &t[b..b + ROW]
}

// The bytes of a row behind codes and views: those of its TX, then what is left.
pub fn tx_of(e: &[u8]) -> &[u8]
    requires { WfRow e.now }
    ensures { (result.now ≡ row_tx e.now) × TxThere result.now }
{
    &e[BODY_AT..]
}

// The body of a row.
pub fn body_of(e: &[u8]) -> &[u8]
    requires { WfRow e.now }
    ensures { result.now ≡ (entry_of e.now).body }
{
    let s = tx_of(e);
    &s[..records::tx_len(s)]
}

// Whether the entry of a row is live: decided commit, or undecided with vote commit or waiting.
#[tactic(auto, using(crate::proofs::Bodies::dead_vote), unfolding(rules::specs::Table::live, rules::specs::Table::live_by, crate::specs::Table::entry_of, crate::specs::Table::entry_with, crate::specs::Table::state_at))]
pub fn live(e: &[u8]) -> bool
    requires { length e.now ≡ row_len }
    ensures { result ≡ live (entry_of e.now) }
{
    match e[DECIDED_AT] {
        1 => true,
        2 => false,
        _ => matches!(e[VOTE_AT], 1 | 3),
    }
}

// The stamp of a TX, in a message or in a row.
pub fn stamp_of(s: &[u8]) -> Stamp
    requires { TxThere s.now }
    ensures { result.0 ≡ stamp_of s.now }
{
    Stamp(records::u64_at(s, 4))
}

// How many reads it has.
pub fn read_count(s: &[u8]) -> usize
    requires { TxThere s.now }
    ensures { (result ≡ r_count s.now) × (result ≤ 8) }
{
    records::wide(s[2])
}

// How many writes it has.
pub fn write_count(s: &[u8]) -> usize
    requires { TxThere s.now }
    ensures { (result ≡ w_count s.now) × (result ≤ 8) }
{
    records::wide(s[3])
}

// Its j-th read.
pub fn read_at(s: &[u8], j: usize) -> Read
    requires { TxThere s.now × (j < r_count s.now) }
    ensures { result ≡ read_at s.now 12 j }
{
    records::read_at(s, 12, j)
}

// Its j-th write.
pub fn write_at(s: &[u8], j: usize) -> Write
    requires { TxThere s.now × (j < w_count s.now) }
    ensures { result ≡ write_at s.now (writes_from s.now) j }
{
    records::write_at(s, 12 + records::wide(s[2]) * 10, j)
}

// Whether it writes the key.
pub fn writes_key(s: &[u8], k: Key) -> bool
    requires { TxThere s.now }
    ensures { result ≡ writes_key s.now k.0 }
{
    let p = 12 + records::wide(s[2]) * 10;
    for j in 0..records::wide(s[3]) {
        if records::u16_at(s, p + j * 10) == k.0 {
            return true;
        }
    }
    false
}

// Whether row `i` has the stamp.
fn has_stamp(t: &[u8], i: usize, s: Stamp) -> bool
    requires { (i * row_len + row_len ≤ length t.now) × WfRow (row_at t.now i) }
    ensures { result ≡ eqb (stamp_of (row_tx (row_at t.now i))) s.0 }
{
    stamp_of(tx_of(row(t, i))) == s
}

// The place of the first entry with a stamp from row `from` on, or `n`.
fn place_from(t: &[u8], n: usize, s: Stamp, from: usize) -> usize
    requires { Wf t.now n × (from ≤ n) }
    ensures { (result ≡ from + place s.0 (tab (entry_at t.now) from (n - from))) × (result ≤ n) }
{
    for i in from..n {
        if has_stamp(t, i, s) {
            return i;
        }
    }
    n
}

// The place of the first entry with a stamp among the first `n` rows, or `n`: four rows a step, since each call looks up, and a `for` took 1.8 of the time.
pub fn place(t: &[u8], n: usize, s: Stamp) -> usize
    requires { Wf t.now n }
    ensures { (result ≡ place s.0 (entries t.now n)) × (result ≤ n) }
{
    let mut at = 0;
    while 4 <= n - at {
        if has_stamp(t, at, s) {
            return at;
        }
        if has_stamp(t, at + 1, s) {
            return at + 1;
        }
        if has_stamp(t, at + 2, s) {
            return at + 2;
        }
        if has_stamp(t, at + 3, s) {
            return at + 3;
        }
        at += 4;
    }
    place_from(t, n, s, at)
}

// 16 unless the reason is 1 to 6 beside an abort, and 0 beside any other vote.
#[tactic(auto, unfolding(terms::proofs::Checks::chain, crate::specs::Table::reason_wrong))]
fn reason_wrong(v: u8, r: u8) -> Check
    ensures { result ≡ reason_wrong v r }
{
    if v == 2 {
        terms::refuse_if(r == 0, Refusal::Table)?;
        return terms::refuse_if(6 < r, Refusal::Table);
    }
    terms::refuse_if(0 < r, Refusal::Table)
}

// 16 where vote or reason is outside its list.
fn vote_wrong(e: &[u8]) -> Check
    requires { length e.now ≡ row_len }
    ensures { result ≡ vote_wrong e.now }
{
    terms::refuse_if(3 < e[VOTE_AT], Refusal::Table)?;
    reason_wrong(e[VOTE_AT], e[REASON_AT])
}

// 16 where log or decision is outside its list.
fn settled_wrong(e: &[u8]) -> Check
    requires { length e.now ≡ row_len }
    ensures { result ≡ settled_wrong e.now }
{
    terms::refuse_if(2 < e[LOG_AT], Refusal::Table)?;
    terms::refuse_if(2 < e[DECIDED_AT], Refusal::Table)
}

// 16 where r or w is above 8, or a code is outside its list: each by itself.
#[tactic(auto, unfolding(terms::proofs::Checks::chain, crate::specs::Table::row_wrong))]
fn each_wrong(e: &[u8]) -> Check
    requires { length e.now ≡ row_len }
    ensures { result ≡ row_wrong e.now }
{
    terms::refuse_if(8 < e[BODY_AT + 2], Refusal::Table)?;
    terms::refuse_if(8 < e[BODY_AT + 3], Refusal::Table)?;
    vote_wrong(e)?;
    settled_wrong(e)
}

// The four codes, r and w of a row as one number of six bytes.
fn look_of(e: &[u8]) -> u64
    requires { length e.now ≡ row_len }
    ensures { (le_bytes 6 result ≡ looked e.now) × (result < 281474976710656) }
{
    let vote = records::widened(e[VOTE_AT]);
    let reason = records::widened(e[REASON_AT]);
    let decided = records::widened(e[DECIDED_AT]);
    let log = records::widened(e[LOG_AT]);
    let r = records::widened(e[BODY_AT + 2]);
    let w = records::widened(e[BODY_AT + 3]);
    vote + 256 * (reason + 256 * (decided + 256 * log)) + 4294967296 * (r + 256 * w)
}

// Whether no byte of a look is above its bound, in one look at all six: RAISE lifts a byte that is to 16 or more, and HIGH is the bits from 16 on.
fn plain(x: u64) -> bool
    requires { x < 281474976710656 }
    ensures { result ≡ plain x }
{
    (x | (x + RAISE)) & HIGH == 0
}

// 16 where the row is wrong. Most rows are plain, and one look tells so: where every row took four, their branches moved a call's time by a third.
fn row_wrong(e: &[u8]) -> Check
    requires { length e.now ≡ row_len }
    ensures { result ≡ row_wrong e.now }
{
    if plain(look_of(e)) {
        return Ok(());
    }
    each_wrong(e)
}

// Whether row `i` is wrong.
fn bad_at(t: &[u8], i: usize) -> bool
    requires { i * row_len + row_len ≤ length t.now }
    ensures { result ≡ row_bad (row_at t.now i) }
{
    row_wrong(row(t, i)).is_err()
}

// Whether one of the rows from `from` on is wrong.
fn bad_from(t: &[u8], n: usize, from: usize) -> bool
    requires { (n * row_len ≤ length t.now) × (from ≤ n) }
    ensures { result ≡ any row_bad (tab (row_at t.now) from (n - from)) }
{
    for i in from..n {
        if bad_at(t, i) {
            return true;
        }
    }
    false
}

// Whether one of the first `n` rows is wrong: four rows a step, since each call checks them all, and a `for` took 1.4 of the time.
fn any_bad(t: &[u8], n: usize) -> bool
    requires { n * row_len ≤ length t.now }
    ensures { result ≡ any row_bad (tab (row_at t.now) 0 n) }
{
    let mut i = 0;
    while 4 <= n - i {
        if bad_at(t, i) {
            return true;
        }
        if bad_at(t, i + 1) {
            return true;
        }
        if bad_at(t, i + 2) {
            return true;
        }
        if bad_at(t, i + 3) {
            return true;
        }
        i += 4;
    }
    bad_from(t, n, i)
}

// 16 where the table cannot be taken.
#[tactic(auto, unfolding(terms::proofs::Checks::chain, crate::specs::Table::table_wrong))]
pub fn table_wrong(t: &[u8], capacity: usize) -> Check
    requires { capacity ≤ 255 }
    ensures { result ≡ table_wrong capacity t.now }
{
    terms::refuse_if(t.len() < table_len(capacity), Refusal::Table)?;
    let n = count_of(t);
    terms::refuse_if(capacity < n, Refusal::Table)?;
    terms::refuse_if(any_bad(rows(t), n), Refusal::Table)
}

// The reason that a number says.
fn reason_of(x: u8) -> Reason
    ensures { result ≡ reason_of x }
{
    match x {
        1 => Reason::Ahead,
        2 => Reason::NoVersion,
        3 => Reason::Overwritten,
        4 => Reason::Undercuts,
        5 => Reason::ReadMark,
        _ => Reason::Dependency,
    }
}

// The vote that a code and its reason's say.
fn vote_of(code: u8, reason: u8) -> Vote
    ensures { result ≡ vote_of code reason }
{
    match code {
        1 => Vote::Commit,
        2 => Vote::Abort(reason_of(reason)),
        3 => Vote::Waiting,
        _ => Vote::None,
    }
}

// The decision that a code says, or none.
fn settled_of(code: u8) -> Option<Decision>
    ensures { result ≡ settled_of code }
{
    match code {
        1 => Some(Decision::Commit),
        2 => Some(Decision::Abort),
        _ => None,
    }
}

// The log that a code and its view say, or none.
fn log_of(code: u8, view: View) -> Option<Logged>
    ensures { result ≡ log_of code view.0 }
{
    settled_of(code).map(|decision| Logged { decision, view })
}

// What a row holds beside the body.
pub fn state_of(e: &[u8]) -> State
    requires { length e.now ≡ row_len }
    ensures { result ≡ state_at e.now }
{
    let vote = vote_of(e[VOTE_AT], e[REASON_AT]);
    let log = log_of(e[LOG_AT], View(records::u16_at(e, LOG_VIEW_AT)));
    let view = View(records::u16_at(e, VIEW_AT));
    let decided = settled_of(e[DECIDED_AT]);
    State {
        vote,
        log,
        view,
        decided,
    }
}

// Whether two bodies are the same, byte for byte.
#[tactic(auto, using(crate::proofs::Bodies::bytes_same, crate::proofs::Comparing::uneven, crate::proofs::Comparing::fronts_same, crate::proofs::Comparing::front_same, crate::proofs::Comparing::same_or_apart))]
pub fn same(a: &[u8], b: &[u8]) -> bool
    ensures { result ≡ same_body a.now b.now }
{
    a == b
}

// The codes of vote, reason, decision and log.
fn put_codes(s: &mut [u8], x: State)
    requires { length s.old ≡ log_view_at }
    ensures { s.new ≡ codes_of x }
{
    let vote = x.vote;
    let log = x.log;
    let decided = x.decided;
    s[VOTE_AT] = vote.number();
    s[REASON_AT] = vote.reason();
    s[DECIDED_AT] = rules::settled_number(decided);
    s[LOG_AT] = rules::log_number(log);
}

// A body over bytes that are as many. A loop of its own: for `copy_from_slice` the archive would ask for `memmove`, which a box may not have.
fn put_body(s: &mut [u8], body: &[u8])
    requires { length s.old ≡ length body.now }
    ensures { s.new ≡ body.now }
{
    for i in 0..body.len() {
        s[i] = body[i];
    }
}

// A row of this body and of what is held beside it.
fn put_row(e: &mut [u8], body: &[u8], x: State)
    requires { (length e.old ≡ row_len) × (body_at + length body.now ≤ row_len) }
    ensures { e.new ≡ new_row e.old body.now x }
{
    let log = x.log;
    put_codes(&mut e[VOTE_AT..LOG_VIEW_AT], x);
    records::put_u16(&mut e[LOG_VIEW_AT..VIEW_AT], rules::log_view(log).0);
    records::put_u16(&mut e[VIEW_AT..BODY_AT], x.view.0);
    put_body(&mut e[BODY_AT..BODY_AT + body.len()], body);
}

// The count once row `i` is stored: one more where `i` is behind the last.
#[tactic(auto, unfolding(crate::specs::Table::new_count))]
fn new_count(n: u8, i: usize) -> u8
    requires { i < 255 }
    ensures { result ≡ new_count n i }
{
    if i == records::wide(n) {
        return n + 1;
    }
    n
}

// Row `i`, an entry's own or the one behind the last, becomes this body and what is held beside it.
pub fn store(t: &mut [u8], i: usize, body: &[u8], x: State)
    requires { (head_len + i * row_len + row_len ≤ length t.old) × (i < 255) × (body_at + length body.now ≤ row_len) }
    ensures { t.new ≡ stored t.old i body.now x }
{
    let n = new_count(t[0], i);
    let b = HEAD + i * ROW;
    put_row(&mut t[b..b + ROW], body, x);
    t[0] = n;
}
