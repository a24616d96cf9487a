// What a lent table holds under a stamp, and its entries one by one: where the body stands in its bytes, and the vote, log, view and decision beside it. A gateway that finishes
// what another began gets the body from a box's host, which reads it off its table with this.
#![tactic(auto)]

ghost use Rattle.std.specs.Prelude.{◌≡◌, ◌+◌, ◌*◌, ◌≤◌, ◌<◌, drop, length, Some};
ghost use Rattle.std.proofs.Math.Option.{some};
ghost use Rattle.table.specs.Table.{head_len, row_len, body_at, count_of, entry_of, WfRow, Wf};
ghost use Rattle.held.specs.Held.{held_wrong, holding_of, found_in, held_of, body_held, holding_row, entry_in, entry_told, how_many_told};

use table::State;
use terms::{Check, Refusal, Stamp};

// What is held under a stamp: where the body begins in the table's slice, how many bytes it has, and what stands beside it.
#[derive(Clone, Copy)]
pub struct Holding {
    pub at: usize,
    pub len: usize,
    pub state: State,
}

// 14, then 16.
#[tactic(auto, using(terms::proofs::Groups::capacity_small), unfolding(terms::proofs::Checks::chain, crate::specs::Held::held_wrong))]
fn held_wrong(t: &[u8], capacity: u64) -> Check
    ensures { result ≡ held_wrong capacity t.now }
{
    terms::capacity_wrong(capacity)?;
    table::table_wrong(t, capacity as usize)
}

// The entry of row `i`.
fn in_row(e: &[u8], i: usize) -> Holding
    requires { WfRow e.now × (i < 255) }
    ensures { Some result ≡ holding_of (head_len + i * row_len + body_at) (some (entry_of e.now)) }
{
    let body = table::body_of(e);
    Holding {
        at: table::HEAD + i * table::ROW + table::BODY_AT,
        len: body.len(),
        state: table::state_of(e),
    }
}

// The first entry with the stamp, in a table that is taken.
fn found_in(t: &[u8], stamp: Stamp) -> Option<Holding>
    requires { Wf (drop head_len t.now) (count_of t.now) × (head_len ≤ length t.now) × (count_of t.now ≤ 255) }
    ensures { result ≡ found_in t.now stamp.0 }
{
    let n = table::count_of(t);
    let rows = table::rows(t);
    let i = table::place(rows, n, stamp);
    if i < n {
        return Some(in_row(table::row(rows, i), i));
    }
    None
}

// What a table holds under a stamp: 14, 16, or the first entry with it.
#[tactic(auto, using(crate::proofs::Found::right), unfolding(terms::proofs::Checks::chain, crate::specs::Held::held_of))]
pub fn held(table: &[u8], capacity: u64, stamp: Stamp) -> Result<Option<Holding>, Refusal>
    ensures { result ≡ held_of table.now capacity stamp.0 }
{
    held_wrong(table, capacity)?;
    Ok(found_in(table, stamp))
}

// The body that is held under a stamp: a part of the table's slice, empty where it is refused or nothing is held.
pub fn held_body(table: &[u8], capacity: u64, stamp: Stamp) -> &[u8]
    ensures { result.now ≡ body_held table.now capacity stamp.0 }
{
    match held(table, capacity, stamp) {
        Ok(Some(holding)) => &table[holding.at..holding.at + holding.len],
        Ok(None) => &table[..0],
        Err(_) => &table[..0],
    }
}

// Entry `i`, in a table that is taken.
fn entry_in(t: &[u8], i: usize) -> Option<Holding>
    requires { Wf (drop head_len t.now) (count_of t.now) × (head_len ≤ length t.now) × (count_of t.now ≤ 255) }
    ensures { result ≡ entry_in t.now i }
{
    let n = table::count_of(t);
    let rows = table::rows(t);
    if i < n {
        return Some(in_row(table::row(rows, i), i));
    }
    None
}

// Entry `i` of a table, the first being 0: 14, 16, or what is held there; nothing where there are not so many.
#[tactic(auto, using(crate::proofs::Found::right), unfolding(terms::proofs::Checks::chain, crate::specs::Held::entry_told))]
pub fn entry(table: &[u8], capacity: u64, i: u64) -> Result<Option<Holding>, Refusal>
    ensures { result ≡ entry_told table.now capacity i }
{
    held_wrong(table, capacity)?;
    Ok(entry_in(table, i as usize))
}

// How many entries a table has: 14, 16, or the count.
#[tactic(auto, using(table::proofs::Looking::entries_count, crate::proofs::Found::right), unfolding(terms::proofs::Checks::chain, crate::specs::Held::how_many_told))]
pub fn how_many(table: &[u8], capacity: u64) -> Result<usize, Refusal>
    ensures { result ≡ how_many_told table.now capacity }
{
    held_wrong(table, capacity)?;
    Ok(table::count_of(table))
}

// What is held as eight numbers: place and length of the body, vote, reason, decision, log, the log's view, the current view.
pub fn numbers(holding: Holding) -> [u64; 8]
    ensures { result ≡ holding_row holding }
{
    let state = holding.state;
    [
        holding.at as u64,
        holding.len as u64,
        records::widened(state.vote.number()),
        records::widened(state.vote.reason()),
        records::widened(rules::settled_number(state.decided)),
        records::widened(rules::log_number(state.log)),
        rules::log_view(state.log).0 as u64,
        state.view.0 as u64,
    ]
}
