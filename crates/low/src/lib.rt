// The low mark of a lent table: the check that gives 18 and 19, and the raise, which folds what is committed and drops all at or below it.
#![tactic(auto)]

ghost use Rattle.std.specs.Prelude.{◌≡◌, ℕ, ◌+◌, ◌*◌, ◌<◌, ◌≤◌, List, length, drop};
ghost use Rattle.terms.specs.Choice.{any};
ghost use Rattle.records.specs.Tx.{TxThere};
ghost use Rattle.rules.specs.Bodies.{stamp_of, writes_of};
ghost use Rattle.rules.specs.Low.{low_wrong, open_up_to};
ghost use Rattle.table.specs.Table.{box_from, count_of, entries, entries_of, entry_at, fold_len, head_len, row_at, row_len, Wf, WfRow};
ghost use Rattle.low.specs.Raising.{fold_bytes, open_bytes, raised, TableThere};
ghost use Rattle.low.specs.Passing.{RowThere, fold_entry, fold_write, fold_writes, moved, next_free, passed, tx_at};

use records::Write;
use rules::Version;
use terms::{Check, Refusal, Stamp};

// Whether row `i` of the rows is at or below the mark and undecided.
#[tactic(auto, using(crate::proofs::Open::open_above, crate::proofs::Open::open_decided, crate::proofs::Open::open_yes))]
fn open_at(t: &[u8], i: usize, low: Stamp) -> bool
    requires { (i * row_len + row_len ≤ length t.now) × WfRow (row_at t.now i) }
    ensures { result ≡ open_up_to low.0 (entry_at t.now i) }
{
    let e = table::row(t, i);
    table::stamp_of(table::tx_of(e)).0 <= low.0 && !matches!(e[table::DECIDED_AT], 1 | 2)
}

// Whether one of the first `n` rows is.
fn any_open(t: &[u8], n: usize, low: Stamp) -> bool
    requires { Wf t.now n }
    ensures { result ≡ any (open_up_to low.0) (entries t.now n) }
{
    for i in 0..n {
        if open_at(t, i, low) {
            return true;
        }
    }
    false
}

// 18 for a mark not above the present one, 19 where an entry at or below it is undecided.
pub fn low_wrong(t: &[u8], low: Stamp) -> Check
    requires { TableThere t.now }
    ensures { (marks : List ℕ) → result ≡ low_wrong (box_from t.now (entries_of t.now) marks) low.0 }
{
    terms::refuse_if(low.0 <= table::low_of(t).0, Refusal::Old)?;
    terms::refuse_if(
        any_open(table::rows(t), table::count_of(t), low),
        Refusal::Undecided,
    )
}

// A folded version: stamp and value.
fn put_fold(s: &mut [u8], v: Version)
    requires { length s.old ≡ fold_len }
    ensures { s.new ≡ fold_bytes v }
{
    records::put_u64(&mut s[0..8], v.stamp.0);
    records::put_u64(&mut s[8..16], v.value);
}

// A write of an entry with this stamp folds where that is above the stamp folded so far; one to a key above 511 is passed over.
fn fold_write(t: &mut [u8], stamp: Stamp, w: Write)
    requires { head_len ≤ length t.old }
    ensures { t.new ≡ fold_write stamp.0 w t.old }
{
    if terms::LARGEST_KEY < w.key.0 {
        return;
    }
    let at = table::FOLDS_AT + w.key.0 as usize * table::FOLD;
    if records::u64_at(t, at) < stamp.0 {
        let v = Version {
            stamp,
            value: w.value,
        };
        put_fold(&mut t[at..at + table::FOLD], v);
    }
}

// The TX of row `i` of a table.
fn tx_at(t: &[u8], i: usize) -> &[u8]
    requires { RowThere t.now i }
    ensures { (result.now ≡ tx_at t.now i) × TxThere result.now }
{
    table::tx_of(table::row(table::rows(t), i))
}

// The writes of row `i` fold, in their order.
fn fold_row(t: &mut [u8], i: usize)
    requires { RowThere t.old i }
    ensures { t.new ≡ fold_writes (stamp_of (tx_at t.old i)) (writes_of (tx_at t.old i)) t.old }
{
    let stamp = table::stamp_of(tx_at(t, i));
    for j in 0..table::write_count(tx_at(t, i)) {
        let w = table::write_at(tx_at(t, i), j);
        fold_write(t, stamp, w);
    }
}

// Row `i` at the free place, which is its own or before it. A loop of its own: `copy_within` goes either way, which takes more stack, and a copy between two
// parts of the table makes the archive ask for `memmove`.
fn move_row(t: &mut [u8], i: usize, free: usize)
    requires { RowThere t.old i × (free ≤ i) }
    ensures { t.new ≡ moved i free t.old }
{
    if free == i {
        return;
    }
    let from = table::HEAD + i * table::ROW;
    let to = table::HEAD + free * table::ROW;
    for j in 0..table::ROW {
        t[to + j] = t[from + j];
    }
}

// Row `i` folds, is dropped or moves to the free place; the free place then.
fn pass_row(t: &mut [u8], i: usize, free: usize, low: Stamp) -> usize
    requires { RowThere t.old i × (free ≤ i) }
    ensures { (t.new ≡ passed low.0 i free t.old) × (result ≡ next_free low.0 i free t.old) }
{
    if low.0 < table::stamp_of(tx_at(t, i)).0 {
        move_row(t, i, free);
        return free + 1;
    }
    let d = table::HEAD + i * table::ROW + table::DECIDED_AT;
    if t[d] == 1 {
        fold_row(t, i);
    }
    free
}

// The low mark is raised: one pass over the rows, then the mark and the count.
pub fn raise(t: &mut [u8], low: Stamp)
    requires { TableThere t.old }
    ensures { t.new ≡ raised low.0 t.old }
{
    let n = table::count_of(t);
    let mut free = 0;
    for i in 0..n {
        free = pass_row(t, i, free, low);
    }
    records::put_u64(&mut t[table::LOW_AT..table::FOLDS_AT], low.0);
    t[0] = free as u8;
}
