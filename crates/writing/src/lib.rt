// The records written: 14 where f matters, then 3, the contents, 17; then the record's bytes at the buffer's front and no others.
#![tactic(auto)]

ghost use Rattle.std.specs.Prelude.{ℕ, ◌≡◌, [], ◌∷◌, ◌++◌, ◌+◌, ◌*◌, ◌≤◌, length};
ghost use Rattle.terms.specs.Checks.{if_less, buffer};
ghost use Rattle.records.specs.Numbers.{le_bytes};
ghost use Rattle.records.specs.Tx.{tx_in, tx_bytes, flat};
ghost use Rattle.records.specs.Vl.{list_in, vl_bytes, view_len, view_bytes, flat_pairs};
ghost use Rattle.records.specs.Views.{views_in, views_bytes, ballot_len, ballot_bytes, flat_ballots, count_at};
ghost use Rattle.records.specs.Cutting.{mark_bytes};
ghost use Rattle.records.specs.Writing.{pr_bytes, listed_bytes, viewed_bytes, rd_bytes, listed_wrong, tx_unwritten, vl_unwritten, views_unwritten, pr_unwritten, listed_unwritten, viewed_unwritten, rd_unwritten, wrote_by, buffer_by};
ghost use Rattle.writing.specs.Parts.{Puts, head_bytes, list_head, views_head, tx_size, list_size, views_size, TxFits, ListFits, ListedFits, tx_after};

use records::{Ballot, Mark, Pair, Transaction, ViewList, ViewMark, VoteList};
use terms::{Check, Group, Key, Refusal, Stamp, View};

// Bytes, put down from `at` on. This and all that follow tell the place behind what they put down.
fn put<const N: usize>(s: &mut [u8], at: usize, bytes: [u8; N]) -> usize
    requires { at + N ≤ length s.old }
    ensures { Puts s.old at bytes.entry s.new result }
{
    let end = at + N;
    s[at..end].copy_from_slice(&bytes);
    end
}

fn put_byte(s: &mut [u8], at: usize, a: u8) -> usize
    requires { at + 1 ≤ length s.old }
    ensures { Puts s.old at (a ∷ []) s.new result }
{
    put(s, at, [a])
}

fn put_two(s: &mut [u8], at: usize, a: u8, b: u8) -> usize
    requires { at + 2 ≤ length s.old }
    ensures { Puts s.old at (a ∷ b ∷ []) s.new result }
{
    put(s, at, [a, b])
}

// A fixed two-byte string.
fn put_string(s: &mut [u8], at: usize, mark: &[u8; 2]) -> usize
    requires { at + 2 ≤ length s.old }
    ensures { Puts s.old at mark.now s.new result }
{
    put(s, at, *mark)
}

// A message's mark, at the buffer's front. Each mark has its letters here and in Mark::bytes: docs/FORMS.md wants them in both.
fn put_mark(s: &mut [u8], mark: Mark) -> usize
    requires { 2 ≤ length s.old }
    ensures { Puts s.old 0 (mark_bytes mark) s.new result × (result ≡ 2) }
{
    match mark {
        Mark::PR => put_string(s, 0, b"PR"),
        Mark::LG => put_string(s, 0, b"LG"),
        Mark::DC => put_string(s, 0, b"DC"),
        Mark::RD => put_string(s, 0, b"RD"),
        Mark::IV => put_string(s, 0, b"IV"),
        Mark::LD => put_string(s, 0, b"LD"),
    }
}

// A number of two bytes: a key, a view.
fn put_short(s: &mut [u8], at: usize, number: u16) -> usize
    requires { at + 2 ≤ length s.old }
    ensures { Puts s.old at (le_bytes 2 number) s.new result }
{
    put(s, at, number.to_le_bytes())
}

fn put_number(s: &mut [u8], at: usize, number: u64) -> usize
    requires { at + 8 ≤ length s.old }
    ensures { Puts s.old at (le_bytes 8 number) s.new result }
{
    put(s, at, number.to_le_bytes())
}

// A key and what stands with it.
fn put_item(s: &mut [u8], at: usize, key: u16, number: u64) -> usize
    requires { at + 10 ≤ length s.old }
    ensures { Puts s.old at (le_bytes 2 key ++ le_bytes 8 number) s.new result }
{
    let at = put_short(s, at, key);
    put_number(s, at, number)
}

// Keys, each with what stands beside it: the two as `of` tells them.
fn put_items<T: Copy, F: Fn(T) -> (u16, u64)>(s: &mut [u8], at: usize, items: &[T], of: F) -> usize
    requires room { at + 10 * length items.now ≤ length s.old }
    requires callable { F.IsAlwaysCallable of }
    ensures place { result ≡ at + 10 * length items.now }
    ensures bytes { (k v : T → ℕ) → ((x : T) (y : ℕ × ℕ) → F.post of x y → y ≡ (k x, v x)) → Puts s.old at (flat k v items.now) s.new result }
{
    let mut next = at;
    for item in items {
        let (key, number) = of(*item);
        next = put_item(s, next, key, number);
    }
    next
}

// A TX before its reads.
fn put_head(s: &mut [u8], at: usize, r: usize, w: usize, stamp: Stamp) -> usize
    requires { (r ≤ 8) × (w ≤ 8) × (at + 12 ≤ length s.old) }
    ensures { Puts s.old at (head_bytes r w stamp.0) s.new result }
{
    let at = put_string(s, at, b"TX");
    let at = put_two(s, at, r as u8, w as u8);
    put_number(s, at, stamp.0)
}

fn put_tx(s: &mut [u8], at: usize, x: Transaction) -> usize
    requires { TxFits x at s.old }
    ensures { Puts s.old at (tx_bytes (tx_in x)) s.new result × (result ≡ at + tx_size x) }
{
    let at = put_head(s, at, x.r, x.w, x.stamp);
    let at = put_items(s, at, &x.reads[..x.r], |read| (read.key.0, read.version.0));
    put_items(s, at, &x.writes[..x.w], |write| (write.key.0, write.value))
}

fn put_pairs(s: &mut [u8], at: usize, pairs: &[Pair]) -> usize
    requires { at + 2 * length pairs.now ≤ length s.old }
    ensures { Puts s.old at (flat_pairs pairs.now) s.new result }
{
    let mut next = at;
    for pair in pairs {
        next = put_two(s, next, pair.number, pair.answer);
    }
    next
}

// The view of a list, where its kind has one.
fn put_view(s: &mut [u8], at: usize, kind: u8, view: View) -> usize
    requires { at + view_len kind ≤ length s.old }
    ensures { Puts s.old at (view_bytes kind view.0) s.new result × (result ≡ at + view_len kind) }
{
    if kind == 2 {
        put_short(s, at, view.0)
    } else {
        at
    }
}

// A list before its view.
fn put_list_head(s: &mut [u8], at: usize, l: VoteList) -> usize
    requires { (l.count ≤ 26) × (at + 5 ≤ length s.old) }
    ensures { Puts s.old at (list_head l) s.new result }
{
    let at = put_string(s, at, b"VL");
    let at = put_two(s, at, l.kind, l.decision);
    put_byte(s, at, l.count as u8)
}

fn put_list(s: &mut [u8], at: usize, l: VoteList) -> usize
    requires { ListFits l.count (list_size l) at s.old }
    ensures { Puts s.old at (vl_bytes (list_in l)) s.new result }
{
    let at = put_list_head(s, at, l);
    let at = put_view(s, at, l.kind, l.view);
    put_pairs(s, at, &l.pairs[..l.count])
}

// What one box told.
fn put_ballot(k: ViewMark, s: &mut [u8], at: usize, b: Ballot) -> usize
    requires { at + ballot_len k ≤ length s.old }
    ensures { Puts s.old at (ballot_bytes k b) s.new result }
{
    match k {
        ViewMark::VS => {
            let at = put_byte(s, at, b.number);
            put_short(s, at, b.view.0)
        }
        ViewMark::EL => {
            let at = put_two(s, at, b.number, b.answer);
            put_short(s, at, b.view.0)
        }
    }
}

fn put_ballots(k: ViewMark, s: &mut [u8], at: usize, ballots: &[Ballot]) -> usize
    requires { at + ballot_len k * length ballots.now ≤ length s.old }
    ensures { Puts s.old at (flat_ballots k ballots.now) s.new result }
{
    let mut next = at;
    for ballot in ballots {
        next = put_ballot(k, s, next, *ballot);
    }
    next
}

// A VS or an EL before its count.
fn put_led(k: ViewMark, s: &mut [u8], at: usize, l: ViewList) -> usize
    requires { at + count_at k ≤ length s.old }
    ensures { Puts s.old at (views_head k l) s.new result × (result ≡ at + count_at k) }
{
    match k {
        ViewMark::VS => put_string(s, at, b"VS"),
        ViewMark::EL => {
            let at = put_string(s, at, b"EL");
            let at = put_two(s, at, l.leader, l.decision);
            put_short(s, at, l.view.0)
        }
    }
}

fn put_views(k: ViewMark, s: &mut [u8], at: usize, l: ViewList) -> usize
    requires { ListFits l.count (views_size k l) at s.old }
    ensures { Puts s.old at (views_bytes k (views_in k l)) s.new result }
{
    let at = put_led(k, s, at, l);
    let at = put_byte(s, at, l.count as u8);
    put_ballots(k, s, at, &l.ballots[..l.count])
}

fn put_pr(s: &mut [u8], x: Transaction) -> usize
    requires { TxFits x 2 s.old }
    ensures { Puts s.old 0 (pr_bytes (tx_in x)) s.new result }
{
    let at = put_mark(s, Mark::PR);
    put_tx(s, at, x)
}

// An LG or a DC.
fn put_listed(s: &mut [u8], mark: Mark, x: Transaction, l: VoteList) -> usize
    requires { ListedFits x l.count (list_size l) s.old }
    ensures { Puts s.old 0 (listed_bytes mark (tx_in x) (list_in l)) s.new result }
{
    let at = put_mark(s, mark);
    let at = put_tx(s, at, x);
    put_list(s, at, l)
}

// An IV or an LD.
fn put_viewed(k: ViewMark, s: &mut [u8], x: Transaction, l: ViewList) -> usize
    requires { ListedFits x l.count (views_size k l) s.old }
    ensures { Puts s.old 0 (viewed_bytes k (tx_in x) (views_in k l)) s.new result }
{
    let at = put_mark(s, k.carrier());
    let at = put_tx(s, at, x);
    put_views(k, s, at, l)
}

fn put_rd(s: &mut [u8], key: Key, stamp: Stamp) -> usize
    requires { 12 ≤ length s.old }
    ensures { Puts s.old 0 (rd_bytes key.0 stamp.0) s.new result }
{
    let at = put_mark(s, Mark::RD);
    put_item(s, at, key.0, stamp.0)
}

// The length of a transaction's record.
fn tx_size(x: Transaction) -> usize
    requires { (x.r ≤ 8) × (x.w ≤ 8) }
    ensures { (result ≡ tx_size x) × (result ≤ 172) }
{
    12 + 10 * (x.r + x.w)
}

// The length of a list's record.
fn list_size(l: VoteList) -> usize
    requires { l.count ≤ 26 }
    ensures { (result ≡ list_size l) × (result ≤ 59) }
{
    5 + records::view_len(l.kind) + 2 * l.count
}

// The length of a VS or of an EL.
fn views_size(k: ViewMark, l: ViewList) -> usize
    requires { l.count ≤ 26 }
    ensures { (result ≡ views_size k l) × (result ≤ 111) }
{
    1 + k.count_at() + k.ballot_len() * l.count
}

// 17 where a record of n bytes has no room.
#[tactic(auto, unfolding(terms::proofs::Checks::chain))]
fn buffer_wrong(n: usize, out: &[u8]) -> Check
    ensures { result ≡ if_less (length out.now) n buffer }
{
    terms::refuse_if(out.len() < n, Refusal::Buffer)
}

// 3, the contents, 17 of a TX that has `at` bytes before it.
#[tactic(auto, using(crate::proofs::Writes::sizes), unfolding(crate::proofs::Writes::judged, crate::specs::Parts::tx_after))]
fn tx_unwritten(x: Transaction, at: usize, out: &[u8]) -> Check
    requires { at ≤ 2 }
    ensures { result ≡ tx_after at x out.now }
{
    contents::counts_wrong(x.r, x.w)?;
    contents::tx_wrong(x)?;
    buffer_wrong(at + tx_size(x), out)
}

#[tactic(auto, using(crate::proofs::Writes::sizes), unfolding(crate::proofs::Writes::judged, records::specs::Writing::vl_unwritten))]
fn vl_unwritten(f: u64, l: VoteList, out: &[u8]) -> Check
    ensures { result ≡ vl_unwritten f l out.now }
{
    let g = Group::of(f)?;
    contents::count_wrong(l.count)?;
    contents::list_wrong(g, l)?;
    buffer_wrong(list_size(l), out)
}

#[tactic(auto, using(crate::proofs::Writes::sizes), unfolding(crate::proofs::Writes::judged, records::specs::Writing::views_unwritten))]
fn views_unwritten(k: ViewMark, f: u64, l: ViewList, out: &[u8]) -> Check
    ensures { result ≡ views_unwritten k f l out.now }
{
    let g = Group::of(f)?;
    contents::count_wrong(l.count)?;
    contents::views_wrong(k, g, l)?;
    buffer_wrong(views_size(k, l), out)
}

// The list of an LG or a DC: a message with another mark carries none (2).
#[tactic(auto, unfolding(records::specs::Writing::listed_wrong))]
fn listed_wrong(mark: Mark, g: Group, l: VoteList) -> Check
    requires { l.count ≤ 26 }
    ensures { result ≡ listed_wrong mark g.f (list_in l) }
{
    match mark {
        Mark::LG => contents::log_list_wrong(g, l),
        Mark::DC => contents::list_wrong(g, l),
        Mark::PR | Mark::RD | Mark::IV | Mark::LD => Err(Refusal::Mark),
    }
}

#[tactic(auto, using(crate::proofs::Writes::sizes), unfolding(crate::proofs::Writes::judged, records::specs::Writing::listed_unwritten))]
fn listed_unwritten(mark: Mark, f: u64, x: Transaction, l: VoteList, out: &[u8]) -> Check
    ensures { result ≡ listed_unwritten mark f x l out.now }
{
    let g = Group::of(f)?;
    contents::counts_wrong(x.r, x.w)?;
    contents::count_wrong(l.count)?;
    contents::tx_wrong(x)?;
    listed_wrong(mark, g, l)?;
    buffer_wrong(2 + tx_size(x) + list_size(l), out)
}

// Beside `listed_unwritten`: one function for both would be no plainer, since kind of list, judge and size differ, and it takes a trait to say so.
#[tactic(auto, using(crate::proofs::Writes::sizes), unfolding(crate::proofs::Writes::judged, records::specs::Writing::viewed_unwritten))]
fn viewed_unwritten(k: ViewMark, f: u64, x: Transaction, views: ViewList, out: &[u8]) -> Check
    ensures { result ≡ viewed_unwritten k f x views out.now }
{
    let g = Group::of(f)?;
    contents::counts_wrong(x.r, x.w)?;
    contents::count_wrong(views.count)?;
    contents::tx_wrong(x)?;
    contents::views_wrong(k, g, views)?;
    buffer_wrong(2 + tx_size(x) + views_size(k, views), out)
}

#[tactic(auto, unfolding(crate::proofs::Writes::judged, records::specs::Writing::rd_unwritten, records::specs::Writing::rd_bytes))]
fn rd_unwritten(key: Key, stamp: Stamp, out: &[u8]) -> Check
    ensures { result ≡ rd_unwritten key.0 stamp.0 out.now }
{
    contents::rd_wrong(key, stamp)?;
    buffer_wrong(12, out)
}

// A TX by itself.
#[tactic(auto, using(crate::proofs::Writes::fits), unfolding(crate::proofs::Writes::answered))]
pub fn write_tx(x: Transaction, out: &mut [u8]) -> Result<usize, Refusal>
    ensures { (result ≡ wrote_by (tx_unwritten x out.old) (tx_bytes (tx_in x))) × (out.new ≡ buffer_by (tx_unwritten x out.old) (tx_bytes (tx_in x)) out.old) }
{
    tx_unwritten(x, 0, out)?;
    Ok(put_tx(out, 0, x))
}

// A VL by itself.
#[tactic(auto, using(crate::proofs::Writes::fits), unfolding(crate::proofs::Writes::answered))]
pub fn write_vl(f: u64, l: VoteList, out: &mut [u8]) -> Result<usize, Refusal>
    ensures { (result ≡ wrote_by (vl_unwritten f l out.old) (vl_bytes (list_in l))) × (out.new ≡ buffer_by (vl_unwritten f l out.old) (vl_bytes (list_in l)) out.old) }
{
    vl_unwritten(f, l, out)?;
    Ok(put_list(out, 0, l))
}

// A VS or an EL by itself, by its mark.
#[tactic(auto, using(crate::proofs::Writes::fits), unfolding(crate::proofs::Writes::answered))]
pub fn write_views(k: ViewMark, f: u64, l: ViewList, out: &mut [u8]) -> Result<usize, Refusal>
    ensures { (result ≡ wrote_by (views_unwritten k f l out.old) (views_bytes k (views_in k l))) × (out.new ≡ buffer_by (views_unwritten k f l out.old) (views_bytes k (views_in k l)) out.old) }
{
    views_unwritten(k, f, l, out)?;
    Ok(put_views(k, out, 0, l))
}

#[tactic(auto, using(crate::proofs::Writes::fits), unfolding(crate::proofs::Writes::answered))]
pub fn write_pr(x: Transaction, out: &mut [u8]) -> Result<usize, Refusal>
    ensures { (result ≡ wrote_by (pr_unwritten x out.old) (pr_bytes (tx_in x))) × (out.new ≡ buffer_by (pr_unwritten x out.old) (pr_bytes (tx_in x)) out.old) }
{
    tx_unwritten(x, 2, out)?;
    Ok(put_pr(out, x))
}

// An LG or a DC, by its mark.
#[tactic(auto, using(crate::proofs::Writes::fits), unfolding(crate::proofs::Writes::answered))]
pub fn write_listed(
    mark: Mark,
    f: u64,
    x: Transaction,
    l: VoteList,
    out: &mut [u8],
) -> Result<usize, Refusal>
    ensures { (result ≡ wrote_by (listed_unwritten mark f x l out.old) (listed_bytes mark (tx_in x) (list_in l))) × (out.new ≡ buffer_by (listed_unwritten mark f x l out.old) (listed_bytes mark (tx_in x) (list_in l)) out.old) }
{
    listed_unwritten(mark, f, x, l, out)?;
    Ok(put_listed(out, mark, x, l))
}

// An IV or an LD, by the mark of what it carries.
#[tactic(auto, using(crate::proofs::Writes::fits), unfolding(crate::proofs::Writes::answered))]
pub fn write_viewed(
    k: ViewMark,
    f: u64,
    x: Transaction,
    l: ViewList,
    out: &mut [u8],
) -> Result<usize, Refusal>
    ensures { (result ≡ wrote_by (viewed_unwritten k f x l out.old) (viewed_bytes k (tx_in x) (views_in k l))) × (out.new ≡ buffer_by (viewed_unwritten k f x l out.old) (viewed_bytes k (tx_in x) (views_in k l)) out.old) }
{
    viewed_unwritten(k, f, x, l, out)?;
    Ok(put_viewed(k, out, x, l))
}

#[tactic(auto, using(crate::proofs::Writes::fits), unfolding(crate::proofs::Writes::answered))]
pub fn write_rd(key: Key, stamp: Stamp, out: &mut [u8]) -> Result<usize, Refusal>
    ensures { (result ≡ wrote_by (rd_unwritten key.0 stamp.0 out.old) (rd_bytes key.0 stamp.0)) × (out.new ≡ buffer_by (rd_unwritten key.0 stamp.0 out.old) (rd_bytes key.0 stamp.0) out.old) }
{
    rd_unwritten(key, stamp, out)?;
    Ok(put_rd(out, key, stamp))
}
