// The contents of what was read or is to be written, judged: each check passes or tells its refusal.
#![tactic(auto, unfolding(terms::proofs::Checks::chain))]

ghost use Rattle.std.specs.Prelude.{◌≡◌, ◌≤◌, ℕ, leb};
ghost use Rattle.terms.specs.Choice.{any, falls};
ghost use Rattle.terms.specs.Group.{boxes};
ghost use Rattle.records.specs.Tx.{tx_in};
ghost use Rattle.records.specs.Vl.{list_in};
ghost use Rattle.records.specs.Views.{views_in};
ghost use Rattle.records.specs.Contents.{counts_wrong, count_wrong, too_new, tx_wrong, code_wrong, list_wrong, log_list_wrong, views_wrong, rd_wrong};
ghost use Rattle.contents.specs.Listed.{is_odd, led_wrong, listed_wrong};

use records::{Ballot, Pair, Read, Transaction, ViewList, ViewMark, VoteList, Write};
use terms::{Check, Group, Key, Refusal, Stamp};

// How many keys there are.
const KEYS: usize = terms::LARGEST_KEY as usize + 1;

// What a record lists in rising order: reads and writes by their key, answers and ballots by their box.
trait Placed {
    ghost place: { Self → ℕ };

    fn number(&self) -> u16
        ensures { result ≡ place self.now };
}

impl Placed for Read {
    ghost place = { λ r. r.key.0 };

    fn number(&self) -> u16 {
        self.key.0
    }
}

impl Placed for Write {
    ghost place = { λ w. w.key.0 };

    fn number(&self) -> u16 {
        self.key.0
    }
}

impl Placed for Pair {
    ghost place = { λ p. p.number };

    fn number(&self) -> u16 {
        u16::from(self.number)
    }
}

impl Placed for Ballot {
    ghost place = { λ b. b.number };

    fn number(&self) -> u16 {
        u16::from(self.number)
    }
}

// What carries an answer: a pair of a list, and a ballot.
trait Answered {
    ghost code: { Self → ℕ };

    fn answer(&self) -> u8
        ensures { result ≡ code self.now };
}

impl Answered for Pair {
    ghost code = { λ p. p.answer };

    fn answer(&self) -> u8 {
        self.answer
    }
}

impl Answered for Ballot {
    ghost code = { λ b. b.answer };

    fn answer(&self) -> u8 {
        self.answer
    }
}

// Whether one of the listed stands at or above a limit.
fn any_from<T: Placed>(listed: &[T], limit: usize) -> bool
    ensures { result ≡ any (λ x. leb limit (T.place x)) listed.now }
{
    listed.iter().any(|x| limit <= usize::from(x.number()))
}

// Whether the listed do not rise strictly.
fn falls<T: Placed>(listed: &[T]) -> bool
    ensures { result ≡ falls T.place 0 listed.now }
{
    let mut lo = 0u32;
    for x in listed {
        let at = u32::from(x.number());
        if at < lo {
            return true;
        }
        lo = at + 1;
    }
    false
}

// Whether an answer is neither 1 nor 2.
fn any_odd<T: Answered>(listed: &[T]) -> bool
    ensures { result ≡ any (λ x. is_odd (T.code x)) listed.now }
{
    listed.iter().any(|x| x.answer() == 0 || 2 < x.answer())
}

// Whether a read is of a version at or above the stamp.
fn any_too_new(reads: &[Read], s: Stamp) -> bool
    ensures { result ≡ any (too_new s.0) reads.now }
{
    reads.iter().any(|r| s.0 <= r.version.0)
}

// Boxes for 5, then 6.
fn boxes_wrong<T: Placed>(g: Group, listed: &[T]) -> Check
    ensures { result ≡ listed_wrong T.place (boxes g.f) listed.now }
{
    terms::refuse_if(any_from(listed, g.n()), Refusal::Range)?;
    terms::refuse_if(falls(listed), Refusal::Order)
}

// Not 1 or 2.
#[tactic(auto, unfolding(terms::proofs::Checks::chain, records::specs::Contents::code_wrong))]
fn code_wrong(n: u8) -> Check
    ensures { result ≡ code_wrong n }
{
    terms::refuse_if(n == 0, Refusal::Code)?;
    terms::refuse_if(2 < n, Refusal::Code)
}

// r or w above 8, or neither.
#[tactic(auto, using(crate::proofs::Neither::neither), unfolding(terms::proofs::Checks::chain, records::specs::Contents::counts_wrong))]
pub fn counts_wrong(r: usize, w: usize) -> Check
    ensures { result ≡ counts_wrong r w }
{
    terms::refuse_if(8 < r, Refusal::Count)?;
    terms::refuse_if(8 < w, Refusal::Count)?;
    terms::refuse_if(r == 0 && w == 0, Refusal::Count)
}

// A list's count 0 or above 26.
#[tactic(auto, unfolding(terms::proofs::Checks::chain, records::specs::Contents::count_wrong))]
pub fn count_wrong(n: usize) -> Check
    ensures { result ≡ count_wrong n }
{
    terms::refuse_if(n == 0, Refusal::Count)?;
    terms::refuse_if(26 < n, Refusal::Count)
}

// Stamp, reads and writes for 5, then 6, then 7.
#[tactic(auto, unfolding(terms::proofs::Checks::chain, records::specs::Contents::tx_wrong))]
fn parts_wrong(s: Stamp, reads: &[Read], writes: &[Write]) -> Check
    ensures { result ≡ tx_wrong (record { stamp = s.0; reads = reads.now; writes = writes.now }) }
{
    terms::refuse_if(s.0 == 0, Refusal::Range)?;
    terms::refuse_if(any_from(reads, KEYS), Refusal::Range)?;
    terms::refuse_if(any_from(writes, KEYS), Refusal::Range)?;
    terms::refuse_if(falls(reads), Refusal::Order)?;
    terms::refuse_if(falls(writes), Refusal::Order)?;
    terms::refuse_if(any_too_new(reads, s), Refusal::Misbehaviour)
}

// All of a transaction.
pub fn tx_wrong(x: Transaction) -> Check
    requires { (x.r ≤ 8) × (x.w ≤ 8) }
    ensures { result ≡ tx_wrong (tx_in x) }
{
    parts_wrong(x.stamp, &x.reads[..x.r], &x.writes[..x.w])
}

// A list for 8, then 5, then 6.
#[tactic(auto, unfolding(terms::proofs::Checks::chain, records::specs::Contents::list_wrong, records::specs::Vl::list_in))]
pub fn list_wrong(g: Group, l: VoteList) -> Check
    requires { l.count ≤ 26 }
    ensures { result ≡ list_wrong g.f (list_in l) }
{
    let pairs = &l.pairs[..l.count];
    code_wrong(l.kind)?;
    code_wrong(l.decision)?;
    terms::refuse_if(any_odd(pairs), Refusal::Code)?;
    boxes_wrong(g, pairs)
}

// The same in an LG, where a list of logs is 8 too.
#[tactic(auto, unfolding(terms::proofs::Checks::chain, records::specs::Contents::log_list_wrong, records::specs::Vl::list_in))]
pub fn log_list_wrong(g: Group, l: VoteList) -> Check
    requires { l.count ≤ 26 }
    ensures { result ≡ log_list_wrong g.f (list_in l) }
{
    terms::refuse_if(l.kind == 2, Refusal::Code)?;
    list_wrong(g, l)
}

// An EL before its boxes, for 8, then 5 of its leader.
fn led_wrong(g: Group, l: ViewList, ballots: &[Ballot]) -> Check
    ensures { result ≡ led_wrong g.f l.decision l.leader ballots.now }
{
    code_wrong(l.decision)?;
    terms::refuse_if(any_odd(ballots), Refusal::Code)?;
    terms::refuse_if(g.n() <= l.leader as usize, Refusal::Range)
}

// A VS for 5, then 6; an EL for 8, then 5, of its leader too, then 6.
pub fn views_wrong(k: ViewMark, g: Group, l: ViewList) -> Check
    requires { l.count ≤ 26 }
    ensures { result ≡ views_wrong k g.f (views_in k l) }
{
    let ballots = &l.ballots[..l.count];
    match k {
        ViewMark::VS => boxes_wrong(g, ballots),
        ViewMark::EL => {
            led_wrong(g, l, ballots)?;
            boxes_wrong(g, ballots)
        }
    }
}

// An RD for 5; the clock is the box's.
#[tactic(auto, unfolding(terms::proofs::Checks::chain, records::specs::Contents::rd_wrong))]
pub fn rd_wrong(key: Key, stamp: Stamp) -> Check
    ensures { result ≡ rd_wrong key.0 stamp.0 }
{
    terms::refuse_if(terms::LARGEST_KEY < key.0, Refusal::Range)?;
    terms::refuse_if(stamp.0 == 0, Refusal::Range)
}
