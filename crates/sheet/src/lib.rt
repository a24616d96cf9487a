// The gateway's tally sheet: for one transaction and one kind, which box has answered what. Counts are always taken from the masks.
#![tactic(auto, unfolding(terms::proofs::Checks::chain))]

ghost use Rattle.std.specs.Prelude.{◌≡◌, false, ◌-◌, ◌<◌, ◌≤◌, ◌^◌, leb};
ghost use Rattle.terms.specs.Choice.{any};
ghost use Rattle.records.specs.Vl.{held_list};
ghost use Rattle.rules.specs.Lists.{decision_of};
ghost use Rattle.rules.specs.System.{how_many};
ghost use Rattle.sheet.specs.Masks.{has, with_box};
ghost use Rattle.sheet.specs.Sheets.{twice, sheet_damaged, sheet_wrong, answer_wrong, on, joined, lacking_on, sheet_after, reply_to, reply_values, empty_sheet, numbers, under, reached_of};
ghost use Rattle.sheet.specs.Listing.{list_for, list_from, listing_wrong, listing_of};

use records::{NO_LIST, NO_PAIR, Pair, VoteList};
use terms::{Check, Decision, Group, Kind, Refusal, View};

// Bit b of a mask says that box b gave this answer. A sheet of logs is for one view. Plain numbers: C lends a sheet, which may hold any, and 16 tells of it.
#[derive(Clone, Copy)]
pub struct Sheet {
    pub kind: u8,
    pub view: u16,
    pub commits: u32,
    pub aborts: u32,
}

// How many answers are lacking of each threshold of a sheet of votes; 0 where it is reached.
#[derive(Clone, Copy)]
pub struct VotesLacking {
    pub commit_list: u8,
    pub abort_list: u8,
    pub commit_proof: u8,
    pub abort_proof: u8,
}

// The same of a sheet of logs: of the proof of each decision.
#[derive(Clone, Copy)]
pub struct LogsLacking {
    pub commit: u8,
    pub abort: u8,
}

// An enum and no Result: it tells three ways beside the refusal, and C is told which by a number, 4 for the refusal.
#[derive(Clone, Copy)]
pub enum Reply {
    Votes(VotesLacking),
    Logs(LogsLacking),
    Repeat,
    Refused(Refusal),
}

impl Reply {
    // The reply as numbers: 1 votes, 2 logs, 3 Repeat or 4 refused, and then its values.
    pub fn values(self) -> [u8; 5]
        ensures { result ≡ reply_values self }
    {
        match self {
            Reply::Votes(v) => [
                1,
                v.commit_list,
                v.abort_list,
                v.commit_proof,
                v.abort_proof,
            ],
            Reply::Logs(v) => [2, v.commit, v.abort, 0, 0],
            Reply::Repeat => [3, 0, 0, 0, 0],
            Reply::Refused(why) => [4, why.number(), 0, 0, 0],
        }
    }
}

// A sheet with no box on it; votes have no view.
pub fn empty(kind: Kind, view: View) -> Sheet
    ensures { result ≡ empty_sheet kind view.0 }
{
    match kind {
        Kind::Votes => Sheet {
            kind: 1,
            view: 0,
            commits: 0,
            aborts: 0,
        },
        Kind::Logs => Sheet {
            kind: 2,
            view: view.0,
            commits: 0,
            aborts: 0,
        },
    }
}

pub fn has_box(m: u32, b: usize) -> bool
    requires { b < 32 }
    ensures { result ≡ has m b }
{
    (m >> b) % 2 == 1
}

// The mask with a box that is not on it.
pub fn with_box(m: u32, b: usize) -> u32
    requires { (b < 32) × (has m b ≡ false) }
    ensures { result ≡ with_box m b }
{
    m + (1 << b)
}

// How many of the first n boxes are on a mask.
pub fn counted(m: u32, n: usize) -> usize
    requires { n ≤ 32 }
    ensures { result ≡ how_many (has m) n }
{
    let mut boxes = 0;
    for b in 0..n {
        if has_box(m, b) {
            boxes += 1;
        }
    }
    boxes
}

#[tactic(auto, unfolding(crate::specs::Sheets::twice))]
fn under_both(s: Sheet, b: usize) -> bool
    requires { b < 32 }
    ensures { result ≡ twice s b }
{
    has_box(s.commits, b) && has_box(s.aborts, b)
}

// Whether one of the first n boxes is under both answers.
fn both(s: Sheet, n: usize) -> bool
    requires { n ≤ 32 }
    ensures { result ≡ any (twice s) (numbers n) }
{
    for b in 0..n {
        if under_both(s, b) {
            return true;
        }
    }
    false
}

// Whether a box n or more is on a mask.
pub fn mask_wide(m: u32, n: usize) -> bool
    requires { n < 32 }
    ensures { result ≡ leb (2 ^ n) m }
{
    (1 << n) <= m
}

// 16 where a lent sheet is damaged.
#[tactic(auto, unfolding(terms::proofs::Checks::chain, crate::specs::Sheets::sheet_damaged))]
fn sheet_damaged(s: Sheet, g: Group) -> Check
    requires { g.f ≤ 5 }
    ensures { result ≡ sheet_damaged g.f s }
{
    let n = g.n();
    terms::refuse_if(s.kind == 0, Refusal::Table)?;
    terms::refuse_if(2 < s.kind, Refusal::Table)?;
    terms::refuse_if(mask_wide(s.commits, n), Refusal::Table)?;
    terms::refuse_if(mask_wide(s.aborts, n), Refusal::Table)?;
    terms::refuse_if(both(s, n), Refusal::Table)
}

// 14, then 16.
#[tactic(auto, using(terms::proofs::Groups::group_small), unfolding(terms::proofs::Checks::chain, crate::specs::Sheets::sheet_wrong))]
pub fn sheet_wrong(s: Sheet, f: u64) -> Check
    ensures { result ≡ sheet_wrong f s }
{
    terms::group_wrong(f)?;
    sheet_damaged(s, Group { f: f as u8 })
}

// 14, 16, then 5 and 8 of the answer: 14 stands in front, since n is worked out from f.
#[tactic(auto, using(crate::proofs::Sheets::sheet_group), unfolding(terms::proofs::Checks::chain, crate::specs::Sheets::answer_wrong, records::specs::Contents::code_wrong))]
pub fn answer_wrong(s: Sheet, f: u64, number: u64, answer: u64) -> Check
    ensures { result ≡ answer_wrong s f number answer }
{
    sheet_wrong(s, f)?;
    let n = Group { f: f as u8 }.n();
    terms::refuse_if(n as u64 <= number, Refusal::Range)?;
    terms::refuse_if(answer == 0, Refusal::Code)?;
    terms::refuse_if(2 < answer, Refusal::Code)
}

#[tactic(auto, unfolding(crate::specs::Sheets::on))]
pub fn on_sheet(s: Sheet, b: usize) -> bool
    requires { b < 32 }
    ensures { result ≡ on s b }
{
    has_box(s.commits, b) || has_box(s.aborts, b)
}

// The box joins under its answer, and nothing else changes.
pub fn join(s: Sheet, b: usize, answer: u64) -> Sheet
    requires { (b < 32) × (on s b ≡ false) }
    ensures { result ≡ joined s b answer }
{
    if answer == 1 {
        let commits = with_box(s.commits, b);
        return Sheet { commits, ..s };
    }
    let aborts = with_box(s.aborts, b);
    Sheet { aborts, ..s }
}

// How many answers are lacking of a threshold; 0 where it is reached.
pub fn lacking(need: usize, count: usize) -> u8
    requires { need ≤ 26 }
    ensures { result ≡ need - count }
{
    need.saturating_sub(count) as u8
}

// What is lacking of each of the kind's thresholds.
fn lacking_of(s: Sheet, g: Group) -> Reply
    requires { g.f ≤ 5 }
    ensures { result ≡ lacking_on g.f s }
{
    let n = g.n();
    let commits = counted(s.commits, n);
    let aborts = counted(s.aborts, n);
    if s.kind == 1 {
        return Reply::Votes(VotesLacking {
            commit_list: lacking(g.commit_list(), commits),
            abort_list: lacking(g.abort_list(), aborts),
            commit_proof: lacking(g.commit_proof(), commits),
            abort_proof: lacking(g.abort_proof(), aborts),
        });
    }
    Reply::Logs(LogsLacking {
        commit: lacking(g.log_proof(), commits),
        abort: lacking(g.log_proof(), aborts),
    })
}

// The sheet after an answer.
pub fn added(s: Sheet, f: u64, number: u64, answer: u64) -> Sheet
    ensures { result ≡ sheet_after s f number answer }
{
    if answer_wrong(s, f, number, answer).is_err() {
        return s;
    }
    let b = number as usize;
    if on_sheet(s, b) {
        return s;
    }
    join(s, b, answer)
}

// The reply to an answer, of the sheet before it.
#[tactic(auto, using(crate::proofs::Sheets::small_box), unfolding(crate::specs::Sheets::reply_to, crate::specs::Sheets::reply_by))]
pub fn reply_to(s: Sheet, f: u64, number: u64, answer: u64) -> Reply
    ensures { result ≡ reply_to s f number answer }
{
    if let Err(why) = answer_wrong(s, f, number, answer) {
        return Reply::Refused(why);
    }
    let b = number as usize;
    if on_sheet(s, b) {
        return Reply::Repeat;
    }
    lacking_of(join(s, b, answer), Group { f: f as u8 })
}

// What a sheet has reached as it is: 14, 16, or what is lacking, as a reply tells it.
#[tactic(auto, using(crate::proofs::Sheets::sheet_group), unfolding(crate::specs::Sheets::reached_of, crate::specs::Sheets::reached_by))]
pub fn reached(s: Sheet, f: u64) -> Reply
    ensures { result ≡ reached_of s f }
{
    if let Err(why) = sheet_wrong(s, f) {
        return Reply::Refused(why);
    }
    lacking_of(s, Group { f: f as u8 })
}

// A sheet takes one answer.
pub fn take(s: &mut Sheet, f: u64, number: u64, answer: u64) -> Reply
    ensures { (result ≡ reply_to s.old f number answer) × (s.new ≡ sheet_after s.old f number answer) }
{
    let old = *s;
    *s = added(old, f, number, answer);
    reply_to(old, f, number, answer)
}

// The first n boxes on a mask, in rising order, each with this answer.
fn list_of_mask(kind: u8, view: View, answer: u8, m: u32, n: usize) -> VoteList
    requires { n ≤ 26 }
    ensures { result ≡ held_list (list_for kind view.0 answer m n) }
{
    let mut pairs = [NO_PAIR; 26];
    let mut count = 0;
    for b in 0..n {
        if has_box(m, b) {
            pairs[count] = Pair {
                number: b as u8,
                answer,
            };
            count += 1;
        }
    }
    VoteList {
        kind,
        decision: answer,
        view: records::own_view(kind, view),
        count,
        pairs,
    }
}

// The boxes under a decision.
fn mask_under(s: Sheet, decision: Decision) -> u32
    ensures { result ≡ under decision s }
{
    match decision {
        Decision::Commit => s.commits,
        Decision::Abort => s.aborts,
    }
}

// The list of the boxes under a decision; only they count for it, so a list of them is the shortest. A sheet that is refused gives a list of none.
pub fn list_from(s: Sheet, f: u64, decision: Decision) -> VoteList
    ensures { result ≡ held_list (list_from s f decision) }
{
    if sheet_wrong(s, f).is_err() {
        return NO_LIST;
    }
    let n = Group { f: f as u8 }.n();
    list_of_mask(
        s.kind,
        View(s.view),
        decision.number(),
        mask_under(s, decision),
        n,
    )
}

// 14, 16, then 8 of a decision's number.
#[tactic(auto, unfolding(terms::proofs::Checks::chain, crate::specs::Listing::listing_wrong, records::specs::Contents::code_wrong))]
fn listing_wrong(s: Sheet, f: u64, decision: u64) -> Check
    ensures { result ≡ listing_wrong s f decision }
{
    sheet_wrong(s, f)?;
    terms::refuse_if(decision == 0, Refusal::Code)?;
    terms::refuse_if(2 < decision, Refusal::Code)
}

// The decision of a number that is 1 or 2.
#[tactic(auto, unfolding(rules::specs::Lists::decision_of))]
fn decision_of(number: u64) -> Decision
    ensures { result ≡ decision_of number }
{
    match number {
        1 => Decision::Commit,
        _ => Decision::Abort,
    }
}

// The list of the boxes under a decision that is told by its number.
#[tactic(auto, unfolding(terms::proofs::Checks::chain, crate::specs::Listing::listing_of))]
pub fn list_by(s: Sheet, f: u64, decision: u64) -> Result<VoteList, Refusal>
    ensures { result ≡ listing_of s f decision }
{
    listing_wrong(s, f, decision)?;
    Ok(list_from(s, f, decision_of(decision)))
}
