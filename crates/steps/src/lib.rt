// PR, LG, DC, RD, IV and LD over the rows of a table: what each does, as one step by value. One other function applies it.
#![tactic(auto)]

ghost use Rattle.std.specs.Prelude.{◌≡◌, List, ◌&&◌, map, ℕ, max, ◌≤◌, leb, ltb, length, option_map};
ghost use Rattle.std.proofs.Math.Option.{Option, some, none};
ghost use Rattle.terms.specs.Choice.{pick};
ghost use Rattle.terms.specs.declared.Refusal.TheVariants.{Full};
ghost use Rattle.records.specs.Tx.{TxThere};
ghost use Rattle.records.specs.Vl.{list_in};
ghost use Rattle.records.specs.Views.{ballot_pair, own_ballot, views_in};
ghost use Rattle.records.specs.declared.ViewMark.TheVariants.{VS, EL};
ghost use Rattle.rules.specs.declared.Answer.TheVariants.{Refused};
ghost use Rattle.rules.specs.Answers.{logged_at};
ghost use Rattle.rules.specs.declared.Version.{Version};
ghost use Rattle.rules.specs.Answers.{View, log_view};
ghost use Rattle.rules.specs.Bodies.{Body, stamp_of};
ghost use Rattle.rules.specs.Lists.{decision_of, kind_of, for_logging, for_proof, tally, lacking};
ghost use Rattle.rules.specs.Table.{Box, Entry, box_with, vote_in, view_in};
ghost use Rattle.rules.specs.Calls.{needing, refuse, same_decision, pr_by_vote, pr_rule, first_log, lg_by_log, lg_rule, decide_act, dc_same, dc_other, dc_by_entry, dc_rule, rd_rule};
ghost use Rattle.rules.specs.Visits.{look_up};
ghost use Rattle.rules.specs.Fallback.{reach, reached, next_view, iv_by_log, iv_rule, one_view, leads, take_act, led_act, ld_rule};
ghost use Rattle.terms.specs.declared.Decision.TheVariants.{Commit as commit};
ghost use Rattle.table.specs.Table.{Wf, WfRow, head_len, box_from, entry_of, entry_with, entries, place};
ghost use Rattle.steps.specs.declared.Held.TheVariants.{Not, Same};
ghost use Rattle.steps.specs.Step.{step_by, kept, put, cast_step, held_by, look_of, pr_by, lg_by, dc_proved, found_view, iv_by, ld_by, Beside};

use records::{Ballot, ViewList, VoteList};
use rules::{Answer, Logged, Told, Vote};
use table::State;
use terms::{Decision, Group, Key, Kind, Refusal, Stamp, View};

const LARGEST_VIEW: usize = 65535;

// What stands beside a body that is not held.
const BLANK: State = State {
    vote: Vote::None,
    log: None,
    view: View(0),
    decided: None,
};

// What a call changes: nothing; row `i` becomes the message's body with this beside it; a key's read mark is raised to a stamp.
#[derive(Clone, Copy)]
pub enum Change {
    Nothing,
    Put(usize, State),
    Raise(Key, Stamp),
}

// What a call does: it answers, and makes one change.
#[derive(Clone, Copy)]
pub struct Step {
    pub answer: Answer,
    pub change: Change,
}

impl Step {
    // It answers, and all stays as it is.
    fn keep(answer: Answer) -> Step
        ensures { result ≡ kept answer }
    {
        Step {
            answer,
            change: Change::Nothing,
        }
    }

    pub fn refuse(why: Refusal) -> Step
        ensures { result ≡ kept (Refused why) }
    {
        Step {
            answer: Answer::Refused(why),
            change: Change::Nothing,
        }
    }

    // Row `i` is put, and it answers.
    fn put(i: usize, state: State, answer: Answer) -> Step
        ensures { result ≡ put i state answer }
    {
        Step {
            answer,
            change: Change::Put(i, state),
        }
    }
}

// ---- lists

// How many pairs have the list's decision.
fn tally(l: VoteList) -> usize
    requires { l.count ≤ 26 }
    ensures { (result ≡ tally l.decision (list_in l).pairs) × (result ≤ 26) }
{
    l.pairs[..l.count]
        .iter()
        .filter(|p| p.answer == l.decision)
        .count()
}

// How many answers are lacking of those that are due.
fn lacking(l: VoteList, need: usize) -> u8
    requires { (l.count ≤ 26) × (need ≤ 26) }
    ensures { result ≡ lacking need (list_in l) }
{
    let counted = tally(l);
    if counted < need {
        return (need - counted) as u8;
    }
    0
}

fn kind_of(code: u8) -> Kind
    ensures { result ≡ kind_of code }
{
    match code {
        1 => Kind::Votes,
        _ => Kind::Logs,
    }
}

fn decision_of(code: u8) -> Decision
    ensures { result ≡ decision_of code }
{
    match code {
        1 => Decision::Commit,
        _ => Decision::Abort,
    }
}

// The group of a box whose f is in order.
fn group_of(told: Told) -> Group
    requires { told.f ≤ 5 }
    ensures { result.f ≡ told.f }
{
    Group { f: told.f as u8 }
}

// How many equal votes a list for logging needs.
fn log_need(g: Group, d: Decision) -> usize
    ensures { result ≡ for_logging g.f d }
{
    match d {
        Decision::Commit => g.commit_list(),
        Decision::Abort => g.abort_list(),
    }
}

// How many equal answers a proof needs.
fn proof_need(g: Group, k: Kind, d: Decision) -> usize
    ensures { result ≡ for_proof g.f k d }
{
    match k {
        Kind::Votes => match d {
            Decision::Commit => g.commit_proof(),
            Decision::Abort => g.abort_proof(),
        },
        Kind::Logs => g.log_proof(),
    }
}

// ---- look-up

// What is held under a message's stamp: nothing, this body, or another one; and what stands beside it.
#[derive(Clone, Copy)]
pub enum Held {
    Not,
    Same(State),
    Other(State),
}

// That, its place, behind the last where nothing is held, and how many entries were gone through.
#[derive(Clone, Copy)]
pub struct Look {
    pub place: usize,
    pub held: Held,
    pub visited: usize,
}

// A row of the message's stamp: whose body it holds.
fn held_in(row: &[u8], b: &[u8]) -> Held
    requires { WfRow row.now }
    ensures { result ≡ held_by b.now (some (entry_of row.now)) }
{
    let state = table::state_of(row);
    if table::same(table::body_of(row), b) {
        Held::Same(state)
    } else {
        Held::Other(state)
    }
}

fn look_up(t: &[u8], n: usize, b: &[u8]) -> Look
    requires { Wf t.now n × TxThere b.now }
    ensures { (result ≡ look_of (entries t.now n) b.now) × (result.place ≤ n) }
{
    let place = table::place(t, n, table::stamp_of(b));
    if place < n {
        return Look {
            place,
            held: held_in(table::row(t, place), b),
            visited: place + 1,
        };
    }
    Look {
        place,
        held: Held::Not,
        visited: n,
    }
}

// Whether there is no room for a new entry behind `n`.
fn is_full(n: usize, told: Told) -> bool
    ensures { result ≡ leb told.capacity n }
{
    told.capacity <= n as u64
}

// ---- PR

// The vote is stored and answered, with the entries visited; log and view stay.
fn cast(i: usize, e: State, v: Vote, visited: usize) -> Step
    ensures { result ≡ cast_step i e.log e.view v visited }
{
    let state = State {
        vote: v,
        decided: None,
        ..e
    };
    Step::put(i, state, Answer::Voted(v, Some(visited)))
}

// Not held: 13, else the tests. `own` entries were visited by the own look-up.
fn pr_new(
    h: &[u8],
    t: &[u8],
    n: usize,
    marks: &[u64],
    told: Told,
    b: &[u8],
    i: usize,
    own: usize,
) -> Step
    requires { Wf t.now n × TxThere b.now × (own ≡ look_up (stamp_of b.now) (entries t.now n)) × (head_len ≤ length h.now) }
    ensures { result ≡ pr_by i told (box_from h.now (entries t.now n) marks.now) b.now Not }
{
    if is_full(n, told) {
        return Step::refuse(Refusal::Full);
    }
    let first = scans::first_vote(h, t, n, marks, b, told);
    cast(i, BLANK, first.vote, own + first.visited)
}

// Vote cast: the same vote again. Waiting: the waiting rule. None: the tests as if new, in its place.
fn pr_undecided(
    h: &[u8],
    t: &[u8],
    n: usize,
    marks: &[u64],
    told: Told,
    b: &[u8],
    i: usize,
    own: usize,
    e: State,
) -> Step
    requires { Wf t.now n × TxThere b.now × (own ≡ look_up (stamp_of b.now) (entries t.now n)) × (head_len ≤ length h.now) }
    ensures { result ≡ step_by i (pr_by_vote told (box_from h.now (entries t.now n) marks.now) b.now (entry_with b.now e) e.vote) }
{
    match e.vote {
        Vote::Commit | Vote::Abort(_) => Step::keep(Answer::Voted(e.vote, None)),
        Vote::Waiting => {
            let again = scans::waiting_rule(h, t, n, b);
            cast(i, e, again.vote, own + again.visited)
        }
        Vote::None => {
            let first = scans::first_vote(h, t, n, marks, b, told);
            cast(i, e, first.vote, own + first.visited)
        }
    }
}

// PR. Held with this body and decided: Decided. Held with another body: 9.
pub fn pr_step(h: &[u8], t: &[u8], n: usize, marks: &[u64], told: Told, b: &[u8]) -> Step
    requires { Wf t.now n × TxThere b.now × (head_len ≤ length h.now) }
    ensures { result ≡ step_by (place (stamp_of b.now) (entries t.now n)) (pr_rule told (box_from h.now (entries t.now n) marks.now) b.now) }
{
    let look = look_up(t, n, b);
    let i = look.place;
    let own = look.visited;
    match look.held {
        Held::Not => pr_new(h, t, n, marks, told, b, i, own),
        Held::Same(e) => match e.decided {
            Some(d) => Step::keep(Answer::Decided(d)),
            None => pr_undecided(h, t, n, marks, told, b, i, own, e),
        },
        Held::Other(_) => Step::refuse(Refusal::OtherBody),
    }
}

// ---- LG

// Too few: 11. A new entry and no room: 13. Else it is logged with view 0, beside this vote and the current view.
fn lg_unlogged(i: usize, full: bool, e: State, told: Told, l: VoteList) -> Step
    requires { (told.f ≤ 5) × (l.count ≤ 26) }
    ensures { (b : Body) (o : Option Entry) → vote_in o ≡ e.vote → view_in o ≡ e.view → result ≡ step_by i (needing (for_logging told.f (decision_of (list_in l).decision)) (list_in l) (pick full (refuse Full) (first_log b (decision_of (list_in l).decision) o))) }
{
    let d = decision_of(l.decision);
    let lacks = lacking(l, log_need(group_of(told), d));
    if lacks != 0 {
        return Step::refuse(Refusal::TooFew(lacks));
    }
    if full {
        return Step::refuse(Refusal::Full);
    }
    let logged = State {
        log: Some(Logged {
            decision: d,
            view: View(0),
        }),
        decided: None,
        ..e
    };
    Step::put(i, logged, Answer::Logged(d, View(0)))
}

// Already logged: that same log.
fn lg_undecided(i: usize, e: State, told: Told, l: VoteList) -> Step
    requires { (told.f ≤ 5) × (l.count ≤ 26) }
    ensures { (b : Body) → result ≡ step_by i (lg_by_log told b (list_in l) (entry_with b e) e.log) }
{
    match e.log {
        Some(logged) => Step::keep(Answer::Logged(logged.decision, logged.view)),
        None => lg_unlogged(i, false, e, told, l),
    }
}

// LG. Not held: a new entry with vote none, if there is room. Decided: Decided. Other body: 9.
pub fn lg_step(t: &[u8], n: usize, told: Told, b: &[u8], l: VoteList) -> Step
    requires { Wf t.now n × TxThere b.now × (told.f ≤ 5) × (l.count ≤ 26) }
    ensures { (marks : List ℕ) (low : ℕ) (folds : List Version) → result ≡ step_by (place (stamp_of b.now) (entries t.now n)) (lg_rule told (box_with (entries t.now n) marks low folds) b.now (list_in l)) }
{
    let look = look_up(t, n, b);
    let i = look.place;
    match look.held {
        Held::Not => lg_unlogged(i, is_full(n, told), BLANK, told, l),
        Held::Same(e) => match e.decided {
            Some(d) => Step::keep(Answer::Decided(d)),
            None => lg_undecided(i, e, told, l),
        },
        Held::Other(_) => Step::refuse(Refusal::OtherBody),
    }
}

// ---- DC

// This decision and nothing else beside the body.
fn dc_new(i: usize, d: Decision) -> Step
    ensures { (b : Body) → result ≡ step_by i (decide_act b d none) }
{
    let state = State {
        decided: Some(d),
        ..BLANK
    };
    Step::put(i, state, Answer::Done)
}

// Not held: 13, else a new entry.
fn dc_unheld(n: usize, told: Told, i: usize, d: Decision) -> Step
    ensures { (x : Box) (b : Body) → length x.table ≡ n → result ≡ step_by i (dc_by_entry told x b d none) }
{
    if is_full(n, told) {
        return Step::refuse(Refusal::Full);
    }
    dc_new(i, d)
}

// Held, this body. Undecided takes it; equal decision changes nothing; opposite: 12.
fn dc_same(i: usize, e: State, d: Decision) -> Step
    ensures { (b : Body) → result ≡ step_by i (dc_same b d (entry_with b e) e.decided) }
{
    match e.decided {
        None => Step::put(
            i,
            State {
                decided: Some(d),
                ..e
            },
            Answer::Done,
        ),
        Some(held) => {
            if held == d {
                return Step::keep(Answer::Done);
            }
            Step::refuse(Refusal::Contradiction)
        }
    }
}

// A commit for another body: 12 if the held one is committed, else the new body replaces it.
fn dc_commit(i: usize, held: Option<Decision>) -> Step
    ensures { (b : Body) → result ≡ step_by i (dc_other b commit held) }
{
    match held {
        Some(Decision::Commit) => Step::refuse(Refusal::Contradiction),
        Some(Decision::Abort) | None => dc_new(i, Decision::Commit),
    }
}

// Held, other body. Abort: 9.
fn dc_other(i: usize, held: Option<Decision>, d: Decision) -> Step
    ensures { (b : Body) → result ≡ step_by i (dc_other b d held) }
{
    match d {
        Decision::Abort => Step::refuse(Refusal::OtherBody),
        Decision::Commit => dc_commit(i, held),
    }
}

// The list meets its threshold.
fn dc_proved(t: &[u8], n: usize, told: Told, b: &[u8], d: Decision) -> Step
    requires { Wf t.now n × TxThere b.now }
    ensures { (marks : List ℕ) (low : ℕ) (folds : List Version) → result ≡ dc_proved told (box_with (entries t.now n) marks low folds) b.now d }
{
    let look = look_up(t, n, b);
    let i = look.place;
    match look.held {
        Held::Not => dc_unheld(n, told, i, d),
        Held::Same(e) => dc_same(i, e, d),
        Held::Other(e) => dc_other(i, e.decided, d),
    }
}

// DC. 11 first.
pub fn dc_step(t: &[u8], n: usize, told: Told, b: &[u8], l: VoteList) -> Step
    requires { Wf t.now n × TxThere b.now × (told.f ≤ 5) × (l.count ≤ 26) }
    ensures { (marks : List ℕ) (low : ℕ) (folds : List Version) → result ≡ step_by (place (stamp_of b.now) (entries t.now n)) (dc_rule told (box_with (entries t.now n) marks low folds) b.now (list_in l)) }
{
    let d = decision_of(l.decision);
    let lacks = lacking(l, proof_need(group_of(told), kind_of(l.kind), d));
    if lacks != 0 {
        return Step::refuse(Refusal::TooFew(lacks));
    }
    dc_proved(t, n, told, b, d)
}

// ---- RD

// RD. Stamp above clock + δ: 15. Stamp at or below the low mark: 18. Else what is found, and the key's read mark raised.
pub fn rd_step(h: &[u8], t: &[u8], n: usize, told: Told, k: Key, s: Stamp) -> Step
    requires { Wf t.now n × (head_len ≤ length h.now) }
    ensures { (i : ℕ) (marks : List ℕ) → result ≡ step_by i (rd_rule told (box_from h.now (entries t.now n) marks) k.0 s.0) }
{
    if scans::ahead(s, told) {
        return Step::refuse(Refusal::Ahead);
    }
    if s <= table::low_of(h) {
        return Step::refuse(Refusal::Old);
    }
    Step {
        answer: scans::found(h, t, n, k, s),
        change: Change::Raise(k, s),
    }
}

// ---- views

// How many of the listed are at the view or above it. A `for` over what is lent, since it is asked for each of them: `filter` and `count`, of a list by
// value, take half as long again.
fn reach(listed: &[Ballot], v: View) -> usize
    requires { length listed.now ≤ 26 }
    ensures { (result ≡ reach v.0 (map (own_ballot VS) listed.now)) × (result ≤ 26) }
{
    let mut found = 0;
    for b in listed {
        if v <= b.view {
            found += 1;
        }
    }
    found
}

// The largest listed view that so many of all are at or above.
fn reached(l: ViewList, need: usize) -> Option<View>
    requires { l.count ≤ 26 }
    ensures { option_map (λ (v : View). v.0) result ≡ found_view (reached need (views_in VS l).ballots (views_in VS l).ballots) }
{
    let listed = &l.ballots[..l.count];
    listed
        .iter()
        .filter(|b| need <= reach(listed, b.view))
        .map(|b| b.view)
        .max()
}

// With 3f + 1 to the view after theirs, else with f + 1 up to theirs; never back.
fn next_view(g: Group, current: View, l: ViewList) -> usize
    requires { l.count ≤ 26 }
    ensures { result ≡ next_view g.f current.0 (views_in VS l).ballots }
{
    let held = current.0 as usize;
    match reached(l, g.commit_list()) {
        Some(v) => held.max(v.0 as usize + 1),
        None => match reached(l, g.abort_list()) {
            Some(v) => held.max(v.0 as usize),
            None => held,
        },
    }
}

// ---- IV

// Past 65,535: 24. Else the view that is moved on to is stored, and the log answered with it and its leader.
fn iv_logged(i: usize, e: State, d: Decision, told: Told, b: &[u8], l: ViewList) -> Step
    requires { TxThere b.now × (told.f ≤ 5) × (l.count ≤ 26) }
    ensures { (v : View) → result ≡ step_by i (iv_by_log told b.now (views_in VS l).ballots (entry_with b.now e) (logged_at d v)) }
{
    let g = group_of(told);
    let next = next_view(g, e.view, l);
    if LARGEST_VIEW < next {
        return Step::refuse(Refusal::LastView);
    }
    let view = View(next as u16);
    let leader = rules::leader_of(g, view, table::stamp_of(b));
    let moved = State {
        view,
        decided: None,
        ..e
    };
    Step::put(i, moved, Answer::Elected(d, view, leader))
}

// Nothing logged: 22.
fn iv_undecided(i: usize, e: State, told: Told, b: &[u8], l: ViewList) -> Step
    requires { TxThere b.now × (told.f ≤ 5) × (l.count ≤ 26) }
    ensures { result ≡ step_by i (iv_by_log told b.now (views_in VS l).ballots (entry_with b.now e) e.log) }
{
    match e.log {
        None => Step::refuse(Refusal::NotLogged),
        Some(logged) => iv_logged(i, e, logged.decision, told, b, l),
    }
}

// IV. Not held: 22. Decided: Decided. Other body: 9.
pub fn iv_step(t: &[u8], n: usize, told: Told, b: &[u8], l: ViewList) -> Step
    requires { Wf t.now n × TxThere b.now × (told.f ≤ 5) × (l.count ≤ 26) }
    ensures { (marks : List ℕ) (low : ℕ) (folds : List Version) → result ≡ step_by (place (stamp_of b.now) (entries t.now n)) (iv_rule told (box_with (entries t.now n) marks low folds) b.now (views_in VS l)) }
{
    let look = look_up(t, n, b);
    let i = look.place;
    match look.held {
        Held::Not => Step::refuse(Refusal::NotLogged),
        Held::Same(e) => match e.decided {
            Some(d) => Step::keep(Answer::Decided(d)),
            None => iv_undecided(i, e, told, b, l),
        },
        Held::Other(_) => Step::refuse(Refusal::OtherBody),
    }
}

// ---- LD

// Whether all ballots have the list's view.
fn one_view(l: ViewList) -> bool
    requires { l.count ≤ 26 }
    ensures { result ≡ one_view l.view.0 (views_in EL l).ballots }
{
    l.ballots[..l.count].iter().all(|b| b.view == l.view)
}

// How many ballots have the list's decision.
fn agreeing(l: ViewList) -> usize
    requires { l.count ≤ 26 }
    ensures { (result ≡ tally l.decision (map ballot_pair (views_in EL l).ballots)) × (result ≤ 26) }
{
    l.ballots[..l.count]
        .iter()
        .filter(|b| b.answer == l.decision)
        .count()
}

// Whether leader, number of answers, their view and their majority are right.
fn leads(g: Group, b: &[u8], l: ViewList) -> bool
    requires { TxThere b.now × (g.f ≤ 5) × (l.count ≤ 26) }
    ensures { result ≡ leads g.f b.now (views_in EL l) }
{
    l.leader == rules::leader_of(g, l.view, table::stamp_of(b))
        && l.count == g.log_proof()
        && one_view(l)
        && l.count < 2 * agreeing(l)
}

// Whether the current view is not above this one, and the logged view strictly below.
fn may_take(e: State, v: View) -> bool
    ensures { result ≡ (leb e.view.0 v.0 && ltb (log_view e.log).0 v.0) }
{
    e.view <= v && rules::log_view(e.log) < v
}

// The decision is logged with its view, which is the current one from then on.
fn ld_taken(i: usize, vote: Vote, l: ViewList) -> Step
    ensures { (b : Body) (o : Option Entry) → vote_in o ≡ vote → result ≡ step_by i (led_act b (views_in EL l) o) }
{
    let d = decision_of(l.decision);
    let view = l.view;
    let led = State {
        vote,
        log: Some(Logged { decision: d, view }),
        view,
        decided: None,
    };
    Step::put(i, led, Answer::Logged(d, view))
}

// Not an election: 23. A view that forbids it: 21. A new entry and no room: 13. Else it is taken.
fn ld_undecided(i: usize, full: bool, e: State, told: Told, b: &[u8], l: ViewList) -> Step
    requires { TxThere b.now × (told.f ≤ 5) × (l.count ≤ 26) }
    ensures { (o : Option Entry) → Beside o e → result ≡ step_by i (take_act told b.now (views_in EL l) o (pick full (refuse Full) (led_act b.now (views_in EL l) o))) }
{
    if leads(group_of(told), b, l) {
        if may_take(e, l.view) {
            if full {
                return Step::refuse(Refusal::Full);
            }
            return ld_taken(i, e.vote, l);
        }
        return Step::refuse(Refusal::Passed);
    }
    Step::refuse(Refusal::Election)
}

// LD. Not held: a new entry with vote none, if there is room. Decided: Decided. Other body: 9.
pub fn ld_step(t: &[u8], n: usize, told: Told, b: &[u8], l: ViewList) -> Step
    requires { Wf t.now n × TxThere b.now × (told.f ≤ 5) × (l.count ≤ 26) }
    ensures { (marks : List ℕ) (low : ℕ) (folds : List Version) → result ≡ step_by (place (stamp_of b.now) (entries t.now n)) (ld_rule told (box_with (entries t.now n) marks low folds) b.now (views_in EL l)) }
{
    let look = look_up(t, n, b);
    let i = look.place;
    match look.held {
        Held::Not => ld_undecided(i, is_full(n, told), BLANK, told, b, l),
        Held::Same(e) => match e.decided {
            Some(d) => Step::keep(Answer::Decided(d)),
            None => ld_undecided(i, false, e, told, b, l),
        },
        Held::Other(_) => Step::refuse(Refusal::OtherBody),
    }
}
