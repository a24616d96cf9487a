// The leader's sheet: election answers for one transaction in one view, and the EL made of them; and the views that boxes told, for an IV.
#![tactic(auto, unfolding(terms::proofs::Checks::chain))]

ghost use Rattle.std.specs.Prelude.{◌≡◌, ◌<◌, ◌≤◌, length, map, max, IfErr};
ghost use Rattle.terms.specs.Choice.{pick};
ghost use Rattle.records.specs.Views.{ballot_pair, held_views};
ghost use Rattle.rules.specs.Lists.{tally};
ghost use Rattle.sheet.specs.Masks.{has, with_box};
ghost use Rattle.election.specs.Elections.{heard_values, election_wrong, heard_wrong, present, said, sheet_heard, ballot_on, unled, majority, election_for, gathered};
ghost use Rattle.election.specs.Telling.{heights_wrong, tell_wrong, taller, highest, views_for, telling};

use records::{Ballot, NO_BALLOT, NO_VIEWS, ViewList};
use sheet::Sheet;
use terms::{Check, Group, Refusal, Stamp, View};

// What a sheet says after an election answer: how many are lacking of 4f + 1, 0 where it is reached; the answer is of another view; the box is on it
// already; or it is refused. An enum and no Result: it tells three ways beside the refusal, and C is told which by a number, 4 for the refusal.
#[derive(Clone, Copy)]
pub enum Heard {
    Lacking(u8),
    OtherView,
    Repeat,
    Refused(Refusal),
}

impl Heard {
    // The reply as numbers: 1 lacking, 2 of another view, 3 Repeat or 4 refused, and then its value.
    pub fn values(self) -> [u8; 2]
        ensures { result ≡ heard_values self }
    {
        match self {
            Heard::Lacking(k) => [1, k],
            Heard::OtherView => [2, 0],
            Heard::Repeat => [3, 0],
            Heard::Refused(why) => [4, why.number()],
        }
    }
}

pub const LARGEST_VIEW: u64 = 65535;

// Which boxes have told a view, and the highest that each told.
#[derive(Clone, Copy)]
pub struct Highest {
    pub told: u32,
    pub views: [u16; 26],
}

// ---- the leader's sheet

// 14, 16: also where the sheet is of votes.
#[tactic(auto, unfolding(terms::proofs::Checks::chain, crate::specs::Elections::election_wrong))]
fn election_wrong(s: Sheet, f: u64) -> Check
    ensures { result ≡ election_wrong f s }
{
    sheet::sheet_wrong(s, f)?;
    terms::refuse_if(s.kind == 1, Refusal::Table)
}

// 14, 16, then 5 and 8 of the answer.
#[tactic(auto, using(crate::proofs::Hearing::sheet_right), unfolding(terms::proofs::Checks::chain, crate::specs::Elections::heard_wrong, sheet::specs::Sheets::answer_wrong))]
fn heard_wrong(s: Sheet, f: u64, number: u64, answer: u64) -> Check
    ensures { result ≡ heard_wrong s f number answer }
{
    election_wrong(s, f)?;
    sheet::answer_wrong(s, f, number, answer)
}

// How many answers are on a sheet.
fn present(s: Sheet, g: Group) -> usize
    requires { g.f ≤ 5 }
    ensures { result ≡ present g.f s }
{
    let n = g.n();
    sheet::counted(s.commits, n) + sheet::counted(s.aborts, n)
}

// The reply to an election answer, of the sheet before it.
#[tactic(auto, using(crate::proofs::Hearing::box_small), unfolding(crate::specs::Elections::said, crate::specs::Elections::said_by))]
pub fn said(s: Sheet, f: u64, number: u64, answer: u64, view: u64) -> Heard
    ensures { result ≡ said s f number answer view }
{
    if let Err(why) = heard_wrong(s, f, number, answer) {
        return Heard::Refused(why);
    }
    if view != s.view as u64 {
        return Heard::OtherView;
    }
    let b = number as usize;
    if sheet::on_sheet(s, b) {
        return Heard::Repeat;
    }
    let g = Group { f: f as u8 };
    let count = present(sheet::join(s, b, answer), g);
    Heard::Lacking(sheet::lacking(g.log_proof(), count))
}

// The sheet after an election answer.
pub fn sheet_heard(s: Sheet, f: u64, number: u64, answer: u64, view: u64) -> Sheet
    ensures { result ≡ sheet_heard s f number answer view }
{
    if heard_wrong(s, f, number, answer).is_err() {
        return s;
    }
    if view != s.view as u64 {
        return s;
    }
    let b = number as usize;
    if sheet::on_sheet(s, b) {
        return s;
    }
    sheet::join(s, b, answer)
}

// A box on the sheet, with its answer and the sheet's view.
#[tactic(auto, unfolding(crate::specs::Elections::ballot_on))]
fn ballot_on(s: Sheet, b: usize) -> Ballot
    requires { b < 26 }
    ensures { result ≡ ballot_on s b }
{
    let number = b as u8;
    Ballot {
        number,
        answer: if sheet::has_box(s.commits, b) { 1 } else { 2 },
        view: View(s.view),
    }
}

// The boxes of the lowest numbers on a sheet, 4f + 1 of them or all, in rising order: nothing is said yet of leader and decision.
fn lowest(s: Sheet, g: Group) -> ViewList
    requires { g.f ≤ 5 }
    ensures listed { result ≡ held_views (unled g.f s) }
    ensures room { result.count ≤ 26 }
{
    let need = g.log_proof();
    let mut ballots = [NO_BALLOT; 26];
    let mut count = 0;
    for b in 0..g.n() {
        if count < need && sheet::on_sheet(s, b) {
            ballots[count] = ballot_on(s, b);
            count += 1;
        }
    }
    ViewList {
        view: View(s.view),
        count,
        ballots,
        ..NO_VIEWS
    }
}

// How many of the ballots say commit.
fn commits_among(ballots: &[Ballot]) -> usize
    ensures tallied { result ≡ tally 1 (map ballot_pair ballots.now) }
    ensures within { result ≤ length ballots.now }
{
    ballots.iter().filter(|b| b.answer == 1).count()
}

// What more than half of the ballots say, 1 commit or 2 abort.
#[tactic(auto, unfolding(crate::specs::Elections::majority))]
fn majority(ballots: &[Ballot]) -> u8
    requires { length ballots.now ≤ 26 }
    ensures { result ≡ majority ballots.now }
{
    if ballots.len() < 2 * commits_among(ballots) {
        1
    } else {
        2
    }
}

// The EL of a sheet that has 4f + 1.
fn election_of(s: Sheet, g: Group, stamp: Stamp) -> ViewList
    requires { g.f ≤ 5 }
    ensures { result ≡ held_views (election_for s g.f stamp.0) }
{
    let l = lowest(s, g);
    ViewList {
        leader: rules::leader_of(g, View(s.view), stamp),
        decision: majority(&l.ballots[..l.count]),
        ..l
    }
}

// The EL from a sheet: 4f + 1 election answers, those of the lowest numbers, with their majority and the view's leader; 14, 16, then 23 where there are fewer.
#[tactic(auto, using(crate::proofs::Gathering::small), unfolding(terms::proofs::Checks::chain, crate::specs::Elections::gathered))]
pub fn gather(s: Sheet, f: u64, stamp: Stamp) -> Result<ViewList, Refusal>
    ensures { result ≡ gathered s f stamp.0 }
{
    election_wrong(s, f)?;
    let g = Group { f: f as u8 };
    if present(s, g) < g.log_proof() {
        return Err(Refusal::Election);
    }
    Ok(election_of(s, g, stamp))
}

// ---- the views for an IV

// 14, then 16: a box n or more is on the mask.
#[tactic(auto, using(terms::proofs::Groups::group_small), unfolding(terms::proofs::Checks::chain, crate::specs::Telling::heights_wrong))]
fn heights_wrong(told: u32, f: u64) -> Check
    ensures { result ≡ heights_wrong f told }
{
    terms::group_wrong(f)?;
    let n = Group { f: f as u8 }.n();
    terms::refuse_if(sheet::mask_wide(told, n), Refusal::Table)
}

// 14, 16, then 5 of the box and of the view.
#[tactic(auto, using(crate::proofs::Heights::heights_group), unfolding(terms::proofs::Checks::chain, crate::specs::Telling::tell_wrong))]
fn tell_wrong(told: u32, f: u64, number: u64, view: u64) -> Check
    ensures { result ≡ tell_wrong told f number view }
{
    heights_wrong(told, f)?;
    let n = Group { f: f as u8 }.n();
    terms::refuse_if(n as u64 <= number, Refusal::Range)?;
    terms::refuse_if(LARGEST_VIEW < view, Refusal::Range)
}

// The view of a box that tells one: its first, and then a higher one.
fn height(told: u32, b: usize, held: u16, view: u16) -> u16
    requires { b < 32 }
    ensures { result ≡ pick (has told b) (max held view) view }
{
    if sheet::has_box(told, b) {
        held.max(view)
    } else {
        view
    }
}

// The boxes that have told a view, and this one.
fn told_too(told: u32, b: usize) -> u32
    requires { b < 32 }
    ensures { result ≡ pick (has told b) told (with_box told b) }
{
    if sheet::has_box(told, b) {
        told
    } else {
        sheet::with_box(told, b)
    }
}

// The highest views after a box told one; where it is refused, what was told before stands.
#[tactic(auto, using(crate::proofs::Heights::tell_small), unfolding(terms::proofs::Checks::chain, crate::specs::Telling::highest, crate::specs::Telling::taller, crate::specs::Telling::taller_by))]
pub fn taller(
    told: u32,
    views: [u16; 26],
    f: u64,
    number: u64,
    view: u64,
) -> Result<Highest, Refusal>
    ensures { (result ≡ highest told views f number view) × IfErr result (λ why. (told ≡ (taller told views f number view).told) × (views ≡ (taller told views f number view).views)) }
{
    tell_wrong(told, f, number, view)?;
    let b = number as usize;
    let mut heights = views;
    heights[b] = height(told, b, views[b], view as u16);
    Ok(Highest {
        told: told_too(told, b),
        views: heights,
    })
}

// The boxes that have told a view, in rising order, each with its view.
// One loop for this, `lowest` and sheet's `list_of_mask` would be no plainer: it takes closures for the test and for what is listed, with clauses of their own.
fn list_told(told: u32, views: [u16; 26], g: Group) -> ViewList
    requires { g.f ≤ 5 }
    ensures { result ≡ held_views (views_for told views g.f) }
{
    let mut ballots = [NO_BALLOT; 26];
    let mut count = 0;
    for b in 0..g.n() {
        if sheet::has_box(told, b) {
            ballots[count] = Ballot {
                number: b as u8,
                view: View(views[b]),
                ..NO_BALLOT
            };
            count += 1;
        }
    }
    ViewList {
        count,
        ballots,
        ..NO_VIEWS
    }
}

// The VS of the views that boxes told.
#[tactic(auto, using(crate::proofs::Heights::heights_group), unfolding(terms::proofs::Checks::chain, crate::specs::Telling::telling))]
pub fn listed(told: u32, views: [u16; 26], f: u64) -> Result<ViewList, Refusal>
    ensures { result ≡ telling told views f }
{
    heights_wrong(told, f)?;
    Ok(list_told(told, views, Group { f: f as u8 }))
}
