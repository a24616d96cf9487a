// What a box answers: votes with their reasons, and the answer to each call; and the leader of a view. The rules of a box stand in specs/, their theorem in proofs/.
#![tactic(auto)]

ghost use Rattle.std.specs.Prelude.{◌≡◌, ◌≤◌};
ghost use Rattle.rules.specs.Answers.{reason_number, vote_number, vote_reason, settled_number, log_number, log_view, visited_told, visited_number};
ghost use Rattle.rules.specs.Fallback.{leader_of};

use terms::{Decision, Group, Refusal, Stamp, View};

// Why a box votes abort: a test's number, or 6 for the waiting rule.
#[derive(Clone, Copy, PartialEq, Eq)]
pub enum Reason {
    Ahead,
    NoVersion,
    Overwritten,
    Undercuts,
    ReadMark,
    Dependency,
}

impl Reason {
    // The paper's number.
    pub fn number(self) -> u8
        ensures { result ≡ reason_number self }
    {
        match self {
            Reason::Ahead => 1,
            Reason::NoVersion => 2,
            Reason::Overwritten => 3,
            Reason::Undercuts => 4,
            Reason::ReadMark => 5,
            Reason::Dependency => 6,
        }
    }
}

// A vote, or none; its numbers are those that a tally takes. It stays an enum, and no Option of a vote that is cast: docs/FORMS.md binds that form.
#[derive(Clone, Copy, PartialEq, Eq)]
pub enum Vote {
    None,
    Commit,
    Abort(Reason),
    Waiting,
}

impl Vote {
    // Its code, in an entry and in an answer: 0 none, 1 commit, 2 abort, 3 waiting.
    pub fn number(self) -> u8
        ensures { result ≡ vote_number self }
    {
        match self {
            Vote::None => 0,
            Vote::Commit => 1,
            Vote::Abort(_) => 2,
            Vote::Waiting => 3,
        }
    }

    // The reason's number beside it, 0 where the vote is not abort.
    pub fn reason(self) -> u8
        ensures { result ≡ vote_reason self }
    {
        match self {
            Vote::None => 0,
            Vote::Commit => 0,
            Vote::Abort(why) => why.number(),
            Vote::Waiting => 0,
        }
    }
}

// The code of a decision or none, in an entry: 0 none, 1 commit, 2 abort.
pub fn settled_number(decided: Option<Decision>) -> u8
    ensures { result ≡ settled_number decided }
{
    decided.map_or(0, |d| d.number())
}

// A decision that was logged, and its view.
#[derive(Clone, Copy, PartialEq, Eq)]
pub struct Logged {
    pub decision: Decision,
    pub view: View,
}

// The code of a logged decision or none, in an entry: 0 none, 1 commit, 2 abort.
pub fn log_number(log: Option<Logged>) -> u8
    ensures { result ≡ log_number log }
{
    log.map_or(0, |l| l.decision.number())
}

// The view of a logged decision: 0 where nothing is logged.
pub fn log_view(log: Option<Logged>) -> View
    ensures { result ≡ log_view log }
{
    log.map_or(View(0), |l| l.view)
}

// What stands at a key: the stamp of its writer and the value written; 0 and 0 where there is none.
#[derive(Clone, Copy, PartialEq, Eq)]
pub struct Version {
    pub stamp: Stamp,
    pub value: u64,
}

// What a box is told beside a message: any numbers.
#[derive(Clone, Copy)]
pub struct Told {
    pub f: u64,
    pub capacity: u64,
    pub clock: u64,
    pub delta: u64,
}

// Whether a PR's answer tells how many entries it visited: 0 no, 1 yes.
pub fn visited_told(visited: Option<usize>) -> u8
    ensures { result ≡ visited_told visited }
{
    visited.is_some() as u8
}

// The number of entries visited; 0 where none is told.
pub fn visited_number(visited: Option<usize>) -> usize
    ensures { result ≡ visited_number visited }
{
    visited.unwrap_or(0)
}

// What a box answers. PR: Voted or Decided; LG and LD: Logged or Decided; DC: Done; RD: Found; IV: Elected or Decided; raising the low mark: Raised; every call: Refused.
// An enum and no Result: a refusal is one of the answers, and C is told which it is by a number, 6 for the refusal.
#[derive(Clone, Copy)]
pub enum Answer {
    // The entries that the PR visited, or no number: a vote that was cast before carries none.
    Voted(Vote, Option<usize>),
    Decided(Decision),
    Logged(Decision, View),
    Done,
    // What is committed, then what is live and undecided.
    Found(Version, Version),
    Refused(Refusal),
    // The decision that is logged, the view that the box has moved on to, and that view's leader.
    Elected(Decision, View, u8),
    // The low mark is raised.
    Raised,
}

// The leader of a view, box (v + stamp) mod n; a stamp's rest stands in its place, since the sum may be too large.
pub fn leader_of(g: Group, view: View, stamp: Stamp) -> u8
    requires { g.f ≤ 5 }
    ensures { result ≡ leader_of g.f view.0 stamp.0 }
{
    let n = g.n() as u64;
    ((view.0 as u64 + stamp.0 % n) % n) as u8
}
