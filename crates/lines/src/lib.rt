// The bench's lines: a record's number, its mark, and what was said of it, as text put down in a lent buffer.
// No `Display`: over a writer to the lent buffer `write!` promises the text only where it answers Ok, and no contract says when it does; a scratch crate was left
// with the Err that a line's promise has no place for. So each part is put down by a function that promises its bytes and the place behind them.
#![tactic(auto)]

ghost use Rattle.std.specs.Prelude.{◌≡◌, ◌+◌, ◌≤◌, length};
ghost use Rattle.lines.specs.Lines.{decimal, decision_text, vote_text, version_text, found_text, lacking_text, refusal_text, logged_text, elected_text, answer_text, said_text, known, mark_text, line_of, put_at, Puts};

use rules::{Answer, Version, Vote};
use terms::{Decision, Refusal, View};

// What a record is told: that it was taken (a GP or a CK), or a box's answer. No `Option<Answer>`: to be taken is an answer too, `ok`, and `None` would not
// say it.
#[derive(Clone, Copy)]
pub enum Said {
    Taken,
    Answered(Answer),
}

// Text, put down at a place; the place behind it.
pub fn put_text(out: &mut [u8], at: usize, text: &[u8]) -> usize
    requires { at + length text.now ≤ length out.old }
    ensures { (result ≡ at + length text.now) × (out.new ≡ put_at out.old at text.now) }
{
    let behind = at + text.len();
    out[at..behind].copy_from_slice(text);
    behind
}

// A number in decimal.
fn put_decimal(out: &mut [u8], at: usize, x: u64) -> usize
    requires { at + 20 ≤ length out.old }
    ensures { Puts out.old at (decimal x) 20 out.new result }
{
    let mut digits = itoa::Buffer::new();
    put_text(out, at, digits.format(x).as_bytes())
}

// Whether a record begins with a mark that the bench knows; one that is cut does not.
#[tactic(auto, unfolding(crate::specs::Lines::known))]
fn is_known(s: &[u8]) -> bool
    ensures { result ≡ known s.now }
{
    s.len() >= 2
        && (reading::is_mark(s, b"GP")
            || reading::is_mark(s, b"CK")
            || reading::is_mark(s, b"LM")
            || reading::mark_of(s).is_ok())
}

fn put_mark(out: &mut [u8], at: usize, s: &[u8]) -> usize
    requires { at + 2 ≤ length out.old }
    ensures { Puts out.old at (mark_text s.now) 2 out.new result }
{
    if is_known(s) {
        return put_text(out, at, &s[..2]);
    }
    put_text(out, at, b"??")
}

fn put_decision(out: &mut [u8], at: usize, d: Decision) -> usize
    requires { at + 6 ≤ length out.old }
    ensures { Puts out.old at (decision_text d) 6 out.new result }
{
    match d {
        Decision::Commit => put_text(out, at, b"commit"),
        Decision::Abort => put_text(out, at, b"abort"),
    }
}

fn put_vote(out: &mut [u8], at: usize, v: Vote) -> usize
    requires { at + 26 ≤ length out.old }
    ensures { Puts out.old at (vote_text v) 26 out.new result }
{
    match v {
        Vote::None => put_text(out, at, b"none"),
        Vote::Commit => put_text(out, at, b"commit"),
        Vote::Abort(why) => {
            let a = put_text(out, at, b"abort ");
            put_decimal(out, a, why.number() as u64)
        }
        Vote::Waiting => put_text(out, at, b"wait"),
    }
}

fn put_version(out: &mut [u8], at: usize, v: Version) -> usize
    requires { at + 41 ≤ length out.old }
    ensures { Puts out.old at (version_text v) 41 out.new result }
{
    let a = put_decimal(out, at, v.stamp.0);
    let b = put_text(out, a, b" ");
    put_decimal(out, b, v.value)
}

// What an RD finds: four numbers.
fn put_found(out: &mut [u8], at: usize, committed: Version, undecided: Version) -> usize
    requires { at + 83 ≤ length out.old }
    ensures { Puts out.old at (found_text committed undecided) 83 out.new result }
{
    let a = put_version(out, at, committed);
    let b = put_text(out, a, b" ");
    put_version(out, b, undecided)
}

// How many answers are lacking, behind the refusal's number; nothing where none is.
fn put_lacking(out: &mut [u8], at: usize, lacking: u8) -> usize
    requires { at + 21 ≤ length out.old }
    ensures { Puts out.old at (lacking_text lacking) 21 out.new result }
{
    if lacking == 0 {
        return at;
    }
    let a = put_text(out, at, b" ");
    put_decimal(out, a, lacking as u64)
}

fn put_refusal(out: &mut [u8], at: usize, why: Refusal) -> usize
    requires { at + 49 ≤ length out.old }
    ensures { Puts out.old at (refusal_text why) 49 out.new result }
{
    let a = put_text(out, at, b"refused ");
    let b = put_decimal(out, a, why.number() as u64);
    put_lacking(out, b, why.lacking())
}

fn put_logged(out: &mut [u8], at: usize, d: Decision, view: View) -> usize
    requires { at + 34 ≤ length out.old }
    ensures { Puts out.old at (logged_text d view.0) 34 out.new result }
{
    let a = put_text(out, at, b"logged ");
    let b = put_decision(out, a, d);
    let c = put_text(out, b, b" ");
    put_decimal(out, c, view.0 as u64)
}

fn put_elected(out: &mut [u8], at: usize, d: Decision, view: View, leader: u8) -> usize
    requires { at + 54 ≤ length out.old }
    ensures { Puts out.old at (elected_text d view.0 leader) 54 out.new result }
{
    let a = put_text(out, at, b"elect ");
    let b = put_decision(out, a, d);
    let c = put_text(out, b, b" ");
    let e = put_decimal(out, c, view.0 as u64);
    let g = put_text(out, e, b" ");
    put_decimal(out, g, leader as u64)
}

fn put_answer(out: &mut [u8], at: usize, answer: Answer) -> usize
    requires { at + 83 ≤ length out.old }
    ensures { Puts out.old at (answer_text answer) 83 out.new result }
{
    match answer {
        Answer::Voted(v, _) => put_vote(out, at, v),
        Answer::Decided(d) => {
            let a = put_text(out, at, b"decided ");
            put_decision(out, a, d)
        }
        Answer::Logged(d, v) => put_logged(out, at, d, v),
        Answer::Done => put_text(out, at, b"done"),
        Answer::Found(committed, undecided) => put_found(out, at, committed, undecided),
        Answer::Refused(why) => put_refusal(out, at, why),
        Answer::Elected(d, v, leader) => put_elected(out, at, d, v, leader),
        Answer::Raised => put_text(out, at, b"ok"),
    }
}

fn put_said(out: &mut [u8], at: usize, said: Said) -> usize
    requires { at + 83 ≤ length out.old }
    ensures { Puts out.old at (said_text said) 83 out.new result }
{
    match said {
        Said::Taken => put_text(out, at, b"ok"),
        Said::Answered(answer) => put_answer(out, at, answer),
    }
}

// A record's line; the place behind it. A line is at most 112 bytes.
pub fn put_line(out: &mut [u8], at: usize, number: u64, s: &[u8], said: Said) -> usize
    requires { at + 112 ≤ length out.old }
    ensures { (result ≡ at + length (line_of number s.now said)) × (out.new ≡ put_at out.old at (line_of number s.now said)) × (length (line_of number s.now said) ≤ 112) }
{
    let a = put_decimal(out, at, number);
    let b = put_text(out, a, b" ");
    let c = put_mark(out, b, s);
    let d = put_text(out, c, b" ");
    let e = put_said(out, d, said);
    put_text(out, e, b"\n")
}
