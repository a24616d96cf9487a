// The entry points of a box: one for any message, one where a certain mark is due, one that raises its low mark. Each is 14, 16, the message's refusal,
// then one act of the rules.
#![tactic(auto)]

ghost use Rattle.std.specs.Prelude.{◌≡◌, ℕ, ◌≤◌, false, length};
ghost use Rattle.terms.specs.Checks.{passed};
ghost use Rattle.records.specs.Cutting.{tx_part};
ghost use Rattle.records.specs.Messages.{due_refusal};
ghost use Rattle.rules.specs.Act.{receive, due, due_act, due_mark, told_wrong, rule, raise};
ghost use Rattle.table.specs.Table.{head_len, low_of};
ghost use Rattle.engine.specs.Outcome.{kept, box_in, lent_wrong, called_by, called, lowered, old_now, table_by, table_of, marks_of, Leaves, Ready, Does};

use records::{Mark, ViewMark};
use rules::{Answer, Told};
use steps::{Change, Step};
use terms::{Check, Key, Refusal, Stamp};

// 14 for f or the capacity.
#[tactic(auto, unfolding(terms::proofs::Checks::chain, rules::specs::Act::told_wrong))]
pub fn told_wrong(told: Told) -> Check
    ensures { result ≡ told_wrong told }
{
    terms::group_wrong(told.f)?;
    terms::capacity_wrong(told.capacity)
}

// 14, then 16.
#[tactic(auto, using(crate::proofs::Lent::told_small), unfolding(terms::proofs::Checks::chain, crate::specs::Outcome::lent_wrong))]
fn lent_wrong(t: &[u8], told: Told) -> Check
    ensures { result ≡ lent_wrong told t.now }
{
    told_wrong(told)?;
    table::table_wrong(t, told.capacity as usize)
}

// Whether a message that is in order is old: its transaction's stamp is at or below the low mark. RD asks for itself.
fn is_old(mark: Mark, t: &[u8], m: &[u8]) -> bool
    requires { (head_len ≤ length t.now) × ((f : ℕ) × (due_refusal mark f m.now ≡ passed)) }
    ensures { result ≡ old_now mark (low_of t.now) m.now }
{
    match mark {
        Mark::RD => false,
        _ => table::stamp_of(reading::tx_part_of(m)).0 <= table::low_of(t).0,
    }
}

// A message that is in order and not old, on a table that is taken: by its mark, one step of the rules.
// A match, and no table of closures, which would be no plainer: each step takes arguments of its own.
fn step_of(mark: Mark, t: &[u8], marks: &[u64], told: Told, m: &[u8]) -> Step
    requires { (lent_wrong told t.now ≡ passed) × (due_refusal mark told.f m.now ≡ passed) × (old_now mark (low_of t.now) m.now ≡ false) }
    ensures { Does (rule mark told (box_in (kept t.now marks.now)) m.now) t.now m.now result }
{
    let n = table::count_of(t);
    let rows = table::rows(t);
    match mark {
        Mark::PR => steps::pr_step(t, rows, n, marks, told, reading::tx_part_of(m)),
        Mark::LG => {
            let list = reading::list_behind(m);
            steps::lg_step(rows, n, told, reading::tx_part_of(m), list)
        }
        Mark::DC => {
            let list = reading::list_behind(m);
            steps::dc_step(rows, n, told, reading::tx_part_of(m), list)
        }
        Mark::RD => steps::rd_step(t, rows, n, told, reading::rd_key(m), reading::rd_stamp(m)),
        Mark::IV => {
            let views = reading::views_behind(ViewMark::VS, m);
            steps::iv_step(rows, n, told, reading::tx_part_of(m), views)
        }
        Mark::LD => {
            let answers = reading::views_behind(ViewMark::EL, m);
            steps::ld_step(rows, n, told, reading::tx_part_of(m), answers)
        }
    }
}

// A message where one with this mark is due, on a table that is taken: its refusal, or its step.
fn due_step(mark: Mark, t: &[u8], marks: &[u64], told: Told, m: &[u8]) -> Step
    requires { lent_wrong told t.now ≡ passed }
    ensures { Does (due_act mark told (box_in (kept t.now marks.now)) m.now) t.now m.now result }
{
    if let Err(why) = reading::due_wrong(mark, told.f, m) {
        return Step::refuse(why);
    }
    if is_old(mark, t, m) {
        return Step::refuse(Refusal::Old);
    }
    step_of(mark, t, marks, told, m)
}

// 14, 16, then the message by the mark that is due, or by its own.
fn called(marked: Result<Mark, Refusal>, t: &[u8], marks: &[u64], told: Told, m: &[u8]) -> Step
    ensures { Does (called_by marked told (kept t.now marks.now) m.now) t.now m.now result }
{
    if let Err(why) = lent_wrong(t, told) {
        return Step::refuse(why);
    }
    match marked {
        Ok(mark) => due_step(mark, t, marks, told, m),
        Err(why) => Step::refuse(why),
    }
}

// A key's read mark, raised to the stamp if it is lower.
fn raise(marks: &mut [u64; 512], key: Key, stamp: Stamp)
    requires { key.0 ≤ 511 }
    ensures { marks.new ≡ raise marks.old key.0 stamp.0 }
{
    let i = key.0 as usize;
    if marks[i] < stamp.0 {
        marks[i] = stamp.0;
    }
}

// One step, applied.
fn apply(t: &mut [u8], marks: &mut [u64; 512], step: Step, m: &[u8]) -> Answer
    requires { Ready t.old m.now step.change }
    ensures { (result ≡ step.answer) × (t.new ≡ table_of t.old (tx_part m.now) step.change) × (marks.new ≡ marks_of marks.old step.change) }
{
    let answer = step.answer;
    let change = step.change;
    match change {
        Change::Nothing => answer,
        Change::Put(i, e) => {
            table::store(t, i, reading::tx_part_of(m), e);
            answer
        }
        Change::Raise(k, s) => {
            raise(marks, k, s);
            answer
        }
    }
}

// A message by the mark that it is said to have.
fn run(
    marked: Result<Mark, Refusal>,
    table: &mut [u8],
    marks: &mut [u64; 512],
    told: Told,
    message: &[u8],
) -> Answer
    ensures { Leaves (called_by marked told (kept table.old marks.old) message.now) (kept table.old marks.old) result (kept table.new marks.new) }
{
    let step = called(marked, table, marks, told, message);
    apply(table, marks, step, message)
}

// The mark that is due; none of the six is 2, whatever stands in its place.
#[tactic(auto, unfolding(rules::specs::Act::due_mark))]
fn due_mark<E: Drop>(marked: Result<Mark, E>) -> Result<Mark, Refusal>
    ensures { result ≡ due_mark marked }
{
    marked.or(Err(Refusal::Mark))
}

// A message where one with a certain mark is due: PR to vote on a transaction, LG to log a decision, DC to take one, RD to read a key,
// IV to move on to a higher view, LD to log a leader's decision.
pub fn due<E: Drop>(
    marked: Result<Mark, E>,
    table: &mut [u8],
    marks: &mut [u64; 512],
    told: Told,
    message: &[u8],
) -> Answer
    ensures { Leaves (called (due (due_mark marked)) told (kept table.old marks.old) message.now) (kept table.old marks.old) result (kept table.new marks.new) }
{
    run(due_mark(marked), table, marks, told, message)
}

// Any of the six messages, by its mark.
pub fn receive(table: &mut [u8], marks: &mut [u64; 512], told: Told, message: &[u8]) -> Answer
    ensures { Leaves (called receive told (kept table.old marks.old) message.now) (kept table.old marks.old) result (kept table.new marks.new) }
{
    run(reading::mark_of(message), table, marks, told, message)
}

// The low mark raised to `low`: committed entries at or below it fold, they and the aborted ones leave. No message: no peer may ask for it.
pub fn raise_low(table: &mut [u8], told: Told, low: Stamp) -> Answer
    ensures { (result ≡ (lowered low.0 told table.old).answer) × (table.new ≡ table_by table.old (lowered low.0 told table.old).change) }
{
    if let Err(why) = lent_wrong(table, told) {
        return Answer::Refused(why);
    }
    if let Err(why) = low::low_wrong(table, low) {
        return Answer::Refused(why);
    }
    low::raise(table, low);
    Answer::Raised
}
