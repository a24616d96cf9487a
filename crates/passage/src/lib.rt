// The passage register: four keys as one product. What is seen of a passage is judged, reported from the leading end, corrected, entered.
#![tactic(auto, unfolding(terms::proofs::Checks::chain))]

ghost use Rattle.std.specs.Prelude.{◌≡◌, ◌≤◌, ◌<◌};
ghost use Rattle.records.specs.Tx.{held_tx};
ghost use Rattle.records.specs.Contents.{tx_wrong};
ghost use Rattle.passage.specs.Passages.{key_of, values_of, passage_wrong, versions_wrong, values_wrong, seen_wrong, from_lead, report_of, half, unfound, sight_of, report_from, asks_wrong, ask_at, asks_of};
ghost use Rattle.passage.specs.Corrections.{turned, read_of, write_of, eight_reads, eight_writes, passage_tx, made_by, direction_corrected, corrected, entered};

use records::{NO_READ, NO_WRITE, Read, Transaction, Write};
use rules::{Answer, Version};
use terms::{Check, Key, Refusal, Stamp};

pub const LARGEST_PASSAGE: u64 = 127;

pub const LARGEST_AXLE_COUNT: u64 = 1000;

// What stands at a passage's keys, in their order; the hot axle in the detector's order, 0 for none.
#[derive(Clone, Copy)]
pub struct Values {
    pub train: u64,
    pub direction: u64,
    pub axles: u64,
    pub hot: u64,
}

// The committed halves of four RD answers taken at one stamp.
#[derive(Clone, Copy)]
pub struct Seen {
    pub train: Version,
    pub direction: Version,
    pub axles: Version,
    pub hot: Version,
}

// What a dispatcher reads: the hot axle counted from the train's leading end. The fields are those of `Values`; the public type is its own, so that a report
// is never taken for what stands at the keys.
#[derive(Clone, Copy)]
pub struct Report {
    pub train: u64,
    pub direction: u64,
    pub axles: u64,
    pub hot: u64,
}

// The key and the stamp of an RD.
#[derive(Clone, Copy)]
pub struct Ask {
    pub key: Key,
    pub stamp: Stamp,
}

// The RDs of a passage.
#[derive(Clone, Copy)]
pub struct Asked {
    pub train: Ask,
    pub direction: Ask,
    pub axles: Ask,
    pub hot: Ask,
}

const NO_VERSION: Version = Version {
    stamp: Stamp(0),
    value: 0,
};

// ---- judged

#[tactic(auto, unfolding(terms::proofs::Checks::chain, crate::specs::Passages::passage_wrong))]
fn passage_wrong(passage: u64) -> Check
    ensures { result ≡ passage_wrong passage }
{
    terms::refuse_if(LARGEST_PASSAGE < passage, Refusal::Passage)
}

#[tactic(auto, using(terms::proofs::Checks::other_when), unfolding(terms::specs::Checks::or_else, crate::specs::Passages::versions_wrong))]
fn versions_wrong(seen: Seen) -> Check
    ensures { result ≡ versions_wrong seen }
{
    let one = seen.train.stamp.0;
    terms::refuse_if(one != seen.direction.stamp.0, Refusal::Versions)?;
    terms::refuse_if(one != seen.axles.stamp.0, Refusal::Versions)?;
    terms::refuse_if(one != seen.hot.stamp.0, Refusal::Versions)
}

// 28, 29, 30: no sum is made before them.
#[tactic(auto, unfolding(terms::proofs::Checks::chain, crate::specs::Passages::values_wrong))]
pub fn values_wrong(v: Values) -> Check
    ensures { result ≡ values_wrong v }
{
    terms::refuse_if(1 < v.direction, Refusal::Direction)?;
    terms::refuse_if(v.axles < 1, Refusal::AxleCount)?;
    terms::refuse_if(LARGEST_AXLE_COUNT < v.axles, Refusal::AxleCount)?;
    terms::refuse_if(v.axles < v.hot, Refusal::HotAxle)
}

// The values alone.
pub fn values_of(seen: Seen) -> Values
    ensures { result ≡ values_of seen }
{
    Values {
        train: seen.train.value,
        direction: seen.direction.value,
        axles: seen.axles.value,
        hot: seen.hot.value,
    }
}

// 26 to 30, in their order.
#[tactic(auto, unfolding(terms::proofs::Checks::chain, crate::specs::Passages::seen_wrong))]
pub fn seen_wrong(passage: u64, seen: Seen) -> Check
    ensures { result ≡ seen_wrong passage seen }
{
    passage_wrong(passage)?;
    versions_wrong(seen)?;
    values_wrong(values_of(seen))
}

// ---- reported

// The hot axle from the leading end.
#[tactic(auto, unfolding(crate::specs::Passages::from_lead))]
fn from_lead(direction: u64, axles: u64, hot: u64) -> u64
    requires { (axles ≤ 1000) × (hot ≤ axles) }
    ensures { result ≡ from_lead direction axles hot }
{
    if hot == 0 || direction == 0 {
        hot
    } else {
        axles + 1 - hot
    }
}

// The report of a passage, from what was seen of it.
#[tactic(auto, using(crate::proofs::Checked::seen_few, crate::proofs::Checked::seen_hot), unfolding(terms::proofs::Checks::chain, crate::specs::Passages::report_of, crate::specs::Passages::reported_by, crate::specs::Passages::reported))]
pub fn report_of(passage: u64, seen: Seen) -> Result<Report, Refusal>
    ensures { result ≡ report_of passage seen }
{
    seen_wrong(passage, seen)?;
    let v = values_of(seen);
    Ok(Report {
        train: v.train,
        direction: v.direction,
        axles: v.axles,
        hot: from_lead(v.direction, v.axles, v.hot),
    })
}

// ---- asked and answered

// The i-th key of a passage.
fn key_at(passage: u64, i: u64) -> Key
    requires { (passage ≤ 127) × (i < 4) }
    ensures { result ≡ key_of passage i }
{
    Key((4 * passage + i) as u16)
}

fn ask_at(passage: u64, i: u64, stamp: Stamp) -> Ask
    requires { (passage ≤ 127) × (i < 4) }
    ensures { result ≡ ask_at passage i stamp.0 }
{
    let key = key_at(passage, i);
    Ask { key, stamp }
}

#[tactic(auto, unfolding(terms::proofs::Checks::chain, crate::specs::Passages::asks_wrong))]
fn asks_wrong(passage: u64, stamp: Stamp) -> Check
    ensures { result ≡ asks_wrong passage stamp.0 }
{
    passage_wrong(passage)?;
    terms::refuse_if(stamp.0 == 0, Refusal::Range)
}

// The four RDs of a passage at one stamp: what a report and a correction are read from.
#[tactic(auto, using(crate::proofs::Making::asks_low), unfolding(terms::proofs::Checks::chain, crate::specs::Passages::asks_of, crate::specs::Passages::asks_by))]
pub fn asks(passage: u64, stamp: Stamp) -> Result<Asked, Refusal>
    ensures { result ≡ asks_of passage stamp.0 }
{
    asks_wrong(passage, stamp)?;
    Ok(Asked {
        train: ask_at(passage, 0, stamp),
        direction: ask_at(passage, 1, stamp),
        axles: ask_at(passage, 2, stamp),
        hot: ask_at(passage, 3, stamp),
    })
}

// An answer's committed half; 0 and 0 where it has none.
fn half(a: Answer) -> Version
    ensures { result ≡ half a }
{
    match a {
        Answer::Found(committed, _) => committed,
        _ => NO_VERSION,
    }
}

// Why an answer has no halves: its refusal, or that another message was answered.
fn unfound(a: Answer) -> Check
    ensures { result ≡ unfound a }
{
    match a {
        Answer::Found(_, _) => Ok(()),
        // By its number: a refusal that no RD gives, 9 to 13 and 21 to 24, is told as 17, and what is answered may not change.
        Answer::Refused(r) => Err(Refusal::of(r.number())),
        _ => Err(Refusal::Mark),
    }
}

// What the answers to a passage's four RDs show.
#[tactic(auto, unfolding(terms::proofs::Checks::chain, crate::specs::Passages::sight_of, crate::specs::Passages::sight_by))]
pub fn sight_of(
    train: Answer,
    direction: Answer,
    axles: Answer,
    hot: Answer,
) -> Result<Seen, Refusal>
    ensures { result ≡ sight_of train direction axles hot }
{
    unfound(train)?;
    unfound(direction)?;
    unfound(axles)?;
    unfound(hot)?;
    Ok(Seen {
        train: half(train),
        direction: half(direction),
        axles: half(axles),
        hot: half(hot),
    })
}

// The report from those answers.
#[tactic(auto, unfolding(terms::proofs::Checks::chain, crate::specs::Passages::report_from, crate::specs::Passages::report_by))]
pub fn read_report(
    passage: u64,
    train: Answer,
    direction: Answer,
    axles: Answer,
    hot: Answer,
) -> Result<Report, Refusal>
    ensures { result ≡ report_from passage train direction axles hot }
{
    let seen = sight_of(train, direction, axles, hot)?;
    report_of(passage, seen)
}

// ---- entered and corrected

// The i-th key read at the version seen, and written.
fn read_at(passage: u64, i: u64, seen: Version) -> Read
    requires { (passage ≤ 127) × (i < 4) }
    ensures { result ≡ read_of passage i seen }
{
    let key = key_at(passage, i);
    Read {
        key,
        version: seen.stamp,
    }
}

fn write_at(passage: u64, i: u64, value: u64) -> Write
    requires { (passage ≤ 127) × (i < 4) }
    ensures { result ≡ write_of passage i value }
{
    let key = key_at(passage, i);
    Write { key, value }
}

fn reads_of(passage: u64, seen: Seen) -> [Read; 8]
    requires { passage ≤ 127 }
    ensures { result ≡ eight_reads passage seen }
{
    [
        read_at(passage, 0, seen.train),
        read_at(passage, 1, seen.direction),
        read_at(passage, 2, seen.axles),
        read_at(passage, 3, seen.hot),
        NO_READ,
        NO_READ,
        NO_READ,
        NO_READ,
    ]
}

// Beside `reads_of`: what stands at each place differs in type, and a function for four and four more zeros would be no plainer.
fn writes_of(passage: u64, v: Values) -> [Write; 8]
    requires { passage ≤ 127 }
    ensures { result ≡ eight_writes passage v }
{
    [
        write_at(passage, 0, v.train),
        write_at(passage, 1, v.direction),
        write_at(passage, 2, v.axles),
        write_at(passage, 3, v.hot),
        NO_WRITE,
        NO_WRITE,
        NO_WRITE,
        NO_WRITE,
    ]
}

// All four keys read, and written.
fn transaction(passage: u64, seen: Seen, stamp: Stamp, v: Values) -> Transaction
    requires { passage ≤ 127 }
    ensures { (result ≡ held_tx (passage_tx passage seen stamp.0 v)) × (result.r ≤ 8) × (result.w ≤ 8) }
{
    Transaction {
        stamp,
        r: 4,
        w: 4,
        reads: reads_of(passage, seen),
        writes: writes_of(passage, v),
    }
}

// The transaction, or what it is refused with: 5, 6 or 7.
#[tactic(auto, using(crate::proofs::Making::tx_held), unfolding(terms::proofs::Checks::chain, crate::specs::Corrections::made_by))]
fn make(passage: u64, seen: Seen, stamp: Stamp, v: Values) -> Result<Transaction, Refusal>
    requires { passage ≤ 127 }
    ensures { result ≡ made_by (tx_wrong (passage_tx passage seen stamp.0 v)) (passage_tx passage seen stamp.0 v) }
{
    let tx = transaction(passage, seen, stamp, v);
    contents::tx_wrong(tx)?;
    Ok(tx)
}

// An entry: four values over whatever stands there.
#[tactic(auto, using(crate::proofs::Making::low), unfolding(terms::proofs::Checks::chain, crate::specs::Corrections::entered, crate::specs::Corrections::made_after, crate::specs::Corrections::made_by))]
pub fn enter(passage: u64, seen: Seen, stamp: Stamp, v: Values) -> Result<Transaction, Refusal>
    ensures { result ≡ entered passage seen stamp.0 v }
{
    passage_wrong(passage)?;
    values_wrong(v)?;
    make(passage, seen, stamp, v)
}

// A general correction: four new values, judged after those that were seen.
#[tactic(auto, using(crate::proofs::Checked::seen_low), unfolding(terms::proofs::Checks::chain, crate::specs::Corrections::corrected, crate::specs::Corrections::made_after, crate::specs::Corrections::made_by))]
pub fn correct(passage: u64, seen: Seen, stamp: Stamp, v: Values) -> Result<Transaction, Refusal>
    ensures { result ≡ corrected passage seen stamp.0 v }
{
    seen_wrong(passage, seen)?;
    values_wrong(v)?;
    make(passage, seen, stamp, v)
}

// The other direction, all else as it was.
#[tactic(auto, unfolding(crate::specs::Corrections::turned))]
fn turned(v: Values) -> Values
    requires { v.direction ≤ 1 }
    ensures { result ≡ turned v }
{
    Values {
        direction: 1 - v.direction,
        ..v
    }
}

// The direction's correction: 1 - direction, and the other three as read.
#[tactic(auto, using(crate::proofs::Checked::seen_low, crate::proofs::Checked::seen_direction), unfolding(terms::proofs::Checks::chain, crate::specs::Corrections::direction_corrected, crate::specs::Corrections::made_after, crate::specs::Corrections::made_by))]
pub fn correct_direction(passage: u64, seen: Seen, stamp: Stamp) -> Result<Transaction, Refusal>
    ensures { result ≡ direction_corrected passage seen stamp.0 }
{
    seen_wrong(passage, seen)?;
    make(passage, seen, stamp, turned(values_of(seen)))
}
