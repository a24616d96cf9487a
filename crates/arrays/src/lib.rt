// The values of records as numbers and arrays, which any language can lend: put together into a transaction and a list, and taken apart. Arrays stand beside
// arrays, as the C interface has them.
#![tactic(auto)]

ghost use Rattle.std.specs.Prelude.{◌≡◌};
ghost use Rattle.records.specs.declared.Mark.{Mark};
ghost use Rattle.arrays.specs.Arrays.{lent_tx, lent_list, lent_views, number_by, written_number, written_length, read_keys, read_versions, write_keys, write_values, pair_numbers, pair_answers, mark_in, mark_number_by, tx_in_reading, list_in_reading, key_in_reading, mark_found, own_stamp, parts_stamp, parts_of, parts_row, parts_fields, marked_by, tx_fields, tx_fields_of, fields, ballot_numbers, ballot_answers, ballot_views, view_fields, view_fields_of, list_fields, list_fields_of};

use records::{
    Ballot, Mark, Message, NO_LIST, NO_TX, Pair, Read, Transaction, ViewList, VoteList, Write,
};
use std::array;
use terms::{AsRefusal, Key, Refusal, Stamp, View};

// ---- put together

// A transaction that is lent as numbers and arrays of eight.
pub fn tx(
    stamp: u64,
    r: usize,
    w: usize,
    reads: &[u16; 8],
    versions: &[u64; 8],
    writes: &[u16; 8],
    values: &[u64; 8],
) -> Transaction
    ensures { result ≡ lent_tx stamp r w reads.now versions.now writes.now values.now }
{
    Transaction {
        stamp: Stamp(stamp),
        r,
        w,
        reads: array::from_fn(|j| Read {
            key: Key(reads[j]),
            version: Stamp(versions[j]),
        }),
        writes: array::from_fn(|j| Write {
            key: Key(writes[j]),
            value: values[j],
        }),
    }
}

// A list that is lent as numbers and arrays of 26.
pub fn list(
    kind: u8,
    decision: u8,
    view: u16,
    count: usize,
    numbers: &[u8; 26],
    answers: &[u8; 26],
) -> VoteList
    ensures { result ≡ lent_list kind decision view count numbers.now answers.now }
{
    VoteList {
        kind,
        decision,
        view: View(view),
        count,
        pairs: array::from_fn(|j| Pair {
            number: numbers[j],
            answer: answers[j],
        }),
    }
}

// A list of views that is lent as numbers and arrays of 26.
pub fn views(
    leader: u8,
    decision: u8,
    view: u16,
    count: usize,
    numbers: &[u8; 26],
    answers: &[u8; 26],
    views: &[u16; 26],
) -> ViewList
    ensures { result ≡ lent_views leader decision view count numbers.now answers.now views.now }
{
    ViewList {
        leader,
        decision,
        view: View(view),
        count,
        ballots: array::from_fn(|j| Ballot {
            number: numbers[j],
            answer: answers[j],
            view: View(views[j]),
        }),
    }
}

// The mark that a number names: 1 PR, 2 LG, 3 DC, 4 RD, 5 IV, 6 LD; any other is not the one due.
#[tactic(auto, unfolding(crate::specs::Arrays::marked_by))]
pub fn marked_of(number: u64) -> Result<Mark, Refusal>
    ensures { result ≡ marked_by number }
{
    match number {
        1 => Ok(Mark::PR),
        2 => Ok(Mark::LG),
        3 => Ok(Mark::DC),
        4 => Ok(Mark::RD),
        5 => Ok(Mark::IV),
        6 => Ok(Mark::LD),
        _ => Err(Refusal::Mark),
    }
}

// The number of a refusal, or of what its caller holds for one; 0 where something is answered.
pub fn refusal_number<T, E: AsRefusal>(answer: &Result<T, E>) -> u8
    ensures { result ≡ number_by E.told_number answer.now }
{
    match answer {
        Ok(_) => 0,
        Err(why) => why.number_told(),
    }
}

// A writer's answer: 0 and the length, or the refusal's number and the length 0.
pub fn wrote(w: Result<usize, Refusal>, length: &mut usize) -> u8
    ensures { (result ≡ written_number w) × (length.new ≡ written_length w) }
{
    *length = w.unwrap_or(0);
    refusal_number(&w)
}

// ---- taken apart

// What has one of the six marks: a message, or the mark by itself.
pub trait Marked {
    ghost own_mark: { Self → Mark };

    fn mark(&self) -> Mark
        ensures { result ≡ own_mark self.now };
}

impl Marked for Mark {
    ghost own_mark = { λ k. k };

    fn mark(&self) -> Mark {
        *self
    }
}

impl Marked for Message {
    ghost own_mark = { mark_in };

    fn mark(&self) -> Mark {
        match self {
            Message::PR(_) => Mark::PR,
            Message::LG(_, _) => Mark::LG,
            Message::DC(_, _) => Mark::DC,
            Message::RD(_, _) => Mark::RD,
            Message::IV(_, _) => Mark::IV,
            Message::LD(_, _) => Mark::LD,
        }
    }
}

// The number of a refusal, or 0, of a message that was found or of its mark alone.
pub fn found_number<T, E: AsRefusal>(found: &Result<T, E>) -> u8
    ensures { result ≡ number_by E.told_number found.now }
{
    refusal_number(found)
}

// Which message was found, by a number; 0 where it was refused.
pub fn found_mark<T: Marked, E>(found: &Result<T, E>) -> u64
    ensures { result ≡ mark_number_by T.own_mark found.now }
{
    match found {
        Ok(x) => match x.mark() {
            Mark::PR => 1,
            Mark::LG => 2,
            Mark::DC => 3,
            Mark::RD => 4,
            Mark::IV => 5,
            Mark::LD => 6,
        },
        Err(_) => 0,
    }
}

// What may be put down of a message, part by part and in any combination: the mark that was found, or a refusal's number; the stamp of its own that an RD
// has, and its key; the transaction; the list.
#[derive(Clone, Copy)]
pub struct Parts {
    pub found: Result<Mark, u8>,
    pub stamp: Stamp,
    pub key: Key,
    pub tx: Transaction,
    pub list: VoteList,
}

// What a message carries; zeros where it carries no such thing, and where it was refused.
#[tactic(auto, unfolding(records::specs::Tx::held_tx, records::specs::Tx::no_tx))]
fn tx_in_reading(reading: &Result<Message, Refusal>) -> Transaction
    ensures { result ≡ tx_in_reading reading.now }
{
    match *reading {
        Ok(Message::PR(x)) => x,
        Ok(Message::LG(x, _) | Message::DC(x, _)) => x,
        Ok(Message::IV(x, _) | Message::LD(x, _)) => x,
        Ok(Message::RD(_, _)) | Err(_) => NO_TX,
    }
}

#[tactic(auto, unfolding(records::specs::Vl::held_list, records::specs::Vl::no_list))]
fn list_in_reading(reading: &Result<Message, Refusal>) -> VoteList
    ensures { result ≡ list_in_reading reading.now }
{
    match *reading {
        Ok(Message::LG(_, l) | Message::DC(_, l)) => l,
        _ => NO_LIST,
    }
}

fn key_in_reading(reading: &Result<Message, Refusal>) -> Key
    ensures { result ≡ key_in_reading reading.now }
{
    match *reading {
        Ok(Message::RD(key, _)) => key,
        _ => Key(0),
    }
}

fn own_stamp(reading: &Result<Message, Refusal>) -> Stamp
    ensures { result ≡ own_stamp reading.now }
{
    match *reading {
        Ok(Message::RD(_, own)) => own,
        _ => Stamp(0),
    }
}

fn mark_found(reading: &Result<Message, Refusal>) -> Result<Mark, u8>
    ensures { result ≡ mark_found reading.now }
{
    match reading {
        Ok(message) => Ok(message.mark()),
        Err(why) => Err(why.number_told()),
    }
}

// The parts of what was read.
pub fn parts_of(reading: &Result<Message, Refusal>) -> Parts
    ensures { result ≡ parts_of reading.now }
{
    Parts {
        found: mark_found(reading),
        stamp: own_stamp(reading),
        key: key_in_reading(reading),
        tx: tx_in_reading(reading),
        list: list_in_reading(reading),
    }
}

// An RD has a stamp of its own; the others have the transaction's.
fn found_stamp(parts: &Parts) -> Stamp
    ensures { result ≡ parts_stamp parts.now }
{
    match parts.found {
        Ok(Mark::RD) => parts.stamp,
        _ => parts.tx.stamp,
    }
}

// Mark, stamp, r, w, key, kind, decision, view, count.
fn put_head(parts: &Parts, head: &mut [u64; 9])
    ensures { head.new ≡ parts_row parts.now }
{
    *head = [
        found_mark(&parts.found),
        found_stamp(parts).0,
        parts.tx.r as u64,
        parts.tx.w as u64,
        parts.key.0 as u64,
        parts.list.kind as u64,
        parts.list.decision as u64,
        parts.list.view.0 as u64,
        parts.list.count as u64,
    ];
}

// Reads, writes, pairs and ballots each have a function of their own: a line for each field is shorter than a generic function that is told the fields.
fn put_reads(reads: &[Read; 8], keys: &mut [u16; 8], versions: &mut [u64; 8])
    ensures { (keys.new ≡ read_keys reads.now) × (versions.new ≡ read_versions reads.now) }
{
    *keys = array::from_fn(|j| reads[j].key.0);
    *versions = array::from_fn(|j| reads[j].version.0);
}

fn put_writes(writes: &[Write; 8], keys: &mut [u16; 8], values: &mut [u64; 8])
    ensures { (keys.new ≡ write_keys writes.now) × (values.new ≡ write_values writes.now) }
{
    *keys = array::from_fn(|j| writes[j].key.0);
    *values = array::from_fn(|j| writes[j].value);
}

fn put_pairs(pairs: &[Pair; 26], numbers: &mut [u8; 26], answers: &mut [u8; 26])
    ensures { (numbers.new ≡ pair_numbers pairs.now) × (answers.new ≡ pair_answers pairs.now) }
{
    *numbers = array::from_fn(|j| pairs[j].number);
    *answers = array::from_fn(|j| pairs[j].answer);
}

// A transaction, put down as the writers take it.
#[tactic(auto, unfolding(crate::specs::Arrays::tx_fields_of))]
pub fn put_tx(
    tx: Transaction,
    reads: &mut [u16; 8],
    versions: &mut [u64; 8],
    writes: &mut [u16; 8],
    values: &mut [u64; 8],
)
    ensures { tx_fields reads.new versions.new writes.new values.new ≡ tx_fields_of tx }
{
    put_reads(&tx.reads, reads, versions);
    put_writes(&tx.writes, writes, values);
}

// All parts put down, each as it stands, whatever stands beside it.
#[tactic(auto, unfolding(crate::specs::Arrays::parts_fields))]
pub fn put_fields(
    parts: &Parts,
    head: &mut [u64; 9],
    reads: &mut [u16; 8],
    versions: &mut [u64; 8],
    writes: &mut [u16; 8],
    values: &mut [u64; 8],
    numbers: &mut [u8; 26],
    answers: &mut [u8; 26],
)
    ensures { fields head.new reads.new versions.new writes.new values.new numbers.new answers.new ≡ parts_fields parts.now }
{
    put_head(parts, head);
    put_reads(&parts.tx.reads, reads, versions);
    put_writes(&parts.tx.writes, writes, values);
    put_pairs(&parts.list.pairs, numbers, answers);
}

fn put_ballots(
    ballots: &[Ballot; 26],
    numbers: &mut [u8; 26],
    answers: &mut [u8; 26],
    views: &mut [u16; 26],
)
    ensures { (numbers.new ≡ ballot_numbers ballots.now) × (answers.new ≡ ballot_answers ballots.now) × (views.new ≡ ballot_views ballots.now) }
{
    *numbers = array::from_fn(|j| ballots[j].number);
    *answers = array::from_fn(|j| ballots[j].answer);
    *views = array::from_fn(|j| ballots[j].view.0);
}

// A list of views, put down.
#[tactic(auto, unfolding(crate::specs::Arrays::view_fields_of))]
pub fn put_views(
    l: ViewList,
    head: &mut [u64; 4],
    numbers: &mut [u8; 26],
    answers: &mut [u8; 26],
    views: &mut [u16; 26],
)
    ensures { view_fields head.new numbers.new answers.new views.new ≡ view_fields_of l }
{
    *head = [
        l.leader as u64,
        l.decision as u64,
        l.view.0 as u64,
        l.count as u64,
    ];
    put_ballots(&l.ballots, numbers, answers, views);
}

// A list, put down.
#[tactic(auto, unfolding(crate::specs::Arrays::list_fields_of))]
pub fn put_list(l: VoteList, head: &mut [u64; 4], numbers: &mut [u8; 26], answers: &mut [u8; 26])
    ensures { list_fields head.new numbers.new answers.new ≡ list_fields_of l }
{
    *head = [
        l.kind as u64,
        l.decision as u64,
        l.view.0 as u64,
        l.count as u64,
    ];
    put_pairs(&l.pairs, numbers, answers);
}
