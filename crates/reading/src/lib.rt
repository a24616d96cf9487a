// Any bytes read as a record: cut in the paper's order, then the contents judged; the value, or the first refusal.
#![tactic(auto, unfolding(terms::proofs::Checks::chain))]

ghost use Rattle.std.specs.Prelude.{◌≡◌, ◌≤◌, length, drop, true};
ghost use Rattle.terms.specs.Checks.{or_else, passed};
ghost use Rattle.records.specs.declared.Mark.TheVariants.{RD};
ghost use Rattle.records.specs.Tx.{tx_of, held_tx, TxThere};
ghost use Rattle.records.specs.Vl.{held_list};
ghost use Rattle.records.specs.Views.{held_views};
ghost use Rattle.records.specs.Contents.{tx_wrong, rd_wrong};
ghost use Rattle.records.specs.Cutting.{mark_wrong, tx_cut, vl_cut, views_cut, behind_wrong, behind_mark, carrier, tx_part, list_part, rest_cut, message_cut, message_len, rd_len};
ghost use Rattle.records.specs.Messages.{read_tx, read_vl, read_views, list_behind, views_behind, rd_key, rd_stamp, message_of, contents_wrong, due_refusal, read_due, is_mark, mark_of, read_marked_as, read_message, handed_back};
ghost use Rattle.reading.specs.Judging.{list_cut, list_len, list_wrong_behind, early, tx_behind, has_tx, marked_in};

use records::{Mark, Message, Transaction, ViewList, ViewMark, VoteList};
use terms::{AsRefusal, Check, Group, Key, Refusal, Stamp};

const RD_LEN: usize = 12;

// The six marks, in the order in which a message is held against them.
const MARKS: [Mark; 6] = [Mark::PR, Mark::LG, Mark::DC, Mark::RD, Mark::IV, Mark::LD];

// ---- cutting

// 1 where the mark's two bytes are not there, 2 where they are others.
#[tactic(auto, using(terms::proofs::Checks::other_when), unfolding(terms::proofs::Checks::chain, records::specs::Cutting::mark_wrong))]
pub fn mark_wrong(s: &[u8], mark: &[u8; 2]) -> Check
    ensures { result ≡ mark_wrong mark.now s.now }
{
    terms::refuse_if(s.len() < 2, Refusal::Short)?;
    terms::refuse_if(s[0] != mark[0], Refusal::Mark)?;
    terms::refuse_if(s[1] != mark[1], Refusal::Mark)
}

// A TX at the front.
#[tactic(auto, unfolding(terms::proofs::Checks::chain, records::specs::Cutting::tx_cut))]
pub fn tx_cut(s: &[u8]) -> Check
    ensures { result ≡ tx_cut s.now }
{
    mark_wrong(s, b"TX")?;
    terms::refuse_if(s.len() < 4, Refusal::Short)?;
    contents::counts_wrong(records::wide(s[2]), records::wide(s[3]))?;
    terms::refuse_if(s.len() < records::tx_len(s), Refusal::Short)
}

// A VL at the front.
#[tactic(auto, unfolding(terms::proofs::Checks::chain, records::specs::Cutting::vl_cut))]
pub fn vl_cut(s: &[u8]) -> Check
    ensures { result ≡ vl_cut s.now }
{
    mark_wrong(s, b"VL")?;
    terms::refuse_if(s.len() < 5, Refusal::Short)?;
    contents::count_wrong(records::wide(s[4]))?;
    terms::refuse_if(s.len() < records::vl_len(s), Refusal::Short)
}

// A VS or an EL at the front.
#[tactic(auto, unfolding(terms::proofs::Checks::chain, records::specs::Cutting::views_cut))]
fn views_cut(k: ViewMark, s: &[u8]) -> Check
    ensures { result ≡ views_cut k s.now }
{
    let at = k.count_at();
    mark_wrong(s, &k.bytes())?;
    terms::refuse_if(s.len() < 1 + at, Refusal::Short)?;
    contents::count_wrong(records::wide(s[at]))?;
    terms::refuse_if(s.len() < records::views_len(k, s), Refusal::Short)
}

// 4 where bytes stand behind the first n.
#[tactic(auto, unfolding(terms::proofs::Checks::chain, records::specs::Cutting::behind_wrong))]
pub fn behind_wrong(s: &[u8], n: usize) -> Check
    ensures { result ≡ behind_wrong n s.now }
{
    terms::refuse_if(n < s.len(), Refusal::Trailing)
}

// What stands behind the first n bytes.
pub fn behind(s: &[u8], n: usize) -> &[u8]
    requires { n ≤ length s.now }
    ensures { result.now ≡ drop n s.now }
{
    &s[n..]
}

// What stands behind a TX, by the message's mark: nothing in a PR.
fn list_cut(mark: Mark, s: &[u8]) -> Check
    ensures { result ≡ list_cut mark s.now }
{
    match mark {
        Mark::PR | Mark::RD => Ok(()),
        Mark::LG | Mark::DC => vl_cut(s),
        Mark::IV => views_cut(ViewMark::VS, s),
        Mark::LD => views_cut(ViewMark::EL, s),
    }
}

// What follows the mark.
fn rest_cut(mark: Mark, m: &[u8]) -> Check
    requires { 2 ≤ length m.now }
    ensures { result ≡ rest_cut mark m.now }
{
    if mark == Mark::RD {
        return terms::refuse_if(m.len() < RD_LEN, Refusal::Short);
    }
    tx_cut(behind(m, 2))?;
    list_cut(mark, list_part_of(m))
}

// A message at the front, where one with this mark is due.
#[tactic(auto, using(crate::proofs::Cuts::mark_long), unfolding(terms::proofs::Checks::chain, records::specs::Cutting::message_cut))]
pub fn message_cut(mark: Mark, m: &[u8]) -> Check
    ensures { result ≡ message_cut mark m.now }
{
    mark_wrong(m, &mark.bytes())?;
    rest_cut(mark, m)
}

// ---- the parts of a message that is cut

// The TX part, as it stands.
pub fn tx_part_of(m: &[u8]) -> &[u8]
    requires { (2 ≤ length m.now) × (tx_cut (behind_mark m.now) ≡ passed) }
    ensures { (result.now ≡ tx_part m.now) × TxThere result.now }
{
    let s = behind(m, 2);
    let n = records::tx_len(s);
    &s[..n]
}

// What stands behind the TX part.
pub fn list_part_of(m: &[u8]) -> &[u8]
    requires { (2 ≤ length m.now) × (tx_cut (behind_mark m.now) ≡ passed) }
    ensures { result.now ≡ list_part m.now }
{
    let s = behind(m, 2);
    behind(s, records::tx_len(s))
}

// The list behind the TX part.
#[tactic(auto, using(crate::proofs::Cuts::vl_there), unfolding(terms::proofs::Checks::chain, records::specs::Messages::list_behind))]
pub fn list_behind(m: &[u8]) -> VoteList
    requires { (2 ≤ length m.now) × (tx_cut (behind_mark m.now) ≡ passed) × (vl_cut (list_part m.now) ≡ passed) }
    ensures { (result ≡ held_list (list_behind m.now)) × (result.count ≤ 26) }
{
    records::list_of(list_part_of(m))
}

// The views, or the election answers, behind the TX part.
#[tactic(auto, using(crate::proofs::Cuts::views_there), unfolding(terms::proofs::Checks::chain, records::specs::Messages::views_behind))]
pub fn views_behind(k: ViewMark, m: &[u8]) -> ViewList
    requires { (2 ≤ length m.now) × (tx_cut (behind_mark m.now) ≡ passed) × (views_cut k (list_part m.now) ≡ passed) }
    ensures { (result ≡ held_views (views_behind k m.now)) × (result.count ≤ 26) }
{
    records::views_of(k, list_part_of(m))
}

// The key of an RD.
pub fn rd_key(m: &[u8]) -> Key
    requires { rd_len ≤ length m.now }
    ensures { result.0 ≡ rd_key m.now }
{
    Key(records::u16_at(m, 2))
}

// Its stamp.
pub fn rd_stamp(m: &[u8]) -> Stamp
    requires { rd_len ≤ length m.now }
    ensures { result.0 ≡ rd_stamp m.now }
{
    Stamp(records::u64_at(m, 4))
}

// The length of what stands behind a TX, by the message's mark.
#[tactic(auto, using(crate::proofs::Cuts::vl_long, crate::proofs::Cuts::views_long), unfolding(terms::proofs::Checks::chain))]
fn list_len(mark: Mark, s: &[u8]) -> usize
    requires { list_cut mark s.now ≡ passed }
    ensures { result ≡ list_len mark s.now }
{
    match mark {
        Mark::PR | Mark::RD => 0,
        Mark::LG | Mark::DC => records::vl_len(s),
        Mark::IV => records::views_len(ViewMark::VS, s),
        Mark::LD => records::views_len(ViewMark::EL, s),
    }
}

// The length of the message at the front.
pub fn message_len(mark: Mark, m: &[u8]) -> usize
    requires { message_cut mark m.now ≡ passed }
    ensures { result ≡ message_len mark m.now }
{
    if mark == Mark::RD {
        return RD_LEN;
    }
    2 + records::tx_len(behind(m, 2)) + list_len(mark, list_part_of(m))
}

// ---- readers of one record

// A TX by itself.
#[tactic(auto, using(crate::proofs::Cuts::tx_long, crate::proofs::Cuts::tx_there, records::proofs::Held::tx_in_lem), unfolding(terms::proofs::Checks::chain, records::specs::Messages::read_tx, records::specs::Messages::tx_refusal))]
pub fn read_tx(s: &[u8]) -> Result<Transaction, Refusal>
    ensures { result ≡ read_tx s.now }
{
    tx_cut(s)?;
    behind_wrong(s, records::tx_len(s))?;
    let tx = records::transaction_of(s);
    contents::tx_wrong(tx)?;
    Ok(tx)
}

// A VL by itself, where its kind may be either.
#[tactic(auto, using(crate::proofs::Cuts::group_err, crate::proofs::Cuts::group_ok, crate::proofs::Cuts::vl_long, crate::proofs::Cuts::vl_there, crate::proofs::Answers::vl_told), unfolding(terms::proofs::Checks::chain, records::specs::Messages::read_vl, records::specs::Messages::vl_refusal))]
pub fn read_vl(f: u64, s: &[u8]) -> Result<VoteList, Refusal>
    ensures { result ≡ read_vl f s.now }
{
    let g = Group::of(f)?;
    vl_cut(s)?;
    behind_wrong(s, records::vl_len(s))?;
    let list = records::list_of(s);
    contents::list_wrong(g, list)?;
    Ok(list)
}

// A VS or an EL by itself.
#[tactic(auto, using(crate::proofs::Cuts::group_err, crate::proofs::Cuts::group_ok, crate::proofs::Cuts::views_long, crate::proofs::Cuts::views_there, crate::proofs::Answers::views_of_told), unfolding(terms::proofs::Checks::chain, records::specs::Messages::read_views, records::specs::Messages::views_refusal))]
pub fn read_views(k: ViewMark, f: u64, s: &[u8]) -> Result<ViewList, Refusal>
    ensures { result ≡ read_views k f s.now }
{
    let g = Group::of(f)?;
    views_cut(k, s)?;
    behind_wrong(s, records::views_len(k, s))?;
    let views = records::views_of(k, s);
    contents::views_wrong(k, g, views)?;
    Ok(views)
}

// ---- readers of a message

// A refusal as the answer of a reader of messages, whatever the caller holds as one.
pub fn refused<E>(why: E) -> Result<Message, E>
    ensures { result ≡ Err why }
{
    Err(why)
}

// What is refused of a message of a group before its contents: the cutting, then 4.
#[tactic(auto, unfolding(terms::proofs::Checks::chain, crate::specs::Judging::early))]
fn early_wrong(mark: Mark, m: &[u8]) -> Check
    ensures { result ≡ early mark m.now }
{
    message_cut(mark, m)?;
    behind_wrong(m, message_len(mark, m))
}

// The transaction of a message that is cut, or its refusal.
#[tactic(auto, using(records::proofs::Held::tx_in_lem), unfolding(terms::proofs::Checks::chain))]
fn tx_behind(m: &[u8]) -> Result<Transaction, Refusal>
    requires { (2 ≤ length m.now) × (tx_cut (behind_mark m.now) ≡ passed) }
    ensures { result ≡ tx_behind m.now }
{
    let tx = records::transaction_of(tx_part_of(m));
    contents::tx_wrong(tx)?;
    Ok(tx)
}

// Any message but an RD, where it is cut: what stands behind the transaction is judged only when that was read.
#[tactic(auto, using(crate::proofs::Answers::list_told, crate::proofs::Answers::views_told), unfolding(terms::proofs::Checks::chain, records::specs::Messages::contents_wrong, records::specs::Messages::message_of))]
fn read_bodied(mark: Mark, g: Group, m: &[u8]) -> Result<Message, Refusal>
    requires { (has_tx mark ≡ true) × (2 ≤ length m.now) × (tx_cut (behind_mark m.now) ≡ passed) × (list_cut mark (list_part m.now) ≡ passed) }
    ensures { result ≡ or_else (contents_wrong mark g.f m.now) (Ok (message_of mark m.now)) }
{
    let reading = tx_behind(m);
    let Ok(tx) = reading else {
        return refused(reading.unwrap_err());
    };
    match mark {
        Mark::LG => {
            let list = list_behind(m);
            contents::log_list_wrong(g, list)?;
            Ok(Message::LG(tx, list))
        }
        Mark::DC => {
            let list = list_behind(m);
            contents::list_wrong(g, list)?;
            Ok(Message::DC(tx, list))
        }
        Mark::IV => {
            let views = views_behind(ViewMark::VS, m);
            contents::views_wrong(ViewMark::VS, g, views)?;
            Ok(Message::IV(tx, views))
        }
        Mark::LD => {
            let views = views_behind(ViewMark::EL, m);
            contents::views_wrong(ViewMark::EL, g, views)?;
            Ok(Message::LD(tx, views))
        }
        _ => Ok(Message::PR(tx)),
    }
}

// An RD that is cut.
#[tactic(auto, unfolding(terms::proofs::Checks::chain, records::specs::Messages::contents_wrong, records::specs::Messages::message_of))]
fn read_rd(m: &[u8]) -> Result<Message, Refusal>
    requires { rd_len ≤ length m.now }
    ensures { result ≡ or_else (rd_wrong (rd_key m.now) (rd_stamp m.now)) (Ok (message_of RD m.now)) }
{
    let key = rd_key(m);
    let stamp = rd_stamp(m);
    contents::rd_wrong(key, stamp)?;
    Ok(Message::RD(key, stamp))
}

// A message where one with this mark is due.
pub fn read_due(mark: Mark, f: u64, m: &[u8]) -> Result<Message, Refusal>
    ensures { result ≡ read_due mark f m.now }
{
    let g = Group::of(f)?;
    early_wrong(mark, m)?;
    if mark == Mark::RD {
        return read_rd(m);
    }
    read_bodied(mark, g, m)
}

// ---- the refusal alone: a box needs no more of a message before its step, which takes what it needs from the bytes

// What is wrong in the transaction of a message that is cut.
#[tactic(auto, using(records::proofs::Held::tx_in_lem), unfolding(terms::proofs::Checks::chain))]
fn tx_wrong_in(m: &[u8]) -> Check
    requires { (2 ≤ length m.now) × (tx_cut (behind_mark m.now) ≡ passed) }
    ensures { result ≡ tx_wrong (tx_of (tx_part m.now)) }
{
    contents::tx_wrong(records::transaction_of(tx_part_of(m)))
}

// What is wrong behind it: in an LG a list of logs is 8 too; an IV and an LD have views; a PR has nothing there.
#[tactic(auto, using(crate::proofs::Answers::list_told, crate::proofs::Answers::views_told), unfolding(terms::proofs::Checks::chain))]
fn list_wrong_behind(mark: Mark, g: Group, m: &[u8]) -> Check
    requires { (2 ≤ length m.now) × (tx_cut (behind_mark m.now) ≡ passed) × (list_cut mark (list_part m.now) ≡ passed) }
    ensures { result ≡ list_wrong_behind mark g.f m.now }
{
    match mark {
        Mark::PR | Mark::RD => Ok(()),
        Mark::LG => contents::log_list_wrong(g, list_behind(m)),
        Mark::DC => contents::list_wrong(g, list_behind(m)),
        Mark::IV => contents::views_wrong(ViewMark::VS, g, views_behind(ViewMark::VS, m)),
        Mark::LD => contents::views_wrong(ViewMark::EL, g, views_behind(ViewMark::EL, m)),
    }
}

// What is wrong in the contents of a message that is cut.
fn contents_wrong(mark: Mark, g: Group, m: &[u8]) -> Check
    requires { message_cut mark m.now ≡ passed }
    ensures { result ≡ contents_wrong mark g.f m.now }
{
    if mark == Mark::RD {
        return contents::rd_wrong(rd_key(m), rd_stamp(m));
    }
    tx_wrong_in(m)?;
    list_wrong_behind(mark, g, m)
}

// What is refused of a message where one with this mark is due.
pub fn due_wrong(mark: Mark, f: u64, m: &[u8]) -> Check
    ensures { result ≡ due_refusal mark f m.now }
{
    let g = Group::of(f)?;
    early_wrong(mark, m)?;
    contents_wrong(mark, g, m)
}

// ---- any message

#[tactic(auto, unfolding(terms::proofs::Checks::chain, records::specs::Messages::is_mark))]
pub fn is_mark(m: &[u8], mark: &[u8; 2]) -> bool
    requires { 2 ≤ length m.now }
    ensures { result ≡ is_mark mark.now m.now }
{
    m[0] == mark[0] && m[1] == mark[1]
}

// The first of these marks that the message has; 2 where it has none of them.
fn marked_in(marks: &[Mark], m: &[u8]) -> Result<Mark, Refusal>
    requires { 2 ≤ length m.now }
    ensures { result ≡ marked_in marks.now m.now }
{
    for mark in marks {
        if is_mark(m, &mark.bytes()) {
            return Ok(*mark);
        }
    }
    Err(Refusal::Mark)
}

// The mark that a message has: 1 where there is none, 2 where it is not one of the six.
#[tactic(auto, unfolding(terms::proofs::Checks::chain, records::specs::Messages::mark_of))]
pub fn mark_of(m: &[u8]) -> Result<Mark, Refusal>
    ensures { result ≡ mark_of m.now }
{
    terms::refuse_if(m.len() < 2, Refusal::Short)?;
    marked_in(&MARKS, m)
}

// A message by the mark that it was found to have; what stands in the mark's place is handed back as it is, a number too.
#[tactic(auto, unfolding(terms::proofs::Checks::chain, records::specs::Messages::read_marked_as))]
pub fn read_marked<E: AsRefusal>(marked: Result<Mark, E>, f: u64, m: &[u8]) -> Result<Message, E>
    ensures { result ≡ read_marked_as E.told_as marked f m.now }
{
    match read_due(marked?, f, m) {
        Ok(message) => Ok(message),
        Err(refusal) => Err(E::of_refusal(refusal)),
    }
}

// Any of the six messages.
#[tactic(auto, using(crate::proofs::Due::marked_itself), unfolding(terms::proofs::Checks::chain, records::specs::Messages::read_message))]
pub fn read(f: u64, m: &[u8]) -> Result<Message, Refusal>
    ensures { result ≡ read_message f m.now }
{
    terms::group_wrong(f)?;
    read_marked(mark_of(m), f, m)
}

// The transaction's bytes inside the message; none where it is refused or an RD.
pub fn tx_part(f: u64, m: &[u8]) -> &[u8]
    ensures { result.now ≡ handed_back f m.now }
{
    let Ok(message) = read(f, m) else {
        return &m[..0];
    };
    match message {
        Message::RD(_, _) => &m[..0],
        _ => tx_part_of(m),
    }
}
