// The bench's work: from the bytes of its records to the lines of their answers, in a lent buffer.
#![tactic(auto)]

ghost use Rattle.std.specs.Prelude.{◌≡◌, ◌≤◌, length, get_or};
ghost use Rattle.terms.specs.Checks.{if_less, passed, short};
ghost use Rattle.records.specs.Writing.{wrote_by, buffer_by};
ghost use Rattle.replay.specs.Bench.{gp_len, told_by, gp_refusal, record_cut, record_len, ck_len, clock_next, stops_at, answer_stops, stops, rest_text, run_text, bench_text, room_wrong, room, longest, wrote_in};
ghost use Rattle.lines.specs.Lines.{Puts};
ghost use Rattle.lines.specs.declared.Said.TheVariants.{Answered};
ghost use Rattle.rules.specs.declared.Answer.TheVariants.{Refused};
ghost use Rattle.terms.specs.Refusals.{number_of};
ghost use Rattle.replay.specs.Turn.{Fronted, said_to, kept_next};
ghost use Rattle.rules.specs.Table.{empty};
ghost use Rattle.table.specs.Table.{table_wrong};
ghost use Rattle.engine.specs.Outcome.{kept, box_in};

use lines::Said;
use rules::{Answer, Told};
use terms::{Check, Refusal, Stamp};

// Room for the lines of every input: a line is at most 112 bytes, and all records but the last have at least ten.
pub const ROOM: usize = 786_544;

// A table with room for every capacity.
const TABLE: usize = table::HEAD + 255 * table::ROW;

// What a GP tells a box, at a clock.
#[tactic(auto, unfolding(crate::specs::Bench::told_by))]
fn told_of(gp: &[u8], clock: u64) -> Told
    requires { gp_len ≤ length gp.now }
    ensures { result ≡ told_by gp.now clock }
{
    Told {
        f: u64::from(gp[2]),
        capacity: u64::from(gp[3]),
        clock,
        delta: records::u64_at(gp, 4),
    }
}

// A GP at the front: 2 or 1, then 14.
#[tactic(auto, unfolding(terms::proofs::Checks::chain, crate::specs::Bench::gp_refusal))]
fn gp_wrong(s: &[u8]) -> Check
    ensures { result ≡ gp_refusal s.now }
{
    reading::mark_wrong(s, b"GP")?;
    terms::refuse_if(s.len() < 12, Refusal::Short)?;
    engine::told_wrong(told_of(s, 0))
}

// A CK or an LM at the front, by its mark.
#[tactic(auto, unfolding(terms::proofs::Checks::chain))]
fn ck_cut(s: &[u8]) -> Check
    ensures { result ≡ if_less (length s.now) ck_len short }
{
    terms::refuse_if(s.len() < 10, Refusal::Short)
}

// A CK, an LM or a message at the front.
#[tactic(auto, unfolding(terms::proofs::Checks::chain, crate::specs::Bench::record_cut, crate::specs::Bench::marked_cut))]
fn record_cut(s: &[u8]) -> Check
    ensures { result ≡ record_cut s.now }
{
    terms::refuse_if(s.len() < 2, Refusal::Short)?;
    if reading::is_mark(s, b"CK") || reading::is_mark(s, b"LM") {
        return ck_cut(s);
    }
    reading::message_cut(reading::mark_of(s)?, s)
}

// The length of a record that is cut.
#[tactic(auto, using(crate::proofs::Cuts::cut_long, crate::proofs::Cuts::message_passes))]
fn record_len(s: &[u8]) -> usize
    requires { record_cut s.now ≡ passed }
    ensures { (result ≡ record_len s.now) × (10 ≤ result) × (result ≤ length s.now) }
{
    if reading::is_mark(s, b"CK") || reading::is_mark(s, b"LM") {
        return 10;
    }
    match reading::mark_of(s) {
        Ok(mark) => reading::message_len(mark, s),
        Err(_) => 0,
    }
}

// A CK is taken; an LM raises the low mark, a message reaches the box.
fn turn(table: &mut [u8], marks: &mut [u64; 512], told: Told, m: &[u8]) -> Said
    requires { 10 ≤ length m.now }
    ensures { (result ≡ said_to told (kept table.old marks.old) m.now) × (table.new ≡ (kept_next told (kept table.old marks.old) m.now).table) × (marks.new ≡ (kept_next told (kept table.old marks.old) m.now).marks) }
{
    if reading::is_mark(m, b"CK") {
        Said::Taken
    } else if reading::is_mark(m, b"LM") {
        Said::Answered(engine::raise_low(table, told, Stamp(records::u64_at(m, 2))))
    } else {
        Said::Answered(engine::receive(table, marks, told, m))
    }
}

// The clock behind a record.
#[tactic(auto, unfolding(crate::specs::Bench::clock_next))]
fn clock_next(clock: u64, m: &[u8]) -> u64
    requires { 10 ≤ length m.now }
    ensures { result ≡ clock_next clock m.now }
{
    if reading::is_mark(m, b"CK") {
        records::u64_at(m, 2)
    } else {
        clock
    }
}

// 1, 2, 3 and 14.
fn stops_at(why: Refusal) -> bool
    ensures { result ≡ stops_at (number_of why) }
{
    matches!(
        why,
        Refusal::Short | Refusal::Mark | Refusal::Count | Refusal::Group
    )
}

// Whether the bench stops behind this answer.
fn answer_stops(a: Answer) -> bool
    ensures { result ≡ answer_stops a }
{
    matches!(a, Answer::Refused(why) if stops_at(why))
}

// Whether it stops behind this record.
fn stops(said: Said) -> bool
    ensures { result ≡ stops said }
{
    matches!(said, Said::Answered(a) if answer_stops(a))
}

fn refused(why: Refusal) -> Said
    ensures { result ≡ Answered (Refused why) }
{
    Said::Answered(Answer::Refused(why))
}

// A record that is cut, without what follows it.
fn front_of(s: &[u8]) -> &[u8]
    requires { record_cut s.now ≡ passed }
    ensures { Fronted s.now result.now }
{
    &s[..record_len(s)]
}

// The lines of the records behind a GP that is taken, on an empty box. A `while`, since only a record that is cut tells where the next one begins.
fn rest(
    table: &mut [u8],
    marks: &mut [u64; 512],
    input: &[u8],
    out: &mut [u8],
    first: usize,
) -> usize
    requires { (gp_refusal input.now ≡ passed) × (length input.now ≤ longest) × (room ≤ length out.old) × (first ≤ 112) × (table_wrong (get_or input.now 3 0) table.old ≡ passed) × (box_in (kept table.old marks.old) ≡ empty) }
    ensures { Puts out.old first (rest_text input.now) 786400 out.new result }
{
    let mut clock = 0;
    let mut number = 1;
    let mut at = 12;
    let mut n = first;
    while at < input.len() {
        let s = reading::behind(input, at);
        if let Err(why) = record_cut(s) {
            return lines::put_line(out, n, number, s, refused(why));
        }
        let m = front_of(s);
        let said = turn(table, marks, told_of(input, clock), m);
        n = lines::put_line(out, n, number, s, said);
        if stops(said) {
            return n;
        }
        clock = clock_next(clock, m);
        at += m.len();
        number += 1;
    }
    n
}

// The lines of an input whose GP is taken.
fn run(input: &[u8], out: &mut [u8]) -> usize
    requires { (gp_refusal input.now ≡ passed) × (length input.now ≤ longest) × (room ≤ length out.old) }
    ensures { Puts out.old 0 (run_text input.now) room out.new result }
{
    let mut table = [0u8; TABLE];
    let mut marks = [0u64; 512];
    let first = lines::put_line(out, 0, 0, input, Said::Taken);
    rest(&mut table, &mut marks, input, out, first)
}

// 17 where not every line would fit.
#[tactic(auto, unfolding(terms::proofs::Checks::chain, crate::specs::Bench::room_wrong))]
fn room_wrong(out: &[u8]) -> Check
    ensures { result ≡ room_wrong out.now }
{
    terms::refuse_if(out.len() < ROOM, Refusal::Buffer)
}

// The bench: what standard input holds, to what is printed for it.
#[tactic(auto, using(crate::proofs::Printed::wide))]
pub fn replay(input: &[u8], out: &mut [u8]) -> Result<usize, Refusal>
    ensures { (result ≡ wrote_by (room_wrong out.old) (bench_text input.now)) × (out.new ≡ buffer_by (room_wrong out.old) (bench_text input.now) out.old) × (wrote_in result ≤ room) }
{
    room_wrong(out)?;
    if 65536 < input.len() {
        return Ok(lines::put_text(out, 0, b"too long\n"));
    }
    if input.len() == 0 {
        return Ok(0);
    }
    if let Err(why) = gp_wrong(input) {
        return Ok(lines::put_line(out, 0, 0, input, refused(why)));
    }
    Ok(run(input, out))
}
