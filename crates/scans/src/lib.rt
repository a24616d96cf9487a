// The scans of a box's table that the rules need: the five tests of a PR, the waiting rule, the first vote, and what RD finds.
#![tactic(auto)]

ghost use Rattle.std.specs.Prelude.{◌≡◌, ◌<◌, ◌||◌, Bool, ℕ, ◌+◌, ◌*◌, ◌≤◌, false, ltb, length, get_or, []};
ghost use Rattle.std.proofs.Math.Option.{Option, some, none};
ghost use Rattle.terms.specs.Choice.{any};
ghost use Rattle.records.specs.declared.Read.{Read};
ghost use Rattle.records.specs.Tx.{TxThere, writes_from};
ghost use Rattle.rules.specs.Bodies.{reads_of, writes_of};
ghost use Rattle.rules.specs.Table.{Entry, limit, no_version};
ghost use Rattle.rules.specs.Tests.{test1, test3, test4, test5, undercut, fold_above, status_of, status, waiting_rule, first_vote};
ghost use Rattle.rules.specs.Calls.{value_at, rd_answer};
ghost use Rattle.rules.specs.Visits.{fails3, fails4, through, unless, version_up, visits2, visits3, visits4, waiting_visits, new_last, test_visits};
ghost use Rattle.table.specs.Table.{WfRow, Wf, row_tx, row_at, head_len, low_of, folds_of, box_from, entry_of, entries};
ghost use Rattle.scans.specs.declared.Standing.{Standing};
ghost use Rattle.scans.specs.declared.Standing.TheVariants.{Fine, Bad};
ghost use Rattle.scans.specs.Scans.{over, entries_only, marks_only, worse, worst, vote_by, low_standing, looked, named_by, named, below, older, hit3, hit4, standing_of};
ghost use Rattle.scans.specs.Scans.{above, newer_by, next_bests, bests_of, writers_or, newest_writers};
ghost use Rattle.scans.specs.Visits.{up_to, fails_up_to, read_below, later_vote, later_visits};
ghost use Rattle.scans.specs.Keys.{in_keys, with_key, lacks, keys_at, keys_read, keys_written};

use records::Read;
use rules::{Answer, Reason, Told, Version, Vote};
use terms::{Key, Stamp};

// What a version read is to test 2 and to the waiting rule, from the best to the worst.
#[derive(Clone, Copy, PartialEq, Eq, PartialOrd, Ord)]
enum Standing {
    Fine,
    Pending,
    Bad,
}

impl Standing {
    // The worse of two.
    fn or(self, other: Standing) -> Standing
        ensures { result ≡ worse self other }
    {
        self.max(other)
    }

    // The waiting rule by the worst of all versions read.
    fn vote(self) -> Vote
        ensures { result ≡ vote_by self }
    {
        match self {
            Standing::Fine => Vote::Commit,
            Standing::Pending => Vote::Waiting,
            Standing::Bad => Vote::Abort(Reason::Dependency),
        }
    }
}

// Where a transaction's reads begin.
const READS_AT: usize = 12;

// A version looked up: what it is, and how many entries were gone through.
#[derive(Clone, Copy)]
struct Seen {
    what: Standing,
    visited: usize,
}

// A vote, and how many entries were visited for it.
#[derive(Clone, Copy)]
pub struct Cast {
    pub vote: Vote,
    pub visited: usize,
}

// What the newest committed writer found wrote, and the newest live undecided one; a writer may have stamp 0, as in a lent row, and none is no writer.
#[derive(Clone, Copy)]
struct Bests {
    committed: Option<Version>,
    undecided: Option<Version>,
}

// What the newest committed writer wrote, and the newest live undecided one.
#[derive(Clone, Copy)]
pub struct Writers {
    pub committed: Version,
    pub undecided: Version,
}

// A transaction's bytes, all of them there.
#[derive(Clone, Copy)]
struct Body<'a> {
    bytes: &'a [u8],
    ghost there: { TxThere bytes.now },
}

impl<'a> Body<'a> {
    // Where the writes begin, behind the reads.
    fn writes_from(self) -> usize
        ensures { result ≡ writes_from self.entry.bytes.now }
    {
        READS_AT + table::read_count(self.bytes) * 10
    }

    // Whether a read lies below what this transaction writes there.
    fn below(self, p: Read) -> bool
        ensures { result ≡ below self.entry.bytes.now p }
    {
        p.version.0 < table::stamp_of(self.bytes).0 && table::writes_key(self.bytes, p.key)
    }

    // Whether some read passes.
    fn any_read<F: Fn(Read) -> bool>(self, passes: F) -> bool
        requires { F.IsAlwaysCallable passes }
        ensures { (P : Read → Bool) → ((r : Read) (x : Bool) → F.post passes r x → x ≡ P r) → result ≡ any P (reads_of self.entry.bytes.now) }
    {
        for j in 0..table::read_count(self.bytes) {
            if passes(table::read_at(self.bytes, j)) {
                return true;
            }
        }
        false
    }

    // Whether some read lies below what `b` writes there.
    fn any_below(self, b: Body) -> bool
        ensures { result ≡ any (below b.entry.bytes.now) (reads_of self.entry.bytes.now) }
    {
        self.any_read(|p| b.below(p))
    }

    // What tests 3 and 4 look for: the stamps first, then the keys.
    fn undercut(self, b: Body) -> bool
        ensures { result ≡ undercut self.entry.bytes.now b.entry.bytes.now }
    {
        table::stamp_of(b.bytes).0 < table::stamp_of(self.bytes).0 && self.any_below(b)
    }

    // The lowest version read, or the stamp: no read is older. A bound is all that test 3 needs: a lower one costs time, not an answer.
    fn lowest_read(self) -> Stamp
        ensures { any (older result.0) (reads_of self.entry.bytes.now) ≡ false }
    {
        let mut low = table::stamp_of(self.bytes);
        for j in 0..table::read_count(self.bytes) {
            low = low.min(table::read_at(self.bytes, j).version);
        }
        low
    }

    // Whether a read of the key lies below a stamp.
    fn read_below(self, k: Key, s: Stamp) -> bool
        ensures { result ≡ any (read_below k.0 s.0) (reads_of self.entry.bytes.now) }
    {
        self.any_read(|p| is_below(p, k, s))
    }

    // The value of the first write of a key, 0 where there is none.
    fn value_of(self, k: Key) -> u64
        ensures { result ≡ value_at k.0 (writes_of self.entry.bytes.now) }
    {
        for j in 0..table::write_count(self.bytes) {
            let w = table::write_at(self.bytes, j);
            if w.key.0 == k.0 {
                return w.value;
            }
        }
        0
    }
}

// A row of a table, whole.
#[derive(Clone, Copy)]
struct Row<'a> {
    bytes: &'a [u8],
    ghost whole: { WfRow bytes.now },
}

impl<'a> Row<'a> {
    // Its transaction.
    fn tx(self) -> Body<'a>
        ensures { result.bytes.now ≡ row_tx self.entry.bytes.now }
    {
        Body {
            bytes: table::tx_of(self.bytes),
        }
    }

    // A version held, to test 2 and to the waiting rule that follows it.
    fn named_by(self, k: Key) -> Standing
        ensures { result ≡ named_by k.0 (some (entry_of self.entry.bytes.now)) }
    {
        if table::live(self.bytes) && table::writes_key(self.tx().bytes, k) {
            if self.bytes[table::DECIDED_AT] == 1 {
                return Standing::Fine;
            }
            return Standing::Pending;
        }
        Standing::Bad
    }

    // The waiting rule of a held version: committed by a body that has the key, undecided, or bad.
    fn status_of(self, k: Key) -> Standing
        ensures { result ≡ standing_of (status_of k.0 (some (entry_of self.entry.bytes.now))) }
    {
        match self.bytes[table::DECIDED_AT] {
            1 => {
                if table::writes_key(self.tx().bytes, k) {
                    Standing::Fine
                } else {
                    Standing::Bad
                }
            }
            2 => Standing::Bad,
            _ => Standing::Pending,
        }
    }

    // Test 3 at one row: the stamps first, then the set of the keys read here, which settle most rows; what is left is compared.
    fn hit_3(self, b: Body, low: Stamp, read: &[u64; 8]) -> bool
        requires { (any (older low.0) (reads_of b.bytes.now) ≡ false) × (any (lacks read.now) (keys_read b.bytes.now) ≡ false) }
        ensures { result ≡ hit3 b.entry.bytes.now (entry_of self.entry.bytes.now) }
    {
        let a = self.tx();
        let s = table::stamp_of(a.bytes);
        low.0 < s.0
            && s.0 < table::stamp_of(b.bytes).0
            && any_in(read, a.bytes, a.writes_from(), table::write_count(a.bytes))
            && b.undercut(a)
            && table::live(self.bytes)
    }

    // Test 4 at one row: the stamps first, then the set of the keys written here, which settle most rows; what is left is compared. One expression for both
    // tests would be no plainer: test 3 has a bound more, and in test 4 row and message change places.
    fn hit_4(self, b: Body, written: &[u64; 8]) -> bool
        requires { any (lacks written.now) (keys_written b.bytes.now) ≡ false }
        ensures { result ≡ hit4 b.entry.bytes.now (entry_of self.entry.bytes.now) }
    {
        let a = self.tx();
        table::stamp_of(b.bytes).0 < table::stamp_of(a.bytes).0
            && any_in(written, a.bytes, READS_AT, table::read_count(a.bytes))
            && a.undercut(b)
            && table::live(self.bytes)
    }

    // Test 3 at one key and one row: the stamps first, then the key.
    fn fails_3(self, b: Body, p: Read) -> bool
        ensures { result ≡ fails3 b.entry.bytes.now p (entry_of self.entry.bytes.now) }
    {
        let a = self.tx();
        table::stamp_of(a.bytes).0 < table::stamp_of(b.bytes).0
            && a.below(p)
            && table::live(self.bytes)
    }

    // Test 4 at one key and one row: the stamps first, then the key.
    fn fails_4(self, b: Body, k: Key) -> bool
        ensures { result ≡ fails4 b.entry.bytes.now k.0 (entry_of self.entry.bytes.now) }
    {
        let s = table::stamp_of(b.bytes);
        let a = self.tx();
        s.0 < table::stamp_of(a.bytes).0 && a.read_below(k, s) && table::live(self.bytes)
    }

    // The newer of a row's entry and of what was newest behind it: the stamps first, then the key.
    fn newer(self, k: Key, s: Stamp, x: Option<Version>) -> Option<Version>
        ensures { result ≡ newer_by k.0 s.0 (entry_of self.entry.bytes.now) x }
    {
        let b = self.tx();
        let stamp = table::stamp_of(b.bytes);
        if s.0 <= stamp.0 || above(x, stamp) || !table::writes_key(b.bytes, k) {
            return x;
        }
        Some(Version {
            stamp,
            value: b.value_of(k),
        })
    }

    // One row more, in front.
    fn next(self, k: Key, s: Stamp, x: Bests) -> Bests
        ensures { result ≡ next_bests k.0 s.0 (entry_of self.entry.bytes.now) x }
    {
        let committed = x.committed;
        let undecided = x.undecided;
        if self.bytes[table::DECIDED_AT] == 1 {
            return Bests {
                committed: self.newer(k, s, committed),
                undecided,
            };
        }
        if table::live(self.bytes) {
            return Bests {
                committed,
                undecided: self.newer(k, s, undecided),
            };
        }
        x
    }
}

// The rows of a table, all of them whole.
#[derive(Clone, Copy)]
struct Rows<'a> {
    bytes: &'a [u8],
    n: usize,
    ghost whole: { Wf bytes.now n },
}

impl<'a> Rows<'a> {
    // One of them.
    fn row(self, i: usize) -> Row<'a>
        requires { i < self.n }
        ensures { result.bytes.now ≡ row_at self.entry.bytes.now i }
    {
        Row {
            bytes: table::row(self.bytes, i),
        }
    }

    // The rows gone through up to the first that passes, or none where none does.
    fn up_to<F: Fn(Row) -> bool>(self, passes: F) -> Option<usize>
        requires { F.IsAlwaysCallable passes }
        ensures { (P : Entry → Bool) → ((e : _) (x : Bool) → F.post passes e x → x ≡ P (entry_of e.bytes.now)) → result ≡ up_to P (entries self.entry.bytes.now self.entry.n) }
    {
        for i in 0..self.n {
            if passes(self.row(i)) {
                return Some(i + 1);
            }
        }
        None
    }

    // Test 3 of the entries: a live one writes a key read here, its stamp above the version read and below this stamp.
    fn entries_3(self, b: Body) -> bool
        ensures { result ≡ any (hit3 b.entry.bytes.now) (entries self.entry.bytes.now self.entry.n) }
    {
        let low = b.lowest_read();
        let mut read = [0u64; 8];
        add_keys(&mut read, b.bytes, READS_AT, table::read_count(b.bytes));
        self.up_to(|e| e.hit_3(b, low, &read)).is_some()
    }

    // The rows that test 4 visits key by key. Only where it fails: else it is every row for every key. Its loop is test 3's; over a closure of an index both
    // would be no plainer, since what each key adds has to stay below a sum that the closure's clauses would have to name.
    fn visits_4(self, b: Body) -> usize
        ensures { result ≡ visits4 (entries_only (entries self.entry.bytes.now self.entry.n)) b.entry.bytes.now }
    {
        let mut visited = 0;
        for j in 0..table::write_count(b.bytes) {
            let k = table::write_at(b.bytes, j).key;
            match self.up_to(|e| e.fails_4(b, k)) {
                Some(last) => return visited + last,
                None => visited += self.n,
            }
        }
        visited
    }

    // The committed writer of a key with the highest stamp strictly below, and likewise the live undecided one.
    fn best_writers(self, k: Key, s: Stamp) -> Bests
        ensures { result ≡ bests_of k.0 s.0 (entries self.entry.bytes.now self.entry.n) }
    {
        let mut x = Bests {
            committed: None,
            undecided: None,
        };
        for i in (0..self.n).rev() {
            x = self.row(i).next(k, s, x);
        }
        x
    }

    // What they wrote, with another version where there is no committed one.
    fn newest_or(self, k: Key, s: Stamp, other: Version) -> Writers
        ensures { result ≡ writers_or other k.0 s.0 (entries self.entry.bytes.now self.entry.n) }
    {
        let x = self.best_writers(k, s);
        Writers {
            committed: x.committed.unwrap_or(other),
            undecided: x.undecided.unwrap_or(no_version()),
        }
    }
}

// A table's head, long enough for its count, its low mark and its folded versions.
#[derive(Clone, Copy)]
struct Head<'a> {
    bytes: &'a [u8],
    ghost long: { head_len ≤ length bytes.now },
}

impl<'a> Head<'a> {
    // A version at or below the low mark, for test 2 and the waiting rule: fine if it is 0 or its key's folded one, else bad. It is never looked up.
    fn low_version(self, p: Read) -> Standing
        ensures { result ≡ low_standing (folds_of self.entry.bytes.now) p }
    {
        if p.version.0 == 0 || table::fold_of(self.bytes, p.key).stamp.0 == p.version.0 {
            Standing::Fine
        } else {
            Standing::Bad
        }
    }

    // Whether a read lies below the folded version of its key.
    fn fold_above(self, p: Read) -> bool
        ensures { result ≡ fold_above (over self.entry.bytes.now []) p }
    {
        let folded = table::fold_of(self.bytes, p.key);
        p.version.0 < folded.stamp.0
    }

    // Test 3 of the folded versions: a load or two for each read, asked before the rows.
    fn folds_above(self, b: Body) -> bool
        ensures { result ≡ any (fold_above (over self.entry.bytes.now [])) (reads_of b.entry.bytes.now) }
    {
        b.any_read(|p| self.fold_above(p))
    }
}

// A table as it is looked through: the head, its low mark read once, and the rows. Two lifetimes, since head and rows are lent apart.
#[derive(Clone, Copy)]
struct Held<'h, 'r> {
    head: Head<'h>,
    low: Stamp,
    rows: Rows<'r>,
    ghost marked: { low.0 ≡ low_of head.bytes.now },
}

impl<'h, 'r> Held<'h, 'r> {
    // A version read, as `held` says of the row that has it; one above the low mark that is not held is bad.
    fn looked_up<F: Fn(Row) -> Standing>(self, p: Read, held: F) -> Seen
        requires { F.IsAlwaysCallable held }
        ensures what { (by : Option Entry → Standing) → by none ≡ Bad → ((e : _) (x : Standing) → F.post held e x → x ≡ by (some (entry_of e.bytes.now))) → result.what ≡ looked by (over self.entry.head.bytes.now (entries self.entry.rows.bytes.now self.entry.rows.n)) p }
        ensures visited { result.visited ≡ version_up (low_of self.entry.head.bytes.now) (entries self.entry.rows.bytes.now self.entry.rows.n) p }
    {
        if p.version.0 <= self.low.0 {
            return Seen {
                what: self.head.low_version(p),
                visited: 0,
            };
        }
        let i = table::place(self.rows.bytes, self.rows.n, p.version);
        if i < self.rows.n {
            return Seen {
                what: held(self.rows.row(i)),
                visited: i + 1,
            };
        }
        Seen {
            what: Standing::Bad,
            visited: self.rows.n,
        }
    }

    // A version read, to test 2: one above the low mark that is not held fails it.
    fn named(self, p: Read) -> Seen
        ensures { (result.what ≡ named (over self.entry.head.bytes.now (entries self.entry.rows.bytes.now self.entry.rows.n)) p) × (result.visited ≡ version_up (low_of self.entry.head.bytes.now) (entries self.entry.rows.bytes.now self.entry.rows.n) p) }
    {
        self.looked_up(p, |e| e.named_by(p.key))
    }

    // The waiting rule of one version read; one above the low mark that is not held is bad.
    fn status(self, p: Read) -> Seen
        ensures { (result.what ≡ standing_of (status (over self.entry.head.bytes.now (entries self.entry.rows.bytes.now self.entry.rows.n)) p)) × (result.visited ≡ version_up (low_of self.entry.head.bytes.now) (entries self.entry.rows.bytes.now self.entry.rows.n) p) }
    {
        self.looked_up(p, |e| e.status_of(p.key))
    }

    // All versions read, each looked up once for test 2 and the waiting rule: the worst, up to the first that fails the test.
    fn versions(self, b: Body) -> Seen
        ensures { (result.what ≡ worst (named (over self.entry.head.bytes.now (entries self.entry.rows.bytes.now self.entry.rows.n))) Fine (reads_of b.entry.bytes.now)) × (result.visited ≡ visits2 (over self.entry.head.bytes.now (entries self.entry.rows.bytes.now self.entry.rows.n)) b.entry.bytes.now) }
    {
        let mut what = Standing::Fine;
        let mut visited = 0;
        for j in 0..table::read_count(b.bytes) {
            let one = self.named(table::read_at(b.bytes, j));
            visited += one.visited;
            if one.what == Standing::Bad {
                return Seen {
                    what: Standing::Bad,
                    visited,
                };
            }
            what = what.or(one.what);
        }
        Seen { what, visited }
    }

    // Test 3 at one key read here, the rows gone through where it fails: the folded version first, which visits no row, then the rows.
    fn key_3(self, b: Body, p: Read) -> Option<usize>
        ensures { result ≡ fails_up_to (fold_above (over self.entry.head.bytes.now []) p || any (fails3 b.entry.bytes.now p) (entries self.entry.rows.bytes.now self.entry.rows.n)) (unless (fold_above (over self.entry.head.bytes.now []) p) (through (fails3 b.entry.bytes.now p) (entries self.entry.rows.bytes.now self.entry.rows.n))) }
    {
        if self.head.fold_above(p) {
            return Some(0);
        }
        self.rows.up_to(|e| e.fails_3(b, p))
    }

    // The rows that test 3 visits key by key. Only where it fails: else it is every row for every key.
    fn visits_3(self, b: Body) -> usize
        ensures { result ≡ visits3 (over self.entry.head.bytes.now (entries self.entry.rows.bytes.now self.entry.rows.n)) b.entry.bytes.now }
    {
        let mut visited = 0;
        for j in 0..table::read_count(b.bytes) {
            match self.key_3(b, table::read_at(b.bytes, j)) {
                Some(last) => return visited + last,
                None => visited += self.rows.n,
            }
        }
        visited
    }

    // Tests 3 to 5, then the waiting rule, which finds each version where test 2 found it. A test that passes visits every row for every key.
    fn later_vote(self, marks: &[u64], b: Body, read: Seen) -> Cast
        requires { read.visited ≤ 8 * self.rows.n }
        ensures { (result.vote ≡ later_vote (box_from self.entry.head.bytes.now (entries self.entry.rows.bytes.now self.entry.rows.n) marks.now) b.entry.bytes.now (vote_by read.what)) × (result.visited ≡ read.visited + later_visits (box_from self.entry.head.bytes.now (entries self.entry.rows.bytes.now self.entry.rows.n) marks.now) b.entry.bytes.now read.visited) }
    {
        if test_3(self.head.bytes, self.rows.bytes, self.rows.n, b.bytes) {
            return Cast {
                vote: Vote::Abort(Reason::Overwritten),
                visited: read.visited + self.visits_3(b),
            };
        }
        let third = read.visited + table::read_count(b.bytes) * self.rows.n;
        if test_4(self.rows.bytes, self.rows.n, b.bytes) {
            return Cast {
                vote: Vote::Abort(Reason::Undercuts),
                visited: third + self.rows.visits_4(b),
            };
        }
        let fourth = third + table::write_count(b.bytes) * self.rows.n;
        if test_5(marks, b.bytes) {
            return Cast {
                vote: Vote::Abort(Reason::ReadMark),
                visited: fourth,
            };
        }
        Cast {
            vote: read.what.vote(),
            visited: fourth + read.visited,
        }
    }
}

// Whether a stamp is above clock + δ, a sum that never wraps.
pub fn ahead(s: Stamp, told: Told) -> bool
    ensures { result ≡ ltb (limit told) s.0 }
{
    told.clock < s.0 && told.delta < s.0 - told.clock
}

// Test 1: stamp above clock + δ.
pub fn test_1(b: &[u8], told: Told) -> bool
    requires { TxThere b.now }
    ensures { result ≡ test1 told b.now }
{
    ahead(table::stamp_of(b), told)
}

// Whether a key may be in a set: each of a message's 512 has a bit of its own, and a higher one, as a lent row may have, shares one.
fn in_keys(keys: &[u64; 8], k: Key) -> bool
    ensures { result ≡ in_keys keys.now k.0 }
{
    let at = (k.0 / 64 % 8) as usize;
    (keys[at] >> (k.0 % 64)) % 2 == 1
}

// A key joins a set; what the set lets in is compared, so that it may have too many and never one too few.
fn add_key(keys: &mut [u64; 8], k: Key)
    ensures { keys.new ≡ with_key keys.old k.0 }
{
    let at = (k.0 / 64 % 8) as usize;
    keys[at] = keys[at] | (1 << (k.0 % 64));
}

// The keys of `n` reads or writes that begin at `p` join a set. Beside `any_in`, each a loop of one line: a closure for the line would be no plainer.
fn add_keys(keys: &mut [u64; 8], s: &[u8], p: usize, n: usize)
    requires { (p + n * 10 ≤ length s.now) × (length keys.old ≡ 8) }
    ensures { any (lacks keys.new) (keys_at s.now p n) ≡ false }
{
    for j in 0..n {
        add_key(keys, Key(records::u16_at(s, p + j * 10)));
    }
}

// Whether one of the keys of `n` reads or writes that begin at `p` may be in a set.
fn any_in(keys: &[u64; 8], s: &[u8], p: usize, n: usize) -> bool
    requires { p + n * 10 ≤ length s.now }
    ensures { result ≡ any (in_keys keys.now) (keys_at s.now p n) }
{
    for j in 0..n {
        if in_keys(keys, Key(records::u16_at(s, p + j * 10))) {
            return true;
        }
    }
    false
}

// Test 3: a folded version above the version read, or a live entry between that and this stamp.
pub fn test_3(h: &[u8], t: &[u8], n: usize, b: &[u8]) -> bool
    requires { Wf t.now n × TxThere b.now × (head_len ≤ length h.now) }
    ensures { result ≡ test3 (over h.now (entries t.now n)) b.now }
{
    let h = Head { bytes: h };
    let t = Rows { bytes: t, n };
    let b = Body { bytes: b };
    h.folds_above(b) || t.entries_3(b)
}

// Test 4: a live entry with a higher stamp read a key written here at a version below this stamp.
pub fn test_4(t: &[u8], n: usize, b: &[u8]) -> bool
    requires { Wf t.now n × TxThere b.now }
    ensures { result ≡ test4 (entries_only (entries t.now n)) b.now }
{
    let t = Rows { bytes: t, n };
    let b = Body { bytes: b };
    let mut written = [0u64; 8];
    add_keys(
        &mut written,
        b.bytes,
        b.writes_from(),
        table::write_count(b.bytes),
    );
    t.up_to(|e| e.hit_4(b, &written)).is_some()
}

// The read mark of a key, 0 past the end.
fn mark_at(marks: &[u64], k: Key) -> u64
    ensures { result ≡ get_or marks.now k.0 0 }
{
    marks.get(k.0 as usize).copied().unwrap_or(0)
}

// Test 5: a written key's read mark is above this stamp.
pub fn test_5(marks: &[u64], b: &[u8]) -> bool
    requires { TxThere b.now }
    ensures { result ≡ test5 (marks_only marks.now) b.now }
{
    let s = table::stamp_of(b);
    for j in 0..table::write_count(b) {
        if s.0 < mark_at(marks, table::write_at(b, j).key) {
            return true;
        }
    }
    false
}

// The waiting rule: any bad, abort with reason 6; else any undecided, wait; else commit. It does not stop at a bad one: every version above the low mark
// is looked up.
pub fn waiting_rule(h: &[u8], t: &[u8], n: usize, b: &[u8]) -> Cast
    requires { Wf t.now n × TxThere b.now × (head_len ≤ length h.now) }
    ensures { (result.vote ≡ waiting_rule (over h.now (entries t.now n)) b.now) × (result.visited ≡ waiting_visits (low_of h.now) (entries t.now n) b.now) × (result.visited ≤ 8 * n) }
{
    let held = Held {
        head: Head { bytes: h },
        low: table::low_of(h),
        rows: Rows { bytes: t, n },
    };
    let mut worst = Standing::Fine;
    let mut visited = 0;
    for j in 0..table::read_count(b) {
        let one = held.status(table::read_at(b, j));
        visited += one.visited;
        worst = worst.or(one.what);
    }
    Cast {
        vote: worst.vote(),
        visited,
    }
}

// Whether a read is of the key and lies below a stamp.
fn is_below(p: Read, k: Key, s: Stamp) -> bool
    ensures { result ≡ read_below k.0 s.0 p }
{
    k.0 == p.key.0 && p.version.0 < s.0
}

// The vote of a PR not held: the first failing test aborts, else the waiting rule. The new entry, standing last, is not reached by a look-up that finds.
pub fn first_vote(h: &[u8], t: &[u8], n: usize, marks: &[u64], b: &[u8], told: Told) -> Cast
    requires { Wf t.now n × TxThere b.now × (head_len ≤ length h.now) }
    ensures { (result.vote ≡ first_vote told (box_from h.now (entries t.now n) marks.now) b.now) × (result.visited ≡ test_visits told (box_from h.now (entries t.now n) marks.now) b.now (new_last b.now (entries t.now n))) × (result.visited ≡ test_visits told (box_from h.now (entries t.now n) marks.now) b.now (entries t.now n)) × (result.visited ≤ 32 * n) }
{
    if test_1(b, told) {
        return Cast {
            vote: Vote::Abort(Reason::Ahead),
            visited: 0,
        };
    }
    let held = Held {
        head: Head { bytes: h },
        low: table::low_of(h),
        rows: Rows { bytes: t, n },
    };
    let b = Body { bytes: b };
    let read = held.versions(b);
    if read.what == Standing::Bad {
        return Cast {
            vote: Vote::Abort(Reason::NoVersion),
            visited: read.visited,
        };
    }
    held.later_vote(marks, b, read)
}

// Whether what was found is above a stamp.
fn above(x: Option<Version>, s: Stamp) -> bool
    ensures { result ≡ above s.0 x }
{
    match x {
        Some(v) => s.0 < v.stamp.0,
        None => false,
    }
}

fn no_version() -> Version
    ensures { result ≡ no_version }
{
    Version {
        stamp: Stamp(0),
        value: 0,
    }
}

// What the committed writer of a key with the highest stamp strictly below wrote, and likewise the live undecided one.
pub fn newest(t: &[u8], n: usize, k: Key, s: Stamp) -> Writers
    requires { Wf t.now n }
    ensures { result ≡ newest_writers k.0 s.0 (entries t.now n) }
{
    let t = Rows { bytes: t, n };
    t.newest_or(k, s, no_version())
}

// What RD answers: version and value of both; the key's folded version where no committed writer is held.
pub fn found(h: &[u8], t: &[u8], n: usize, k: Key, s: Stamp) -> Answer
    requires { Wf t.now n × (head_len ≤ length h.now) }
    ensures { result ≡ rd_answer (over h.now (entries t.now n)) k.0 s.0 }
{
    let t = Rows { bytes: t, n };
    let x = t.newest_or(k, s, table::fold_of(h, k));
    Answer::Found(x.committed, x.undecided)
}
