// The records' values: a transaction, a list of answers, and what is read of a message. Numbers are little-endian.
#![tactic(auto)]

ghost use Rattle.std.specs.Prelude.{ℕ, ◌≡◌, ◌+◌, ◌*◌, ◌<◌, ◌≤◌, length, get_or};
ghost use Rattle.records.specs.Numbers.{num_at, le_bytes};
ghost use Rattle.records.specs.Tx.{read_at, write_at, padded, zero_read, zero_write, tx_len, tx_of, held_tx, TxThere};
ghost use Rattle.records.specs.Cutting.{mark_bytes, carrier};
ghost use Rattle.records.specs.Views.{view_mark_bytes, count_at, ballots_from, ballot_len, views_len, ballot_from, ballot_at, zero_ballot, views_of, held_views, ViewsThere};
ghost use Rattle.records.specs.Vl.{view_len, view_of, pair_at, zero_pair, vl_len, vl_of, held_list, VlThere};

use terms::{Key, Stamp, View};

#[derive(Clone, Copy, PartialEq, Eq)]
pub struct Read {
    pub key: Key,
    pub version: Stamp,
}

#[derive(Clone, Copy, PartialEq, Eq)]
pub struct Write {
    pub key: Key,
    pub value: u64,
}

// Up to eight reads and up to eight writes: the first r and the first w places count. Arrays with their counts, here and in the lists, and no `Vec`: nothing of
// a box asks for a heap, and docs/FORMS.md binds it.
#[derive(Clone, Copy)]
pub struct Transaction {
    pub stamp: Stamp,
    pub r: usize,
    pub w: usize,
    pub reads: [Read; 8],
    pub writes: [Write; 8],
}

// What a box is said to have answered: 1 commit, 2 abort. Numbers here and in the lists, and no enums: a record may say any byte, and what is wrong with it
// `list_wrong` and `views_wrong` of contents tell.
#[derive(Clone, Copy, PartialEq, Eq)]
pub struct Pair {
    pub number: u8,
    pub answer: u8,
}

// A list of answers of one kind (1 votes, 2 logs) that names one decision (1 commit, 2 abort): the first count places count. Logs are of one view.
#[derive(Clone, Copy)]
pub struct VoteList {
    pub kind: u8,
    pub decision: u8,
    pub view: View,
    pub count: usize,
    pub pairs: [Pair; 26],
}

// What a box is said to have told: its view, and in an election answer the decision that it had logged (1 commit, 2 abort).
#[derive(Clone, Copy, PartialEq, Eq)]
pub struct Ballot {
    pub number: u8,
    pub answer: u8,
    pub view: View,
}

// What boxes told of one transaction, in a VS their views, in an EL their election answers with leader, decision and view: the first count places count.
#[derive(Clone, Copy)]
pub struct ViewList {
    pub leader: u8,
    pub decision: u8,
    pub view: View,
    pub count: usize,
    pub ballots: [Ballot; 26],
}

// Zeros, where there is none: of a transaction, of a list, of what boxes told.
pub const NO_READ: Read = Read {
    key: Key(0),
    version: Stamp(0),
};

pub const NO_WRITE: Write = Write {
    key: Key(0),
    value: 0,
};

pub const NO_TX: Transaction = Transaction {
    stamp: Stamp(0),
    r: 0,
    w: 0,
    reads: [NO_READ; 8],
    writes: [NO_WRITE; 8],
};

pub const NO_PAIR: Pair = Pair {
    number: 0,
    answer: 0,
};

pub const NO_LIST: VoteList = VoteList {
    kind: 0,
    decision: 0,
    view: View(0),
    count: 0,
    pairs: [NO_PAIR; 26],
};

pub const NO_BALLOT: Ballot = Ballot {
    number: 0,
    answer: 0,
    view: View(0),
};

pub const NO_VIEWS: ViewList = ViewList {
    leader: 0,
    decision: 0,
    view: View(0),
    count: 0,
    ballots: [NO_BALLOT; 26],
};

// The six messages, by their marks.
#[derive(Clone, Copy, PartialEq, Eq)]
pub enum Mark {
    PR,
    LG,
    DC,
    RD,
    IV,
    LD,
}

impl Mark {
    // Its two bytes.
    pub fn bytes(self) -> [u8; 2]
        ensures { result ≡ mark_bytes self }
    {
        match self {
            Mark::PR => *b"PR",
            Mark::LG => *b"LG",
            Mark::DC => *b"DC",
            Mark::RD => *b"RD",
            Mark::IV => *b"IV",
            Mark::LD => *b"LD",
        }
    }
}

// The two lists of views, by their marks: an IV carries the one, an LD the other.
#[derive(Clone, Copy, PartialEq, Eq)]
pub enum ViewMark {
    VS,
    EL,
}

impl ViewMark {
    // Its two bytes.
    pub fn bytes(self) -> [u8; 2]
        ensures { result ≡ view_mark_bytes self }
    {
        match self {
            ViewMark::VS => *b"VS",
            ViewMark::EL => *b"EL",
        }
    }

    // The message that carries it.
    pub fn carrier(self) -> Mark
        ensures { result ≡ carrier self }
    {
        match self {
            ViewMark::VS => Mark::IV,
            ViewMark::EL => Mark::LD,
        }
    }

    // Where the count stands.
    pub fn count_at(self) -> usize
        ensures { (result ≡ count_at self) × (result ≤ 6) }
    {
        match self {
            ViewMark::VS => 2,
            ViewMark::EL => 6,
        }
    }

    // How many bytes a ballot has.
    pub fn ballot_len(self) -> usize
        ensures { (result ≡ ballot_len self) × (result ≤ 4) }
    {
        match self {
            ViewMark::VS => 3,
            ViewMark::EL => 4,
        }
    }
}

// A message that was read: what it carries, by its mark.
#[derive(Clone, Copy)]
pub enum Message {
    PR(Transaction),
    LG(Transaction, VoteList),
    DC(Transaction, VoteList),
    RD(Key, Stamp),
    IV(Transaction, ViewList),
    LD(Transaction, ViewList),
}

pub fn wide(x: u8) -> usize
    ensures { (result ≡ x) × (result < 256) }
{
    x as usize
}

pub fn widened(x: u8) -> u64
    ensures { (result ≡ x) × (result < 256) }
{
    x as u64
}

// The number that the eight bytes from `at` on say.
pub fn u64_at(s: &[u8], at: usize) -> u64
    requires { at + 8 ≤ length s.now }
    ensures { result ≡ num_at 8 at s.now }
{
    u64::from_le_bytes(s[at..at + 8].try_into().unwrap())
}

// The same of two bytes.
pub fn u16_at(s: &[u8], at: usize) -> u16
    requires { at + 2 ≤ length s.now }
    ensures { result ≡ num_at 2 at s.now }
{
    u16::from_le_bytes(s[at..at + 2].try_into().unwrap())
}

// A number put down in eight bytes.
pub fn put_u64(s: &mut [u8], x: u64)
    requires { length s.old ≡ 8 }
    ensures { s.new ≡ le_bytes 8 x }
{
    s.copy_from_slice(&x.to_le_bytes());
}

// The same in two bytes.
pub fn put_u16(s: &mut [u8], x: u16)
    requires { length s.old ≡ 2 }
    ensures { s.new ≡ le_bytes 2 x }
{
    s.copy_from_slice(&x.to_le_bytes());
}

// The length of a TX that its counts give.
pub fn tx_len(s: &[u8]) -> usize
    requires { 4 ≤ length s.now }
    ensures { result ≡ tx_len s.now }
{
    12 + 10 * (wide(s[2]) + wide(s[3]))
}

// The j-th of the reads that begin at p.
pub fn read_at(s: &[u8], p: usize, j: usize) -> Read
    requires { (p ≤ 200) × (j < 8) × (p + j * 10 + 10 ≤ length s.now) }
    ensures { result ≡ read_at s.now p j }
{
    Read {
        key: Key(u16_at(s, p + j * 10)),
        version: Stamp(u64_at(s, p + j * 10 + 2)),
    }
}

// The j-th of the writes that begin at p.
pub fn write_at(s: &[u8], p: usize, j: usize) -> Write
    requires { (p ≤ 200) × (j < 8) × (p + j * 10 + 10 ≤ length s.now) }
    ensures { result ≡ write_at s.now p j }
{
    Write {
        key: Key(u16_at(s, p + j * 10)),
        value: u64_at(s, p + j * 10 + 2),
    }
}

// An array whose first n places `at` fills; the others hold z.
fn padded<T: Copy, const N: usize, F: Fn(usize) -> T>(n: usize, z: T, at: F) -> [T; N]
    requires few { n ≤ N }
    requires callable { (j : ℕ) → j < n → F.pre at j }
    ensures { (f : ℕ → T) → ((j : ℕ) (y : T) → j < n → F.post at j y → y ≡ f j) → result ≡ padded f n N z }
{
    let mut a = [z; N];
    for (j, place) in a[..n].iter_mut().enumerate() {
        *place = at(j);
    }
    a
}

// The n reads that begin at p, in an array of eight.
fn reads_of(s: &[u8], p: usize, n: usize) -> [Read; 8]
    requires { (p ≤ 200) × (n ≤ 8) × (p + n * 10 ≤ length s.now) }
    ensures { result ≡ padded (read_at s.now p) n 8 zero_read }
{
    let none = Read {
        key: Key(0),
        version: Stamp(0),
    };
    padded(n, none, |j| read_at(s, p, j))
}

// The same of writes.
fn writes_of(s: &[u8], p: usize, n: usize) -> [Write; 8]
    requires { (p ≤ 200) × (n ≤ 8) × (p + n * 10 ≤ length s.now) }
    ensures { result ≡ padded (write_at s.now p) n 8 zero_write }
{
    let none = Write {
        key: Key(0),
        value: 0,
    };
    padded(n, none, |j| write_at(s, p, j))
}

// The transaction that a TX says.
pub fn transaction_of(s: &[u8]) -> Transaction
    requires { TxThere s.now }
    ensures { (result ≡ held_tx (tx_of s.now)) × (result.r ≤ 8) × (result.w ≤ 8) }
{
    let r = wide(s[2]);
    let w = wide(s[3]);
    let writes = writes_of(s, 12 + r * 10, w);
    Transaction {
        stamp: Stamp(u64_at(s, 4)),
        r,
        w,
        reads: reads_of(s, 12, r),
        writes,
    }
}

// How many bytes the view of a list takes: a list of logs has one.
pub fn view_len(kind: u8) -> usize
    ensures { (result ≡ view_len kind) × (result ≤ 2) }
{
    if kind == 2 { 2 } else { 0 }
}

// The view that a list of this kind has: one beside votes is no part of it.
pub fn own_view(kind: u8, view: View) -> View
    ensures { result.0 ≡ view_of kind view.0 }
{
    if view_len(kind) == 2 { view } else { View(0) }
}

// The length of a VL that its kind and its count give.
pub fn vl_len(s: &[u8]) -> usize
    requires { 5 ≤ length s.now }
    ensures { result ≡ vl_len s.now }
{
    5 + view_len(s[2]) + 2 * wide(s[4])
}

// The view of a list, 0 where its kind has none.
fn view_of(s: &[u8]) -> View
    requires { VlThere s.now }
    ensures { result.0 ≡ view_of (get_or s.now 2 0) (num_at 2 5 s.now) }
{
    if s[2] == 2 {
        View(u16_at(s, 5))
    } else {
        View(0)
    }
}

fn pair_at(s: &[u8], from: usize, j: usize) -> Pair
    requires { (j < 26) × (from ≤ 7) × (from + 2 * j + 2 ≤ length s.now) }
    ensures { result ≡ pair_at s.now from j }
{
    let at = from + 2 * j;
    Pair {
        number: s[at],
        answer: s[at + 1],
    }
}

fn pairs_of(s: &[u8], from: usize, n: usize) -> [Pair; 26]
    requires { (n ≤ 26) × (from ≤ 7) × (from + 2 * n ≤ length s.now) }
    ensures { result ≡ padded (pair_at s.now from) n 26 zero_pair }
{
    let none = Pair {
        number: 0,
        answer: 0,
    };
    padded(n, none, |j| pair_at(s, from, j))
}

// The list that a VL says.
pub fn list_of(s: &[u8]) -> VoteList
    requires { VlThere s.now }
    ensures { (result ≡ held_list (vl_of s.now)) × (result.count ≤ 26) }
{
    let kind = s[2];
    let count = wide(s[4]);
    VoteList {
        kind,
        decision: s[3],
        view: view_of(s),
        count,
        pairs: pairs_of(s, 5 + view_len(kind), count),
    }
}

// The length of a VS, or of an EL, that its count gives.
pub fn views_len(k: ViewMark, s: &[u8]) -> usize
    requires { ballots_from k ≤ length s.now }
    ensures { result ≡ views_len k s.now }
{
    let at = k.count_at();
    1 + at + k.ballot_len() * wide(s[at])
}

// The ballot that begins at `p`.
fn ballot_from(k: ViewMark, s: &[u8], p: usize) -> Ballot
    requires { (p ≤ 200) × (p + ballot_len k ≤ length s.now) }
    ensures { result ≡ ballot_from k s.now p }
{
    let number = s[p];
    match k {
        ViewMark::VS => Ballot {
            number,
            answer: 0,
            view: View(u16_at(s, p + 1)),
        },
        ViewMark::EL => Ballot {
            number,
            answer: s[p + 1],
            view: View(u16_at(s, p + 2)),
        },
    }
}

// Its first n ballots, in an array of 26.
fn ballots_of(k: ViewMark, s: &[u8], n: usize) -> [Ballot; 26]
    requires { (n ≤ 26) × (ballots_from k + ballot_len k * n ≤ length s.now) }
    ensures { result ≡ padded (ballot_at k s.now) n 26 zero_ballot }
{
    let none = Ballot {
        number: 0,
        answer: 0,
        view: View(0),
    };
    let from = 1 + k.count_at();
    let width = k.ballot_len();
    padded(n, none, |j| ballot_from(k, s, from + width * j))
}

// What a VS, or an EL, says.
pub fn views_of(k: ViewMark, s: &[u8]) -> ViewList
    requires { ViewsThere k s.now }
    ensures { (result ≡ held_views (views_of k s.now)) × (result.count ≤ 26) }
{
    let count = wide(s[k.count_at()]);
    let ballots = ballots_of(k, s, count);
    match k {
        ViewMark::VS => ViewList {
            leader: 0,
            decision: 0,
            view: View(0),
            count,
            ballots,
        },
        ViewMark::EL => ViewList {
            leader: s[2],
            decision: s[3],
            view: View(u16_at(s, 4)),
            count,
            ballots,
        },
    }
}
