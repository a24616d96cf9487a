// The papers' words as types: stamp, key, decision, kind, refusal, and the group of boxes with its five thresholds.
#![tactic(auto)]

ghost use Rattle.std.specs.Prelude.{◌≡◌, ℕ, refl};
ghost use Rattle.terms.specs.Checks.{or_else, when};
ghost use Rattle.terms.specs.Codes.{decision_number};
ghost use Rattle.terms.specs.declared.Refusal.{Refusal};
ghost use Rattle.terms.specs.Refusals.{refusal_values, number_of, lacking_of, refusal_of};
ghost use Rattle.terms.specs.Group.{boxes, commit_list, abort_list, commit_proof, abort_proof, log_proof, group_wrong, group_of, capacity_wrong};

// A moment and a writer; 1 or more where it is in order.
#[derive(Clone, Copy, PartialEq, Eq, PartialOrd, Ord)]
pub struct Stamp(pub u64);

// A register place; 0 to 511 where it is in order.
#[derive(Clone, Copy, PartialEq, Eq, PartialOrd, Ord)]
pub struct Key(pub u16);

// A round of the fallback, 0 to 65,535.
#[derive(Clone, Copy, PartialEq, Eq, PartialOrd, Ord)]
pub struct View(pub u16);

pub const LARGEST_KEY: u16 = 511;

pub const LARGEST_F: u64 = 5;

pub const LARGEST_CAPACITY: u64 = 255;

// A check passes, or tells its refusal.
pub type Check = Result<(), Refusal>;

// The first refusal of two: checks that do not need one another stand in a line. What a caller holds as a refusal may be a number of its own.
#[tactic(auto, unfolding(crate::proofs::Checks::chain))]
pub fn first<E: Drop>(a: Result<(), E>, b: Result<(), E>) -> Result<(), E>
    ensures { result ≡ or_else a b }
{
    a?;
    b
}

// The refusal where a test tells so.
#[tactic(auto, unfolding(crate::proofs::Checks::chain))]
pub fn refuse_if<E: Drop>(test: bool, why: E) -> Result<(), E>
    ensures { result ≡ when test why }
{
    if test {
        return Err(why);
    }
    Ok(())
}

#[derive(Clone, Copy, PartialEq, Eq)]
pub enum Decision {
    Commit = 1,
    Abort = 2,
}

impl Decision {
    // The paper's number: 1 commit, 2 abort.
    pub fn number(self) -> u8
        ensures { result ≡ decision_number self }
    {
        self as u8
    }
}

#[derive(Clone, Copy, PartialEq, Eq)]
pub enum Kind {
    Votes,
    Logs,
}

// The refusals, in the order of their numbers.
#[derive(Clone, Copy, PartialEq, Eq)]
pub enum Refusal {
    Short,
    Mark,
    Count,
    Trailing,
    Range,
    Order,
    Misbehaviour,
    Code,
    OtherBody,
    Unknown,
    // How many counted answers are lacking, 1 to the threshold.
    TooFew(u8),
    Contradiction,
    Full,
    Group,
    Ahead,
    Table,
    Buffer,
    // At or below the low mark.
    Old,
    // An entry at or below the new low mark is undecided.
    Undecided,
    // The box's view or logged view forbids it.
    Passed,
    NotLogged,
    Election,
    LastView,
    Passage,
    Versions,
    Direction,
    AxleCount,
    HotAxle,
}

impl Refusal {
    // The paper's number, and how many counted answers are lacking: 0 beside all but 11.
    pub fn values(self) -> [u8; 2]
        ensures { result ≡ refusal_values self }
    {
        match self {
            Refusal::Short => [1, 0],
            Refusal::Mark => [2, 0],
            Refusal::Count => [3, 0],
            Refusal::Trailing => [4, 0],
            Refusal::Range => [5, 0],
            Refusal::Order => [6, 0],
            Refusal::Misbehaviour => [7, 0],
            Refusal::Code => [8, 0],
            Refusal::OtherBody => [9, 0],
            Refusal::Unknown => [10, 0],
            Refusal::TooFew(lacking) => [11, lacking],
            Refusal::Contradiction => [12, 0],
            Refusal::Full => [13, 0],
            Refusal::Group => [14, 0],
            Refusal::Ahead => [15, 0],
            Refusal::Table => [16, 0],
            Refusal::Buffer => [17, 0],
            Refusal::Old => [18, 0],
            Refusal::Undecided => [19, 0],
            Refusal::Passed => [21, 0],
            Refusal::NotLogged => [22, 0],
            Refusal::Election => [23, 0],
            Refusal::LastView => [24, 0],
            Refusal::Passage => [26, 0],
            Refusal::Versions => [27, 0],
            Refusal::Direction => [28, 0],
            Refusal::AxleCount => [29, 0],
            Refusal::HotAxle => [30, 0],
        }
    }

    pub fn number(self) -> u8
        ensures { result ≡ number_of self }
    {
        let values = self.values();
        values[0]
    }

    pub fn lacking(self) -> u8
        ensures { result ≡ lacking_of self }
    {
        let told = self.values();
        told[1]
    }

    // The refusal that a check's number stands for. It is for callers that hold a number, to whom it is promised; no check gives one.
    pub fn of(n: u8) -> Self
        ensures { result ≡ refusal_of n }
    {
        match n {
            1 => Refusal::Short,
            2 => Refusal::Mark,
            3 => Refusal::Count,
            4 => Refusal::Trailing,
            5 => Refusal::Range,
            6 => Refusal::Order,
            7 => Refusal::Misbehaviour,
            8 => Refusal::Code,
            14 => Refusal::Group,
            15 => Refusal::Ahead,
            16 => Refusal::Table,
            18 => Refusal::Old,
            19 => Refusal::Undecided,
            26 => Refusal::Passage,
            27 => Refusal::Versions,
            28 => Refusal::Direction,
            29 => Refusal::AxleCount,
            30 => Refusal::HotAxle,
            _ => Refusal::Buffer,
        }
    }
}

// What a caller holds for a refusal: the refusal itself, or its number alone.
pub trait AsRefusal {
    ghost told_as: { Refusal → Self };

    ghost told_number: { Self → ℕ };

    fn of_refusal(why: Refusal) -> Self
        ensures { result ≡ told_as why };

    fn number_told(&self) -> u8
        ensures { result ≡ told_number self.now };

    // A refusal keeps its number, whatever it is told as.
    ghost number_stays: { (r : Refusal) → told_number (told_as r) ≡ number_of r };
}

impl AsRefusal for Refusal {
    ghost told_as = { λ r. r };

    ghost told_number = { number_of };

    ghost number_stays = { λ r. refl };

    fn of_refusal(why: Refusal) -> Refusal {
        why
    }

    fn number_told(&self) -> u8 {
        self.number()
    }
}

impl AsRefusal for u8 {
    ghost told_as = { number_of };

    ghost told_number = { λ n. n };

    ghost number_stays = { λ r. refl };

    fn of_refusal(why: Refusal) -> u8 {
        why.number()
    }

    fn number_told(&self) -> u8 {
        *self
    }
}

// A group of 5f + 1 boxes, of which at most f are faulty.
#[derive(Clone, Copy, PartialEq, Eq)]
pub struct Group {
    pub f: u8,
}

// 14 unless f is 1 to 5.
#[tactic(auto, unfolding(crate::proofs::Checks::chain, crate::specs::Group::group_wrong))]
pub fn group_wrong(f: u64) -> Check
    ensures { result ≡ group_wrong f }
{
    refuse_if(f < 1, Refusal::Group)?;
    refuse_if(LARGEST_F < f, Refusal::Group)
}

// 14 unless the capacity is 1 to 255.
#[tactic(auto, unfolding(crate::proofs::Checks::chain, crate::specs::Group::capacity_wrong))]
pub fn capacity_wrong(capacity: u64) -> Check
    ensures { result ≡ capacity_wrong capacity }
{
    refuse_if(capacity < 1, Refusal::Group)?;
    refuse_if(LARGEST_CAPACITY < capacity, Refusal::Group)
}

impl Group {
    // A group from any number.
    #[tactic(auto, using(crate::proofs::Groups::group_small), unfolding(crate::proofs::Checks::chain, crate::specs::Group::group_of))]
    pub fn of(f: u64) -> Result<Group, Refusal>
        ensures { result ≡ group_of f }
    {
        group_wrong(f)?;
        Ok(Group { f: f as u8 })
    }

    pub fn n(self) -> usize
        ensures { result ≡ boxes self.f }
    {
        5 * (self.f as usize) + 1
    }

    pub fn commit_list(self) -> usize
        ensures { result ≡ commit_list self.f }
    {
        3 * (self.f as usize) + 1
    }

    pub fn abort_list(self) -> usize
        ensures { result ≡ abort_list self.f }
    {
        self.f as usize + 1
    }

    pub fn commit_proof(self) -> usize
        ensures { result ≡ commit_proof self.f }
    {
        5 * (self.f as usize) + 1
    }

    pub fn abort_proof(self) -> usize
        ensures { result ≡ abort_proof self.f }
    {
        3 * (self.f as usize) + 1
    }

    pub fn log_proof(self) -> usize
        ensures { result ≡ log_proof self.f }
    {
        4 * (self.f as usize) + 1
    }
}
