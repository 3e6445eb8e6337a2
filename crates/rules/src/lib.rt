// The types of document 01: the set-up, the state, the answers, all by value. The rules over them are in specs/.
#![tactic(auto)]

ghost use Rattle.std.specs.Prelude.{◌≡◌, ◌≤◌};
ghost use Rattle.rules.specs.State.{list_of};
ghost use Rattle.rules.specs.Windows.{move_number};
ghost use Rattle.rules.specs.Answers.{refusal_number, TellsOutcome};

use std::error::Error;
use std::fmt;

// The parts that stand for 1 (`U` of specs/Sizes.antt).
pub const U: u64 = 23_279_256_000;

// A feedback: percent, and its form, 0 flat, 1 per window or 2 by the square root. A set-up may hold any form, and `settings_in_range` tells the wrong
// ones: so it stays a number.
#[derive(Clone, Copy)]
pub struct Feedback {
    pub percent: u64,
    pub form: u64,
}

// One transport's settings. Their ranges are `settings_in_range` of specs/Setup.antt.
#[derive(Clone, Copy)]
pub struct Settings {
    pub agents: u64,
    pub cost: u64,
    pub loan: u64,
    pub discount: u64,
    pub minimum: u64,
    pub limit: u64,
    pub initial: u64,
    pub positive: Feedback,
    pub negative: Feedback,
    pub cohortlimit: u64,
    pub suspension: u64,
}

// What a site gives: how many transports, the settings of each, how many destinations, the transport of each.
#[derive(Clone, Copy)]
pub struct Setup {
    pub transports: u64,
    pub settings: [Settings; 4],
    pub destinations: u64,
    pub home: [u64; 32],
}

// A live destination's window and its three sums, in parts of which U stand for 1.
#[derive(Clone, Copy)]
pub struct Sums {
    pub window: u64,
    pub success: u64,
    pub failure: u64,
    pub cohorts: u64,
}

// Live, or dead with the second when that ends.
#[derive(Clone, Copy)]
pub enum Health {
    Live(Sums),
    Dead(u64),
}

#[derive(Clone, Copy)]
pub struct Destination {
    pub health: Health,
}

// How many entries of each transport and of each destination are busy.
#[derive(Clone, Copy)]
pub struct Busy {
    pub transport: [u16; 4],
    pub destination: [u16; 32],
}

// Job numbers in an order: the first `count` places of `jobs`.
#[derive(Clone, Copy)]
pub struct JobList {
    pub jobs: [u8; 32],
    pub count: u8,
}

impl JobList {
    // The job numbers, in their order.
    pub fn numbers(&self) -> &[u8]
        requires { self.now.count ≤ 32 }
        ensures { result.now ≡ list_of self.now }
    {
        &self.jobs[..usize::from(self.count)]
    }
}

// The jobs, a column a field. A state may hold any numbers, and `sound` tells the wrong ones: so a link and a turn stay numbers.
#[derive(Clone, Copy)]
pub struct Jobs {
    pub present: [bool; 32],
    pub transport: [u8; 32],
    pub n: [u16; 32],
    pub picked: [u16; 32],
    pub dropped: [u16; 32],
    pub sold: [u16; 32],
    // 0 for none, else the parent's number plus 1
    pub parent: [u8; 32],
    pub preempted: [bool; 32],
    pub arrival: [u32; 32],
    pub overtakers: [u32; 32],
    // 0 before the first pick, else the last place picked in the destination order, plus 1
    pub turn: [u8; 32],
    // the length of the destination order, which stands in `order` from 32 times the job's number on
    pub places: [u8; 32],
    pub order: [u8; 1024],
}

// The entries, a column a field. Kind: 0 free, 1 waiting, 2 busy; a state may hold others, so it stays a number.
#[derive(Clone, Copy)]
pub struct Entries {
    pub kind: [u8; 512],
    pub job: [u8; 512],
    pub destination: [u8; 512],
    pub ticket: [u32; 512],
}

#[derive(Clone, Copy)]
pub struct State {
    pub setup: Setup,
    // the last accepted clock
    pub clock: u32,
    // the next ticket
    pub ticket: u32,
    // 0 before the first pick, else the last transport picked from, plus 1; any number may stand here, too
    pub turn: u8,
    pub destinations: [Destination; 32],
    pub busy: Busy,
    // each transport's list, and all present jobs in order of taking
    pub queues: [JobList; 4],
    pub arrivals: JobList,
    pub jobs: Jobs,
    pub entries: Entries,
}

// A delivery's outcome. Where it is told by a number, 0 is a success and 1 a failure: `outcome_number` of specs/Answers.antt.
#[derive(Clone, Copy, PartialEq, Eq)]
pub enum Outcome {
    Success,
    Failure,
}

// Any other number is refused, as a field out of its range is.
impl TryFrom<u64> for Outcome {
    type Error = Refusal;

    ghost try_from_gives = { TellsOutcome };

    fn try_from(number: u64) -> Result<Outcome, Refusal> {
        match number {
            0 => Ok(Outcome::Success),
            1 => Ok(Outcome::Failure),
            _ => Err(Refusal::OutOfRange),
        }
    }
}

// Why a destination's number moved in the step of a report. Which case it is, and each case's number: specs/Windows.antt. The words stand in
// lines/specs/Names.antt.
#[derive(Clone, Copy, PartialEq, Eq)]
pub enum Move {
    Unchanged = 0,
    Raised = 1,
    Lowered = 2,
    Dead = 3,
    Revived = 4,
}

impl Move {
    #[tactic(auto, unfolding(crate::specs::Windows::move_number))]
    pub fn number(self) -> u8
        ensures { result ≡ move_number self }
    {
        self as u8
    }
}

// What that step answers: the destination's health after it, and why its number moved.
#[derive(Clone, Copy)]
pub struct StepAnswer {
    pub health: Health,
    pub moved: Move,
}

// Why a call is refused, with its number in the table of refusals: `refusal_number` of specs/Answers.antt.
#[derive(Clone, Copy, Debug, PartialEq, Eq)]
pub enum Refusal {
    // the state is not sound
    Unsound = 1,
    // the set-up is out of the ranges
    SetupOutOfRange = 2,
    // the clock is earlier than the last accepted one, or above 2^32-1
    Clock = 3,
    // there is no such transport
    Transport = 4,
    // no entry, or more than 256
    EntryCount = 5,
    // a destination that does not exist or is another transport's
    Destination = 6,
    // no job number is free
    JobNumbers = 7,
    // too few entry places are free
    EntryPlaces = 8,
    // the entry and the ticket are not those of a busy entry
    Entry = 9,
    // too little room in a lent list or buffer
    Room = 10,
    // no such job
    Job = 11,
    // a record is cut short
    CutShort = 12,
    // a number of a record is too long or too large
    Number = 13,
    // a field of a record is out of its range
    OutOfRange = 14,
}

impl Refusal {
    pub fn number(self) -> u8
        ensures { result ≡ refusal_number self }
    {
        self as u8
    }
}

impl fmt::Display for Refusal {
    fn fmt<W: fmt::Write>(&self, f: &mut fmt::Formatter<W>) -> fmt::Result {
        write!(f, "{}", self.number())
    }
}

impl Error for Refusal {}

// What an accepted call answers. Asking answers the sum, the board text its length, a set-up nothing.

#[derive(Clone, Copy)]
pub struct JobAnswer {
    // none where all entries were put off: no job came to be
    pub job: Option<u8>,
    pub putoff: u16,
}

#[derive(Clone, Copy)]
pub struct PickAnswer {
    pub job: u8,
    pub entry: u16,
    pub ticket: u32,
    pub passed: u8,
}

#[derive(Clone, Copy)]
pub struct ReportAnswer {
    pub putoff: u16,
    pub moved: Move,
}

// What a call answers, and the state that it hands back.
#[derive(Drop)]
pub struct HandedBack<A> {
    pub answer: Result<A, Refusal>,
    pub state: State,
}
