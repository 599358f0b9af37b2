//! Why a call was declined: one fault type for every layer.
#![tactic(auto)]

ghost use Rattle.fault.specs.Laws.{InOrder, Made, Numbered};
ghost use Rattle.fault.specs.Makers.{at_record, in_step, of_record, plain};
ghost use Rattle.fault.specs.Numbers.{layer_of, layer_number, number_of, numbers};
ghost use Rattle.std.specs.Prelude.{◌≡◌, ◌==◌};

mod words;

/// The ways to decline, each with its number.
#[derive(Clone, Copy, Debug, PartialEq, Eq)]
pub enum Refusal {
    /// Width times height is 2^64 or more.
    TooManyCells = 1,
    /// The input, or a board's front, does not hold width times height elements.
    InputLength = 2,
    /// The output, or a board's spare, does not hold width times height elements.
    OutputLength = 3,
    /// A square's stride is too wide, or its side is wider than its stride.
    SquareSides = 4,
    /// A square's last cell is not in the row.
    SquareOutside = 5,
    /// A length or a number that must be a power of two is none.
    NotPowerOfTwo = 6,
    /// A number of bits that no word has, or no bits for a number that is not zero.
    BitLength = 7,
    /// A row is not as long as its blocks.
    BlockLength = 8,
    /// A place or a tile is not inside, or a kernel's buffers do not fit its matrix.
    Outside = 9,
    /// A plan's table is empty, or its chain leaves it.
    NoRecord = 10,
    /// A record of a plan says what no step says.
    BadRecord = 11,
    /// A plan's chain is longer than 64 steps.
    TooManySteps = 12,
    /// More elements than a plan is fitted to, or than tiles are counted for.
    TooLong = 13,
    /// A step of a plan is declined at the length it is fitted to.
    StepRefused = 14,
    /// A buffer is not as long as the plan was fitted to.
    FittedLength = 15,
    /// A signal's name has no shape.
    NoShape = 16,
    /// The bytes of a plan do not fill its table.
    TableBytes = 17,
}

impl Refusal {
    /// The number of the refusal, from 1 to 17: its discriminant, which only `as` reads.
    pub fn number(self) -> u8
        ensures { result ≡ number_of self }
    {
        self as u8
    }

    /// Whether two refusals have the same number. It answers by `==`, which is derived and has no clause of its own.
    pub fn same_number(self, other: Refusal) -> bool
        ensures { result ≡ (number_of self == number_of other) }
    {
        self == other
    }

    /// Who declines for this reason.
    fn layer(self) -> Layer
        ensures { layer_number result ≡ layer_of (number_of self) }
    {
        match self {
            Refusal::Outside => Layer::Tile,
            Refusal::TooManyCells
            | Refusal::InputLength
            | Refusal::OutputLength
            | Refusal::SquareSides
            | Refusal::SquareOutside
            | Refusal::NotPowerOfTwo
            | Refusal::BitLength
            | Refusal::BlockLength => Layer::Move,
            Refusal::NoRecord
            | Refusal::BadRecord
            | Refusal::TooManySteps
            | Refusal::TooLong
            | Refusal::StepRefused
            | Refusal::FittedLength
            | Refusal::TableBytes => Layer::Plan,
            Refusal::NoShape => Layer::Signal,
        }
    }

    /// Whether the refusal is about one record of a plan's table.
    fn of_record(self) -> bool
        ensures { result ≡ of_record self }
    {
        matches!(
            self,
            Refusal::NoRecord | Refusal::BadRecord | Refusal::TooManySteps
        )
    }
}

/// Who declines, each with its number.
#[derive(Clone, Copy)]
enum Layer {
    /// A row or a tile.
    Tile = 1,
    /// A move of the elements.
    Move = 2,
    /// A plan.
    Plan = 3,
    /// A signal.
    Signal = 4,
}

/// The step of a plan that was declined, and the refusal for which it was.
#[derive(Clone, Copy, PartialEq, Eq)]
struct DeclinedStep {
    step: u32,
    cause: Refusal,
}

/// A refusal with the record and the step of the plan that it names, and what was declined below it.
#[derive(Clone, Copy, PartialEq, Eq)]
pub struct Fault {
    refusal: Refusal,
    // 0 for none: the five numbers say all of a fault (the law `Numbered`), and could not tell `None` from `Some(0)`.
    record: u32,
    below: Option<DeclinedStep>,
}

impl Fault {
    /// A fault that names no record, no step and no cause.
    pub fn new(refusal: Refusal) -> Fault
        ensures { result ≡ plain refusal }
    {
        Fault {
            refusal,
            record: 0,
            below: None,
        }
    }

    /// A fault of a record of a plan's table. Only refusals about one record keep it.
    pub fn at_record(refusal: Refusal, record: u32) -> Fault
        ensures { result ≡ at_record refusal «record» }
    {
        if !refusal.of_record() {
            return Fault::new(refusal);
        }
        Fault {
            record,
            ..Fault::new(refusal)
        }
    }

    /// The fault of a plan whose step, in `record`, was declined for the reason `below`.
    pub fn in_step(record: u32, step: u32, below: Fault) -> Fault
        ensures { result ≡ in_step «record» step below }
    {
        Fault {
            record,
            below: Some(DeclinedStep {
                step,
                cause: below.refusal,
            }),
            ..Fault::new(Refusal::StepRefused)
        }
    }

    // The rules tell a fault by five numbers, with 0 for what it does not name: so answer the calls below.

    /// Which refusal it is.
    pub fn refusal(&self) -> Refusal
        ensures { result ≡ self.now.refusal }
    {
        self.refusal
    }

    /// The number of the refusal, from 1 to 17.
    pub fn number(&self) -> u8
        ensures { result ≡ (numbers self.now).number }
    {
        self.refusal.number()
    }

    /// The layer that declines: 1 a row or a tile, 2 a move, 3 a plan, 4 a signal.
    pub fn layer(&self) -> u8
        ensures { result ≡ (numbers self.now).layer }
    {
        // the discriminant, as of a refusal
        self.refusal.layer() as u8
    }

    /// The record that the fault names, or 0.
    pub fn record(&self) -> u32
        ensures { result ≡ (numbers self.now).record_no }
    {
        self.record
    }

    /// The step that the fault names, counted from 1, or 0.
    pub fn step(&self) -> u32
        ensures { result ≡ (numbers self.now).step_no }
    {
        self.below.map_or(0, |below| below.step)
    }

    /// The number of the refusal below this one, or 0.
    pub fn cause(&self) -> u8
        ensures { result ≡ (numbers self.now).cause_no }
    {
        self.below.map_or(0, |below| below.cause.number())
    }
}

impl From<Refusal> for Fault {
    ghost from_gives = { λ refusal fault. fault ≡ plain refusal };

    fn from(refusal: Refusal) -> Fault {
        Fault::new(refusal)
    }
}

/// The laws of the numbers, of what a fault names, and of tests that are made in order.
#[tactic(auto, using(crate::proofs::Numbered::numbered, crate::proofs::Numbered::made, crate::proofs::Ordered::in_order))]
pub fn refusals_stand()
    ensures numbered { Numbered }
    ensures made { Made }
    ensures in_order { InOrder }
{}
