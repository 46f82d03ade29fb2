ghost use Rattle.std.specs.Prelude.{◌≡◌};
ghost use Rattle.job_steps.specs.Status.{code_of};

use command_words::UsageFault;
use ideal_laws::LimitKind;
use relation_reader::InputFault;

/// Why an input is no text with a reading, or none that the command can work on.
#[derive(Debug, Clone, Copy, PartialEq, Eq)]
pub enum InputProblem {
    /// More than 1,048,576 bytes.
    TooLong,
    Text(InputFault),
    /// Fewer names than the job has generators.
    TooFewNames { names: u32 },
    /// The first relation that is neither one of an ideal nor one of a module, counted from 1 among those that are
    /// not 0.
    Shape { relation: u32 },
    /// Fewer relations that are not 0 than the job has questions.
    TooFewRelations { relations: u32 },
    /// The first question of a degree above the bound, counted from 1 among the relations that are not 0.
    AboveBound { relation: u32 },
}

/// How a run ended.
#[derive(Debug, Clone, Copy, PartialEq, Eq)]
pub enum Status {
    Done,
    Usage(UsageFault),
    Input(InputProblem),
    Limit {
        kind: LimitKind,
        degree: u32,
        value: u64,
    },
    /// The first degree up to which there are too many chains.
    Chains {
        degree: u32,
        value: u64,
    },
    /// The degree of the first question with too many products.
    Products {
        degree: u32,
        value: u64,
    },
    ReadFault,
    WriteFault,
    NoMemory,
}

impl Status {
    /// The status that the process ends with.
    pub fn code(&self) -> u8
        ensures { result ≡ code_of self.now }
    {
        match self {
            Status::Done => 0,
            Status::Usage(_) => 2,
            Status::Input(_) => 3,
            Status::Limit { .. } | Status::Chains { .. } | Status::Products { .. } => 4,
            Status::ReadFault => 5,
            Status::WriteFault => 6,
            Status::NoMemory => 7,
        }
    }
}
