//! Refusals: the reasons why the program prints no report.

ghost use Rattle.std.specs.Prelude.{◌≡◌, ◌<◌, IfSome, None, Some, true};
ghost use Rattle.lb_command.specs.Lines.{is_placed, start_of};

use lb_report::{BenchError, FollowError, LoadError, split_case};
use lb_words::WordsError;
use std::alloc::{AllocError, Global};

/// The texts that were judged.
#[derive(Drop)]
pub enum Texts {
    /// A source and its traces.
    Two { source: Vec<u8>, traces: Vec<u8> },
    /// A case text, which holds both.
    Case(Vec<u8>),
}

impl Texts {
    ghost use Rattle.lb_command.specs.Outcomes.{source_in, traces_in};

    /// The source and its traces.
    pub fn parts(&self) -> (&[u8], &[u8])
        ensures source { result.0.now ≡ source_in self.now }
        ensures traces { result.1.now ≡ traces_in self.now }
    {
        match self {
            Texts::Two { source, traces } => (source.as_slice(), traces.as_slice()),
            Texts::Case(case) => split_case(case.as_slice()),
        }
    }
}

/// A file that could not be read.
#[derive(Drop)]
pub struct Unread {
    pub path: String,
    /// The system's cause, or what is known of it.
    pub why: String,
}

impl Unread {
    ghost use Rattle.std.specs.Prelude.{IfOk};
    ghost use Rattle.lb_command.specs.Outcomes.{IsUnreadFile};

    /// The file at a path, with what is known of the cause.
    fn new(alloc: Global, path: &str, why: &str) -> Result<Unread, AllocError>
        ensures { IfOk result (IsUnreadFile path.now why.now) }
    {
        Ok(Unread {
            path: String::from_str(alloc, path)?,
            why: String::from_str(alloc, why)?,
        })
    }
}

/// The cause of a refusal, for those who want to know more than its number.
#[derive(Drop)]
pub enum Cause {
    /// The bench refuses the texts.
    Judged { error: BenchError, texts: Texts },
    /// A file could not be read.
    Unread(Unread),
    /// A file is no report; the first of its lines that shows it, counted from 1.
    NoReport { path: String, line: usize },
    /// A trace of a report is in an earlier report too; its line, counted from 1.
    Twice { path: String, line: usize },
    /// The output failed after `sent` bytes, of `all` bytes where that is known.
    Unsent { sent: usize, all: Option<usize> },
    /// Nothing has a name that is asked for.
    Unknown(Unknown),
}

/// A name that nothing has.
#[derive(Drop)]
pub struct Unknown {
    /// Whether it is sought among the traces, and not among the variables.
    pub is_trace: bool,
    pub name: String,
}

/// The first column of a line, counted from 1; a line past `u32::MAX` counts as `u32::MAX`.
fn start_of(line: usize) -> Option<(u32, u32)>
    ensures { result ≡ start_of line }
{
    Some((u32::try_from(line).unwrap_or(u32::MAX), 1))
}

/// The reason why the program prints no report: the number of a refusal, 0 to 21, and its place, if
/// it has one: a line and a column of a source (E1 to E3), or of a file that is read as a report
/// (E17 and E20).
pub struct Refusal {
    pub number: u8,
    pub position: Option<(u32, u32)>,
    pub cause: Option<Cause>,
    pub ghost known: { number < 22 },
    pub ghost placed: { is_placed number position ≡ true },
}

// Not derived, so that a caller drops it in one step.
impl Drop for Refusal {
    fn drop(self) {
        let Refusal {
            number: _,
            position: _,
            cause: _,
        } = self;
    }
}

impl Refusal {
    ghost use Rattle.lb_command.specs.Outcomes.{refusal_status};

    /// E0: memory ran out.
    pub const MEMORY: Refusal = Refusal {
        number: 0,
        position: None,
        cause: None,
    };
    /// E20: the command line is not one that the program knows.
    pub const USAGE: Refusal = Refusal {
        number: 20,
        position: None,
        cause: None,
    };
    /// E21: an input could not be read, or is too long.
    pub const READ: Refusal = Refusal {
        number: 21,
        position: None,
        cause: None,
    };

    /// The exit status: 3 where memory, the output or an input failed, else 2.
    pub fn status(&self) -> u8
        ensures { result ≡ refusal_status self.now.number }
    {
        match self.number {
            0 | 19 | 21 => 3,
            _ => 2,
        }
    }
}

impl From<AllocError> for Refusal {
    ghost from_gives = { λ _ refusal. refusal.number ≡ 0 };

    fn from(_e: AllocError) -> Refusal {
        Refusal::MEMORY
    }
}

impl From<WordsError> for Refusal {
    ghost use Rattle.lb_command.specs.Outcomes.{IsToldWords};

    ghost from_gives = { λ cause refusal. IsToldWords cause refusal };

    fn from(cause: WordsError) -> Refusal {
        match cause {
            WordsError::Memory => Refusal::MEMORY,
            WordsError::Unlawful => Refusal::USAGE,
        }
    }
}

impl From<LoadError> for Refusal {
    ghost use Rattle.lb_command.specs.Outcomes.{load_number};

    ghost from_gives = { λ cause refusal. refusal.number ≡ load_number cause };

    fn from(cause: LoadError) -> Refusal {
        match cause {
            LoadError::Memory => Refusal::MEMORY,
            LoadError::Read => Refusal::READ,
        }
    }
}

impl Refusal {
    ghost use Rattle.lb_command.specs.Outcomes.{IsNoReportAt, IsToldBy, IsTwiceAt};
    ghost use Rattle.lb_command.specs.Outcomes.{IsUnknownName, IsUnreadAt};
    ghost use Rattle.lb_command.specs.declared.refusal.Cause.TheVariants as causes;

    /// The refusal of these texts by the bench.
    pub fn of_texts(error: BenchError, texts: Texts) -> Refusal
        ensures told { IsToldBy error result }
        ensures cause { result.cause ≡ Some (causes.Judged error texts) }
    {
        Refusal {
            number: error.number(),
            position: error.position(),
            cause: Some(Cause::Judged { error, texts }),
        }
    }

    /// E21: the file at this path could not be read. It has no cause where memory ran out.
    pub fn unread(alloc: Global, path: &str, why: &str) -> Refusal
        ensures number { result.number ≡ 21 }
        ensures position { result.position ≡ None }
        ensures cause { IfSome result.cause (IsUnreadAt path.now why.now) }
    {
        Refusal {
            number: 21,
            position: None,
            cause: match Unread::new(alloc, path, why) {
                Ok(unread) => Some(Cause::Unread(unread)),
                Err(_) => None,
            },
        }
    }

    /// E20: no trace, or no variable, has this name. It has no cause where memory ran out.
    pub fn unknown(alloc: Global, is_trace: bool, name: &str) -> Refusal
        ensures number { result.number ≡ 20 }
        ensures position { result.position ≡ None }
        ensures cause { IfSome result.cause (IsUnknownName is_trace name.now) }
    {
        Refusal {
            number: 20,
            position: None,
            cause: match String::from_str(alloc, name) {
                Ok(name) => Some(Cause::Unknown(Unknown { is_trace, name })),
                Err(_) => None,
            },
        }
    }

    /// E20: the file at this path is no report, as this line shows, counted from 1. It has no cause
    /// where memory ran out.
    pub fn no_report(alloc: Global, path: &str, line: usize) -> Refusal
        ensures number { result.number ≡ 20 }
        ensures position { result.position ≡ start_of line }
        ensures cause { IfSome result.cause (IsNoReportAt path.now line) }
    {
        Refusal {
            number: 20,
            position: start_of(line),
            cause: match String::from_str(alloc, path) {
                Ok(path) => Some(Cause::NoReport { path, line }),
                Err(_) => None,
            },
        }
    }

    /// E17: a trace in this line of the report at this path is in an earlier one too. It has no
    /// cause where memory ran out.
    pub fn twice(alloc: Global, path: &str, line: usize) -> Refusal
        ensures number { result.number ≡ 17 }
        ensures position { result.position ≡ start_of line }
        ensures cause { IfSome result.cause (IsTwiceAt path.now line) }
    {
        Refusal {
            number: 17,
            position: start_of(line),
            cause: match String::from_str(alloc, path) {
                Ok(path) => Some(Cause::Twice { path, line }),
                Err(_) => None,
            },
        }
    }

    /// E19: the output failed. `sent` bytes went out, of `all` where that is known.
    pub fn unsent(sent: usize, all: Option<usize>) -> Refusal
        ensures number { result.number ≡ 19 }
        ensures position { result.position ≡ None }
        ensures cause { result.cause ≡ Some (causes.Unsent sent all) }
    {
        Refusal {
            number: 19,
            position: None,
            cause: Some(Cause::Unsent { sent, all }),
        }
    }
}

impl From<FollowError> for Refusal {
    ghost use Rattle.lb_command.specs.Live.{stop_number};

    ghost from_gives = { λ cause refusal. (refusal.number ≡ stop_number cause)
        × (refusal.position ≡ None) };

    fn from(cause: FollowError) -> Refusal {
        match cause {
            FollowError::Memory { .. } => Refusal::MEMORY,
            FollowError::Write { count } => Refusal::unsent(count, None),
        }
    }
}
