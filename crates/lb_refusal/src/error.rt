//! Why there is no report.

ghost use Rattle.std.specs.Prelude.{◌≡◌, ◌<◌};
ghost use Rattle.lb_refusal.specs.Refusals as spec;

use crate::refusal::word;
use lb_cause::CheckError;
use lb_expand::FlatError;
use lb_flat::OrderError;
use lb_static::StaticError;
use lb_syntax::SyntaxError;
use lb_trace::TraceError;
use std::alloc::AllocError;
use std::fmt;
use thiserror::Error;

/// The number of a refusal of the text of the source.
fn syntax_number(cause: &SyntaxError) -> u8
    ensures { result ≡ spec.syntax_number cause.now }
{
    match cause {
        SyntaxError::Memory => 0,
        SyntaxError::Character { .. } => 1,
        SyntaxError::Syntax { .. } => 2,
        SyntaxError::Size { .. } => 3,
    }
}

/// The number of a refusal by a rule of names, static values and instances.
fn static_number(cause: &StaticError) -> u8
    ensures { result ≡ spec.static_number cause.now }
{
    match cause {
        StaticError::Memory => 0,
        StaticError::Name(_) => 4,
        StaticError::Recursion(_) => 7,
        StaticError::Root(_) => 8,
        StaticError::Value(_) => 5,
        StaticError::Range(_) => 6,
        StaticError::Instances(_) => 12,
    }
}

/// The number of a refusal by a rule of types, clocks or definitions.
fn check_number(cause: &CheckError) -> u8
    ensures { result ≡ spec.check_number cause.now }
{
    match cause {
        CheckError::Memory => 0,
        CheckError::Type(_) => 9,
        CheckError::Clock(_) => 10,
        CheckError::Definition(_) => 11,
    }
}

/// The number of a refusal of what a program expands to.
fn flat_number(cause: &FlatError) -> u8
    ensures { result ≡ spec.flat_number cause.now }
{
    match cause {
        FlatError::Memory => 0,
        FlatError::Large(_) => 12,
    }
}

/// The number of a refusal of equations that have no order.
fn order_number(cause: &OrderError) -> u8
    ensures { result ≡ spec.order_number cause.now }
{
    match cause {
        OrderError::Memory => 0,
        OrderError::Cycle(_) => 13,
    }
}

/// Why there is no report: the error of the part that refused.
#[derive(Error)]
pub enum BenchError {
    /// E0: memory ran out outside the parts below.
    #[error("out of memory")]
    Memory,
    /// E0 to E3: the text of the source.
    #[error(transparent)]
    Syntax(SyntaxError),
    /// E0, E4 to E8 and E12: names, static values and instances.
    #[error(transparent)]
    Static(StaticError),
    /// E0 and E9 to E11: types, clocks and definitions.
    #[error(transparent)]
    Check(CheckError),
    /// E0 and E12: the size of what the program expands to.
    #[error(transparent)]
    Flat(FlatError),
    /// E0 and E13: an element that needs itself at the same instant.
    #[error(transparent)]
    Order(OrderError),
    /// E0 and E14 to E18: the text of the traces.
    #[error(transparent)]
    Trace(TraceError),
}

// Not derived, so that a caller drops it in one step.
impl Drop for BenchError {
    fn drop(self) {
        match self {
            BenchError::Memory => {}
            BenchError::Syntax(_) => {}
            BenchError::Static(_) => {}
            BenchError::Check(_) => {}
            BenchError::Flat(_) => {}
            BenchError::Order(_) => {}
            BenchError::Trace(_) => {}
        }
    }
}

impl fmt::Debug for BenchError {
    fn fmt<W: fmt::Write>(&self, f: &mut fmt::Formatter<W>) -> fmt::Result {
        fmt::Display::fmt(self, f)
    }
}

impl From<AllocError> for BenchError {
    ghost use Rattle.lb_refusal.specs.declared.error.BenchError.TheVariants.{Memory};

    ghost from_gives = { λ _ e. e ≡ Memory };

    fn from(_e: AllocError) -> BenchError {
        BenchError::Memory
    }
}

impl From<SyntaxError> for BenchError {
    ghost use Rattle.lb_refusal.specs.declared.error.BenchError.TheVariants.{Syntax};

    ghost from_gives = { λ cause e. e ≡ Syntax cause };

    fn from(cause: SyntaxError) -> BenchError {
        BenchError::Syntax(cause)
    }
}

impl From<StaticError> for BenchError {
    ghost use Rattle.lb_refusal.specs.declared.error.BenchError.TheVariants.{Static};

    ghost from_gives = { λ cause e. e ≡ Static cause };

    fn from(cause: StaticError) -> BenchError {
        BenchError::Static(cause)
    }
}

impl From<CheckError> for BenchError {
    ghost use Rattle.lb_refusal.specs.declared.error.BenchError.TheVariants.{Check};

    ghost from_gives = { λ cause e. e ≡ Check cause };

    fn from(cause: CheckError) -> BenchError {
        BenchError::Check(cause)
    }
}

impl From<FlatError> for BenchError {
    ghost use Rattle.lb_refusal.specs.declared.error.BenchError.TheVariants.{Flat};

    ghost from_gives = { λ cause e. e ≡ Flat cause };

    fn from(cause: FlatError) -> BenchError {
        BenchError::Flat(cause)
    }
}

impl From<OrderError> for BenchError {
    ghost use Rattle.lb_refusal.specs.declared.error.BenchError.TheVariants.{Order};

    ghost from_gives = { λ cause e. e ≡ Order cause };

    fn from(cause: OrderError) -> BenchError {
        BenchError::Order(cause)
    }
}

impl From<TraceError> for BenchError {
    ghost use Rattle.lb_refusal.specs.declared.error.BenchError.TheVariants.{Trace};

    ghost from_gives = { λ cause e. e ≡ Trace cause };

    fn from(cause: TraceError) -> BenchError {
        BenchError::Trace(cause)
    }
}

impl BenchError {
    /// The number of the refusal, as 4 of E4.
    pub fn number(&self) -> u8
        ensures value { result ≡ spec.number_of self.now }
        ensures within { result < 22 }
    {
        match self {
            BenchError::Memory => 0,
            BenchError::Syntax(cause) => syntax_number(cause),
            BenchError::Static(cause) => static_number(cause),
            BenchError::Check(cause) => check_number(cause),
            BenchError::Flat(cause) => flat_number(cause),
            BenchError::Order(cause) => order_number(cause),
            BenchError::Trace(cause) => cause.number(),
        }
    }

    /// The word of the refusal.
    pub fn word(&self) -> &'static str
        ensures { result.now ≡ spec.word_of (spec.number_of self.now) }
    {
        word(self.number())
    }

    /// The line and the column of E1, E2 and E3, in bytes and from 1.
    pub fn position(&self) -> Option<(u32, u32)>
        ensures { result ≡ spec.position_of self.now }
    {
        match self {
            BenchError::Syntax(
                SyntaxError::Character { line, column }
                | SyntaxError::Syntax { line, column }
                | SyntaxError::Size { line, column },
            ) => Some((*line, *column)),
            _ => None,
        }
    }
}
