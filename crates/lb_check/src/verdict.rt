//! The verdict of a trace.

/// The verdict of one trace, on the node under test or by its observer.
///
/// The first instant at which something goes wrong decides; at one instant a fault comes before
/// what is undefined, that before a failed assertion, and that before a false property. Instants
/// count from 0.
#[derive(Clone, Copy)]
pub enum Verdict {
    /// Nothing went wrong at any instant.
    Passed,
    /// An arithmetic fault occurred at this instant.
    Fault(u32),
    /// An assertion, the property or a variable that serves as a clock was nil at this instant: it
    /// depends on a memory before its first tick.
    Undefined(u32),
    /// An assertion was false at this instant: an assumption on the environment did not hold.
    Assertion(u32),
    /// The property was false at this instant.
    False(u32),
}
