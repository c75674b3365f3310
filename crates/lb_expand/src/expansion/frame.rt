//! The meaning of the numbers in the resolved terms of an instance.

use lb_flat::{ClockId, Scalar};
use lb_static::{StaticId, VariableId};

/// The elements of a variable, which stand one after another.
#[derive(Clone, Copy)]
pub(crate) struct Elements {
    pub(crate) first: u32,
    pub(crate) count: u32,
}

/// How many inputs and outputs a called node has.
#[derive(Clone, Copy)]
pub(crate) struct Callee {
    pub(crate) inputs: usize,
    pub(crate) outputs: usize,
}

/// A place in the text of a node: how many terms and calls stand before it.
#[derive(Clone, Copy)]
pub(crate) struct Cursor {
    pub(crate) term: usize,
    pub(crate) call: usize,
}

/// The meaning of the numbers of an instance. Terms and calls are counted in text order.
pub(crate) trait Frame {
    ghost use Rattle.std.specs.Prelude.{◌≡◌, ◌<◌, ◌+◌, ◌^◌, ℕ, List};
    ghost use Rattle.std.specs.Option.{ForSome};
    ghost use Rattle.lb_flat.specs.declared.equation.Clock.{Clock};
    ghost use Rattle.lb_expand.specs.EmitTerms.{Context};
    ghost use Rattle.lb_expand.specs.Frames.{elements_of, AreBefore};
    ghost use Rattle.lb_flat.specs.Values.{clock_of, scalar_of};
    ghost use Rattle.lb_flat.specs.Within.{IsClock};

    /// The clocks of the program.
    ghost clocks: { Self → List Clock };

    /// How many elements are those of variables.
    ghost variables: { Self → ℕ };

    /// The meaning of the numbers.
    ghost context: { Self → Context };

    /// The elements of a variable.
    fn places(&self, variable: VariableId) -> Elements
        ensures places { elements_of result ≡ (context self.now).places variable.0 }
        ensures within { AreBefore (variables self.now) result };

    /// The clock of a variable.
    fn declared(&self, variable: VariableId) -> Option<ClockId>
        ensures clock { clock_of (clocks self.now) result
            ≡ (context self.now).declared variable.0 }
        ensures within { IsClock (clocks self.now) result };

    /// The clock of the instants at which a variable has this sign.
    fn sampled(&self, variable: VariableId, sign: bool) -> Option<ClockId>
        ensures clock { clock_of (clocks self.now) result
            ≡ (context self.now).sampled variable.0 sign }
        ensures within { IsClock (clocks self.now) result };

    /// The value of a static parameter or constant.
    fn value(&self, value: StaticId) -> Scalar
        ensures { scalar_of result ≡ (context self.now).value value.0 };

    /// The value of a static expression as a size or an index.
    fn count(&self, size: StaticId) -> u32
        ensures { result ≡ (context self.now).count size.0 };

    /// The clock of a term.
    fn clock(&self, term: usize) -> Option<ClockId>
        ensures clock { clock_of (clocks self.now) result ≡ (context self.now).clock term }
        ensures within { IsClock (clocks self.now) result };

    /// How many scalar elements each element of the array of a term has.
    fn parts(&self, term: usize) -> u32
        ensures { result ≡ (context self.now).parts term };

    /// The node that a call calls.
    fn callee(&self, call: usize) -> Option<Callee>
        ensures callee { result ≡ (context self.now).callee call }
        ensures room { ForSome result (λ node. node.inputs + node.outputs + 1 < 2 ^ 64) };

    /// How often a call is iterated.
    fn repeats(&self, call: usize) -> u32
        ensures { result ≡ (context self.now).repeats call };

    /// The elements of a variable of the instance that a call calls at an index.
    fn child(&self, call: usize, index: u32, variable: usize) -> Elements
        ensures places { elements_of result ≡ (context self.now).child call index variable }
        ensures within { AreBefore (variables self.now) result };

    /// The clock of an input of the instance that a call calls at an index.
    fn input(&self, call: usize, index: u32, variable: usize) -> Option<ClockId>
        ensures clock { clock_of (clocks self.now) result
            ≡ (context self.now).input call index variable }
        ensures within { IsClock (clocks self.now) result };
}

/// A frame that goes from row to row of the table of instances.
pub(crate) trait TableFrame: Frame {
    ghost use Rattle.std.specs.Prelude.{◌≡◌, ℕ, Bool, true};
    ghost use Rattle.lb_expand.specs.EmitTerms.{Context};

    /// Whether there is a row with a number.
    ghost is_row: { Self → ℕ → Bool };

    /// The meaning of the numbers in the row with a number.
    ghost contexts: { Self → ℕ → Context };

    /// Goes to the row with a number.
    fn enter(&mut self, row: usize)
        requires { is_row self.old row ≡ true }
        ensures context { Self.context self.new ≡ contexts self.old row }
        ensures rows { is_row self.new ≡ is_row self.old }
        ensures contexts { contexts self.new ≡ contexts self.old }
        ensures clocks { Self.clocks self.new ≡ Self.clocks self.old }
        ensures variables { Self.variables self.new ≡ Self.variables self.old };
}
