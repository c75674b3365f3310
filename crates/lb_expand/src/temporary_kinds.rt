//! The kinds of the temporaries, which are no elements of variables, equation by equation.

ghost use Rattle.std.specs.Prelude.{◌≡◌, ◌++◌, List, map, OnOk};
ghost use Rattle.lb_expand.specs.EquationKinds.{equation_kind};
ghost use Rattle.lb_flat.specs.TemporaryKinds as mirror;
ghost use Rattle.lb_flat.specs.Values.{equation_of, operation_of, scalar_of};
ghost use Rattle.lb_flat.specs.declared.equation.Clock.{Clock};

use lb_flat::{ElementId, Equation, Operation, Scalar};
use lb_syntax::{BinaryOperator, Kind, OperatorClass, UnaryOperator};
use std::alloc::AllocError;

/// The kind of an element; `int` where it has none yet.
fn kind_at(kinds: &[Kind], element: ElementId) -> Kind
    ensures { result ≡ mirror.kind_among kinds.now element.0 }
{
    kinds.get(element.0 as usize).copied().unwrap_or(Kind::Int)
}

/// The kind of a constant.
fn scalar_kind(value: Scalar) -> Kind
    ensures { result ≡ mirror.scalar_kind (scalar_of value) }
{
    match value {
        Scalar::Boolean(_) => Kind::Bool,
        _ => Kind::Int,
    }
}

/// The kind of the result of an operator with one operand.
fn unary_kind(operator: UnaryOperator) -> Kind
    ensures { result ≡ mirror.unary_result operator }
{
    match operator {
        UnaryOperator::Not => Kind::Bool,
        UnaryOperator::Negate => Kind::Int,
    }
}

/// The kind of the result of an operator with two operands.
fn binary_kind(operator: BinaryOperator) -> Kind
    ensures { result ≡ mirror.binary_result operator }
{
    match operator.class() {
        OperatorClass::Arithmetic => Kind::Int,
        OperatorClass::Logical | OperatorClass::Equality | OperatorClass::Order => Kind::Bool,
    }
}

/// The kind of the result of an operation, from the kinds of the elements that it reads or keeps.
fn operation_kind(kinds: &[Kind], operation: Operation) -> Kind
    ensures { result ≡ mirror.operation_kind (mirror.kind_among kinds.now)
        (operation_of operation) }
{
    match operation {
        Operation::Input(_) => Kind::Int,
        Operation::Constant(value) => scalar_kind(value),
        Operation::ApplyUnary(operator, _) => unary_kind(operator),
        Operation::ApplyBinary(operator, _, _) => binary_kind(operator),
        Operation::Copy(a)
        | Operation::Choose(_, a, _)
        | Operation::FirstThen(_, a, _)
        | Operation::Previous(_, a)
        | Operation::Latest(_, a)
        | Operation::Sample(a) => kind_at(kinds, a),
    }
}

/// The kind of the element that an equation gives.
#[tactic(auto, unfolding(crate::specs::EquationKinds::equation_kind))]
fn equation_kind(kinds: &[Kind], equation: &Equation) -> Kind
    ensures { result ≡ equation_kind kinds.now equation.now }
{
    operation_kind(kinds, equation.operation)
}

/// Adds the kinds of the elements that these equations give one after another.
pub(crate) fn temporary_kinds(
    kinds: &mut Vec<Kind>,
    equations: &[Equation],
) -> Result<(), AllocError>
    ensures { OnOk result ((clocks : List Clock) → kinds.new.items ≡ kinds.old.items
        ++ mirror.kinds_from kinds.old.items (map (equation_of clocks) equations.now)) }
{
    for equation in equations {
        let kind = equation_kind(kinds, equation);
        kinds.push(kind)?;
    }
    Ok(())
}
