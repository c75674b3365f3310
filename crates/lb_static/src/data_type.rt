//! Types, as values.

ghost use Rattle.std.specs.Prelude.{◌≡◌, ◌∷◌, [], ◌≤◌, option_map, min, map, take, drop, IfOk};
ghost use Rattle.lb_static.specs.DataTypes.{element_count, int, is_type, are_types, product};
ghost use Rattle.lb_static.specs.DataTypes.{total, truth};
ghost use Rattle.lb_static.specs.StoredTypes.{view_type, view_types, naturals};
ghost use Rattle.lb_static.specs.StoredTypes.{declared_type, declared_types};

use crate::resolved::Variable;
use crate::slices::part_of;
use crate::static_value::StaticInt;
use lb_syntax::Kind;
use std::alloc::{AllocError, Global};

/// The count of scalar elements that stands for every count above 65,536.
const TOO_MANY: u32 = 65_537;

/// A type: a kind and the sizes of an array of it, the outermost last; a scalar has none.
#[derive(PartialEq, Drop)]
pub struct DataType {
    pub kind: Kind,
    pub sizes: Vec<u64>,
}

/// Values as natural numbers, in their order, if none is negative.
fn naturals(alloc: Global, values: &[StaticInt]) -> Result<Option<Vec<u64>>, AllocError>
    ensures { IfOk result (λ o. option_map (λ numbers. numbers.items) o ≡ naturals values.now) }
{
    let mut numbers = Vec::with_capacity(alloc, values.len())?;
    for value in values {
        match value.natural() {
            Some(number) => numbers.push(number)?,
            None => return Ok(None),
        }
    }
    Ok(Some(numbers))
}

/// The number of scalar elements of an array of these sizes, or 65,537 for more than 65,536.
pub fn size_product(sizes: &[u64]) -> u32
    ensures { result ≡ min (product sizes.now) 65537 }
{
    let mut elements: u64 = 1;
    for size in sizes {
        elements = elements.saturating_mul(*size).min(u64::from(TOO_MANY));
    }
    elements as u32
}

impl DataType {
    /// A scalar of this kind.
    pub fn scalar(alloc: Global, kind: Kind) -> DataType
        ensures { view_type result ≡ record { kind = kind; sizes = [] } }
    {
        DataType {
            kind,
            sizes: Vec::new(alloc),
        }
    }

    /// The type of a variable, by the values of the static expressions of its node, or none where a
    /// size is negative.
    pub fn of(
        alloc: Global,
        variable: &Variable,
        statics: &[StaticInt],
    ) -> Result<Option<DataType>, AllocError>
        ensures { IfOk result (λ o.
            option_map view_type o ≡ declared_type statics.now variable.now) }
    {
        let kind = variable.kind;
        if variable.sizes == 0 {
            return Ok(Some(DataType::scalar(alloc, kind)));
        }
        let values = part_of(statics, variable.first_size.0, variable.sizes);
        match naturals(alloc, values)? {
            Some(sizes) => Ok(Some(DataType { kind, sizes })),
            None => Ok(None),
        }
    }

    /// Whether two types are the same.
    pub fn equals(&self, other: &DataType) -> bool
        ensures { result ≡ is_type (view_type self.now) (view_type other.now) }
    {
        self == other
    }

    /// Whether it is a scalar `int`.
    pub fn is_int(&self) -> bool
        ensures { result ≡ is_type (view_type self.now) int }
    {
        self.kind == Kind::Int && self.sizes.is_empty()
    }

    /// Whether it is a scalar `bool`.
    pub fn is_truth(&self) -> bool
        ensures { result ≡ is_type (view_type self.now) truth }
    {
        self.kind == Kind::Bool && self.sizes.is_empty()
    }

    /// The number of its scalar elements, or 65,537 for more than 65,536.
    pub fn element_count(&self) -> u32
        ensures { result ≡ min (element_count (view_type self.now)) 65537 }
    {
        size_product(&self.sizes)
    }

    /// A copy of the type.
    pub fn copy(&self) -> Result<DataType, AllocError>
        ensures { IfOk result (λ again. view_type again ≡ view_type self.now) }
    {
        Ok(DataType {
            kind: self.kind,
            sizes: self.sizes.clone()?,
        })
    }
}

/// The types of some variables of a node, by the values of its static expressions, or none where a
/// size is negative.
pub fn data_types(
    alloc: Global,
    variables: &[Variable],
    statics: &[StaticInt],
) -> Result<Option<Vec<DataType>>, AllocError>
    ensures { IfOk result (λ o.
        option_map view_types o ≡ declared_types statics.now variables.now) }
{
    let mut found = Vec::new(alloc);
    for variable in variables {
        match DataType::of(alloc, variable, statics)? {
            Some(data_type) => found.push(data_type)?,
            None => return Ok(None),
        }
    }
    Ok(Some(found))
}

/// Whether two lists hold the same types in the same order.
pub fn are_same(data_types: &[DataType], others: &[DataType]) -> bool
    ensures { result ≡ are_types (map view_type data_types.now) (map view_type others.now) }
{
    data_types == others
}

/// Whether there is one type, a scalar `bool`.
pub fn is_one_truth(data_types: &[DataType]) -> bool
    ensures { result ≡ are_types (map view_type data_types.now) (truth ∷ []) }
{
    match data_types {
        [data_type] => data_type.is_truth(),
        _ => false,
    }
}

/// The number of scalar elements of some types together, or 65,537 for more than 65,536.
pub fn element_count(data_types: &[DataType]) -> u32
    ensures { result ≡ min (total (map view_type data_types.now)) 65537 }
{
    let mut count: u32 = 0;
    for data_type in data_types {
        count = (count + data_type.element_count()).min(TOO_MANY);
    }
    count
}
