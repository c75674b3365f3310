//! The types of arrays.

ghost use Rattle.std.specs.Prelude.{◌≡◌, ◌&&◌, is_some, nat_le, option_map, IfOk};
ghost use Rattle.lb_syntax.specs.Lists as lists;
ghost use Rattle.lb_static.specs.StoredTypes.{view_type};
ghost use Rattle.lb_check.specs.Types as types;

use lb_static::DataType;
use std::alloc::AllocError;

/// The most elements of an array.
const LONGEST: u64 = 4096;

/// Whether an array may have this length.
#[inline(always)]
pub fn is_length(size: u64) -> bool
    ensures { result ≡ (nat_le 1 size && nat_le size 4096) }
{
    1 <= size && size <= LONGEST
}

/// The type of an array of this length, where it may have it.
#[inline(always)]
#[tactic(auto, using(crate::proofs::typing::TypeRows::outermost))]
pub fn array_of(size: u64, element: DataType) -> Result<Option<DataType>, AllocError>
    ensures { IfOk result (λ o.
        option_map view_type o ≡ types.array_of size (view_type element)) }
{
    if !is_length(size) {
        return Ok(None);
    }
    let mut array = element;
    array.sizes.push(size)?;
    Ok(Some(array))
}

/// Whether there is an array of this length with elements of this type.
pub fn is_array(size: u64, element: &Option<DataType>) -> bool
    ensures { result ≡ is_some
        (lists.◌>>=◌ (option_map view_type element.now) (types.array_of size)) }
{
    match element {
        Some(_) => is_length(size),
        None => false,
    }
}

/// The type of an element at this index.
#[inline(always)]
#[tactic(auto, using(crate::proofs::typing::TypeRows::outermost))]
pub fn index_type(index: u64, array: DataType) -> Option<DataType>
    ensures { option_map view_type result ≡ types.index_type index (view_type array) }
{
    let mut element = array;
    let size = element.sizes.pop()?;
    if index < size { Some(element) } else { None }
}

/// The type of a slice with these ends.
#[inline(always)]
#[tactic(auto, using(crate::proofs::typing::TypeRows::outermost))]
pub fn slice_type(start: u64, end: u64, array: DataType) -> Result<Option<DataType>, AllocError>
    ensures { IfOk result (λ o.
        option_map view_type o ≡ types.slice_type start end (view_type array)) }
{
    let mut element = array;
    let Some(size) = element.sizes.pop() else {
        return Ok(None);
    };
    if start <= end && end < size {
        array_of(end - start + 1, element)
    } else {
        Ok(None)
    }
}

/// The type of two arrays that are joined.
#[inline(always)]
#[tactic(auto, using(crate::proofs::typing::TypeRows::outermost))]
pub fn join_type(left: DataType, right: DataType) -> Result<Option<DataType>, AllocError>
    ensures { IfOk result (λ o.
        option_map view_type o ≡ types.join_type (view_type left) (view_type right)) }
{
    let mut first = left;
    let mut second = right;
    let (Some(m), Some(n)) = (first.sizes.pop(), second.sizes.pop()) else {
        return Ok(None);
    };
    if !first.equals(&second) || LONGEST < m || LONGEST < n {
        return Ok(None);
    }
    array_of(m + n, second)
}

/// The type of an array of this length, if that is known.
#[inline(always)]
pub fn replicate_type(size: Option<u64>, element: DataType) -> Result<Option<DataType>, AllocError>
    ensures { IfOk result (λ o.
        option_map view_type o ≡ lists.◌>>=◌ size (λ n. types.array_of n (view_type element))) }
{
    match size {
        Some(size) => array_of(size, element),
        None => Ok(None),
    }
}

/// The type of an element at this index, if that is known.
pub fn element_type(index: Option<u64>, array: DataType) -> Option<DataType>
    ensures { option_map view_type result
        ≡ lists.◌>>=◌ index (λ i. types.index_type i (view_type array)) }
{
    index_type(index?, array)
}

/// The type of a slice with these ends, if they are known.
#[inline(always)]
pub fn part_type(
    start: Option<u64>,
    end: Option<u64>,
    array: DataType,
) -> Result<Option<DataType>, AllocError>
    ensures { IfOk result (λ o. option_map view_type o
        ≡ lists.◌>>=◌ start (λ i. lists.◌>>=◌ end (λ j.
        types.slice_type i j (view_type array)))) }
{
    match (start, end) {
        (Some(start), Some(end)) => slice_type(start, end, array),
        _ => Ok(None),
    }
}
