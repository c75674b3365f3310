//! Marks on the elements of a program.

ghost use Rattle.std.specs.Prelude.{◌≡◌, ◌↔◌, ◌<◌, ℕ, true, false, length, get_or, All, IfOk};
ghost use Rattle.lb_syntax.specs.Lists.{In};
ghost use Rattle.lb_flat.specs.Programs.{numbers_of};

use lb_flat::ElementId;
use std::alloc::{AllocError, Global};

/// A table of `size` marks: whether each element is one of these.
pub(crate) fn marked_elements(
    alloc: Global,
    elements: &[ElementId],
    size: usize,
) -> Result<Vec<bool>, AllocError>
    requires { All (λ a. a.0 < size) elements.now }
    ensures as_long { IfOk result (λ marks. length marks.items ≡ size) }
    ensures marked { IfOk result (λ marks. (a : ℕ) →
        get_or marks.items a false ≡ true ↔ In a (numbers_of elements.now)) }
{
    let mut marks = vec![in alloc; false; size]?;
    for i in 0..elements.len() {
        marks[elements[i].0 as usize] = true;
    }
    Ok(marks)
}
