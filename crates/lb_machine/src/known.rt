//! Planes and words that are known without an instruction.

ghost use Rattle.std.specs.Prelude.{IfSome};
ghost use Rattle.lb_machine.specs.Knowing.{IsBlended, IsSelected};

use crate::instruction::{FALSE_PLANE, PlaneId, TRUE_PLANE, WordId};

/// The plane for `if mask then a else b`, if it is one of these three, or false everywhere.
pub(crate) fn known_choice(mask: PlaneId, a: PlaneId, b: PlaneId) -> Option<PlaneId>
    ensures { IfSome result (IsSelected mask a b) }
{
    if mask.0 == TRUE_PLANE.0 || a.0 == b.0 {
        Some(a)
    } else if mask.0 == FALSE_PLANE.0 {
        Some(b)
    } else if b.0 == FALSE_PLANE.0 && (a.0 == TRUE_PLANE.0 || a.0 == mask.0) {
        Some(mask)
    } else if b.0 == mask.0 && (a.0 == TRUE_PLANE.0 || a.0 == FALSE_PLANE.0) {
        Some(if a.0 == TRUE_PLANE.0 {
            mask
        } else {
            FALSE_PLANE
        })
    } else {
        None
    }
}

/// The word for `if mask then a else b`, if it is `a` or `b`.
pub(crate) fn known_blend(mask: PlaneId, a: WordId, b: WordId) -> Option<WordId>
    ensures { IfSome result (IsBlended mask a b) }
{
    if mask.0 == TRUE_PLANE.0 || a.0 == b.0 {
        Some(a)
    } else if mask.0 == FALSE_PLANE.0 {
        Some(b)
    } else {
        None
    }
}
