//! Instructions over planes and lane words.
//!
//! ```text
//! 7 := if 4 then 5 else 6  Select(4, 5, 6, 7)
//! word 3 := 1 + 2         Operate(Add, 1, 2, 6, 7, 8, 3, 9), where none of planes 6 to 8 is true;
//!                         plane 9 is true where 7 or 8 is, and where there is a fault
//! ```

use lb_lanes::IntOperator;

/// A plane, 64 Booleans, by its number.
#[derive(Clone, Copy, Debug, PartialEq, Eq)]
pub struct PlaneId(pub u32);

/// A lane word, 64 integers, by its number.
#[derive(Clone, Copy, Debug, PartialEq, Eq)]
pub struct WordId(pub u32);

/// The plane that is false in each lane.
pub const FALSE_PLANE: PlaneId = PlaneId(0);

/// The plane that is true in each lane.
pub const TRUE_PLANE: PlaneId = PlaneId(1);

/// The word that is 0 in each lane.
pub const ZERO: WordId = WordId(0);

/// An operator on two planes.
#[derive(Clone, Copy, Debug, PartialEq, Eq)]
pub enum PlaneOperator {
    And,
    Or,
    Xor,
    /// The first one, and not the second.
    AndNot,
}

/// A test of two integers.
#[derive(Clone, Copy, Debug, PartialEq, Eq)]
pub enum Comparison {
    Equal,
    Below,
    AtMost,
}

/// A step that is done in all lanes alike. Its last planes and words are those that it writes.
#[derive(Clone, Copy)]
pub enum Instruction {
    /// The second plane where the first one is true, and the third elsewhere.
    Select(PlaneId, PlaneId, PlaneId, PlaneId),
    /// A test of two words.
    Compare(Comparison, WordId, WordId, PlaneId),
    /// An operator on two words, in the lanes where none of three planes is true. It writes its
    /// result, and a plane that is true where the second or the third is, or where it has a fault.
    Operate(IntOperator, WordId, WordId, PlaneId, PlaneId, PlaneId, WordId, PlaneId),
    /// The first word where the plane is true, and the second elsewhere.
    Blend(PlaneId, WordId, WordId, WordId),
    /// A test of the first two words. It writes a plane that is true where the test passes, and a
    /// word: the third where the test passes, and the fourth elsewhere.
    Choose(Comparison, WordId, WordId, WordId, WordId, PlaneId, WordId),
}
