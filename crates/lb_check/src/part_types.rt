//! The types that are kept of the parts of a term while they are found, up to a number of scalar
//! elements.

ghost use Rattle.std.specs.Prelude.{◌≡◌, min, option_map, IfOk, OnOk, []};
ghost use Rattle.lb_syntax.specs.Lists as lists;
ghost use Rattle.lb_syntax.specs.Lists.{all_some};
ghost use Rattle.lb_static.specs.DataTypes.{element_count};
ghost use Rattle.lb_static.specs.StoredTypes.{view_type};
ghost use Rattle.lb_check.specs.PlacedTypes as placed_mirror;
ghost use Rattle.lb_check.specs.TermSignatures as mirror;
ghost use Rattle.lb_check.specs.Types as types;

use crate::signature::{TypeRow, only_given};
use lb_static::DataType;
use lb_syntax::Kind;
use std::alloc::{AllocError, Global};

/// One more than the most scalar elements of a program: this number stands for any greater one.
const TOO_MANY: u32 = 65_537;

/// A part that is kept: its type, and the number of its scalar elements.
#[derive(Drop)]
pub struct PartType {
    /// The type of the one result, or `int` where there is another number of results.
    pub data_type: DataType,
    /// The number of scalar elements of all results, or 65,537 for more than 65,536.
    pub elements: u32,
}

/// The parts found so far, against the order of the text.
#[derive(Drop)]
pub struct PartTypes {
    /// The number of scalar elements that are left before they are too many. At 0 no part is kept.
    pub left: u32,
    pub found: Vec<PartType>,
}

/// The number of scalar elements of the types of a row together: 65,537 for more than 65,536, and 0
/// where one of the types is not there.
fn given_size(alloc: Global, given: &TypeRow) -> Result<u32, AllocError>
    ensures { IfOk result (λ n. n
        ≡ placed_mirror.part_size (all_some (mirror.row_in given.now))) }
{
    let mut count: u32 = 0;
    for place in 0..given.len() {
        match given.get(alloc, place)? {
            Some(data_type) => count = (count + data_type.element_count()).min(TOO_MANY),
            None => return Ok(0),
        }
    }
    Ok(count)
}

impl PartTypes {
    /// Parts that are kept until they have more than 65,536 scalar elements.
    pub fn all(alloc: Global) -> PartTypes
        ensures { placed_mirror.kept_in result ≡ record { left = 65537; found = [] } }
    {
        PartTypes {
            left: TOO_MANY,
            found: Vec::new(alloc),
        }
    }

    /// Parts of which none is kept.
    pub fn none(alloc: Global) -> PartTypes
        ensures { placed_mirror.kept_in result ≡ record { left = 0; found = [] } }
    {
        PartTypes {
            left: 0,
            found: Vec::new(alloc),
        }
    }

    /// Adds a part.
    #[inline(always)]
    fn note(&mut self, data_type: &DataType, elements: u32) -> Result<(), AllocError>
        ensures { OnOk result (placed_mirror.kept_in self.new
            ≡ placed_mirror.noted_part (placed_mirror.kept_in self.old)
            (record { data_type = view_type data_type.now; elements = elements })) }
    {
        self.left = self.left.saturating_sub(elements);
        if self.left == 0 {
            self.found.clear();
        } else {
            self.found.push(PartType {
                data_type: data_type.copy()?,
                elements,
            })?;
        }
        Ok(())
    }

    /// The number of scalar elements with which a part of this type counts; they are not counted
    /// where no part is kept.
    fn counted(&self, data_type: &DataType) -> u32
        ensures { placed_mirror.IsCounted self.now.left result
            (min (element_count (view_type data_type.now)) 65537) }
    {
        if self.left == 0 {
            0
        } else {
            data_type.element_count()
        }
    }

    /// Adds a part whose one result has this type, if it has one.
    #[inline(always)]
    pub fn note_one(&mut self, alloc: Global, own: &Option<DataType>) -> Result<(), AllocError>
        ensures { OnOk result (placed_mirror.kept_in self.new
            ≡ placed_mirror.noted (placed_mirror.kept_in self.old)
            (types.singly (option_map view_type own.now))) }
    {
        match own {
            Some(own) => {
                let elements = self.counted(own);
                self.note(own, elements)
            }
            None => self.note(&DataType::scalar(alloc, Kind::Int), 0),
        }
    }

    /// The number of scalar elements with which the results of a part count; they are not counted
    /// where no part is kept.
    fn given_counted(&self, alloc: Global, given: &Option<TypeRow>) -> Result<u32, AllocError>
        ensures { IfOk result (λ n. placed_mirror.IsCounted self.now.left n
            (placed_mirror.part_size
            (lists.◌>>=◌ (option_map mirror.row_in given.now) all_some))) }
    {
        if self.left == 0 {
            return Ok(0);
        }
        match given {
            Some(given) => given_size(alloc, given),
            None => Ok(0),
        }
    }

    /// Adds a part whose results have these types, if it has any, and returns its one type.
    pub fn note_given(
        &mut self,
        alloc: Global,
        given: &Option<TypeRow>,
    ) -> Result<Option<DataType>, AllocError>
        ensures one { IfOk result (λ o. option_map view_type o ≡ lists.◌>>=◌ (lists.◌>>=◌
            (option_map mirror.row_in given.now) all_some) types.only) }
        ensures noted { OnOk result (placed_mirror.kept_in self.new
            ≡ placed_mirror.noted (placed_mirror.kept_in self.old)
            (lists.◌>>=◌ (option_map mirror.row_in given.now) all_some)) }
    {
        let elements = self.given_counted(alloc, given)?;
        match only_given(alloc, given)? {
            Some(own) => {
                self.note(&own, elements)?;
                Ok(Some(own))
            }
            None => {
                self.note(&DataType::scalar(alloc, Kind::Int), elements)?;
                Ok(None)
            }
        }
    }
}
