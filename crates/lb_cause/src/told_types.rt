//! The types that an error of types tells (E9).

use crate::type_fault::SourceType;
use crate::type_reason::Typed;
use lb_check::{PartTypes, SideTypes, TypeEnv, TypeRow, side_types};
use lb_static::{DataType, Term};
use std::alloc::{AllocError, Global};

/// Adds a type as it is written.
fn add_type(types: &mut Vec<SourceType>, data_type: DataType) -> Result<(), AllocError> {
    let DataType { kind, sizes } = data_type;
    types.push(SourceType { kind, sizes })?;
    Ok(())
}

/// Adds the types of a row, or the one at the place `only` alone, and returns whether all types of
/// the row are there; else there are none.
fn add_row(
    alloc: Global,
    row: &TypeRow,
    only: Option<usize>,
    types: &mut Vec<SourceType>,
) -> Result<bool, AllocError> {
    for place in 0..row.len() {
        let Some(data_type) = row.get(alloc, place)? else {
            types.clear();
            return Ok(false);
        };
        if place == only.unwrap_or(place) {
            add_type(types, data_type)?;
        }
    }
    Ok(true)
}

/// Adds the types of the results of a right side, or of the one at the place `only` alone, and
/// returns whether the right side keeps the rules of types; else it has none.
pub fn add_results(
    alloc: Global,
    env: &TypeEnv,
    term: &Term,
    only: Option<usize>,
    types: &mut Vec<SourceType>,
) -> Result<bool, AllocError> {
    match side_types(alloc, env, term, &mut PartTypes::none(alloc))? {
        SideTypes::Single(Some(data_type)) => {
            add_type(types, data_type)?;
            Ok(true)
        }
        SideTypes::Several(Some(given)) => add_row(alloc, &given, only, types),
        _ => Ok(false),
    }
}

/// Adds the types of this source.
pub fn tell(
    alloc: Global,
    env: &TypeEnv,
    typed: Typed,
    types: &mut Vec<SourceType>,
) -> Result<(), AllocError> {
    let told = match typed {
        Typed::Nothing => None,
        Typed::Scalar(kind) => Some(DataType::scalar(alloc, kind)),
        Typed::Variable(x) => env.variable(alloc, x)?,
        Typed::Input(row, place) => row.get(alloc, place)?,
        Typed::Results(term, only) => {
            add_results(alloc, env, term, only, types)?;
            None
        }
    };
    match told {
        Some(data_type) => add_type(types, data_type),
        None => Ok(()),
    }
}

/// Tells the one type of this source, if it has one.
pub fn tell_one(
    alloc: Global,
    env: &TypeEnv,
    typed: Typed,
    told: &mut Option<SourceType>,
) -> Result<(), AllocError> {
    let mut types = Vec::new(alloc);
    tell(alloc, env, typed, &mut types)?;
    *told = types.pop();
    Ok(())
}
