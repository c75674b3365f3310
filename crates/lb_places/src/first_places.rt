//! The place with which an explanation begins, as `pump.lus:14:13: error: `.

ghost use Rattle.std.specs.Prelude.{◌≡◌, ◌<◌, length, IfOk, IfSome};
ghost use Rattle.lb_places.specs.FirstPlaces as spec;

use crate::texts::Text;
use itoa::Buffer;
use lb_cause::CheckError;
use lb_flat::OrderError;
use lb_refusal::BenchError;
use lb_static::StaticError;
use lb_syntax::{SyntaxError, line_column};
use std::alloc::{AllocError, Global};

/// The offset of a broken rule of names, static values or instances, if the error holds one.
fn static_offset(error: &StaticError) -> Option<u32>
    ensures { result ≡ spec.static_offset error.now }
{
    match error {
        StaticError::Memory | StaticError::Instances(_) => None,
        StaticError::Name(fault) => Some(fault.offset.unwrap_or(0)),
        StaticError::Recursion(cycle) => match cycle.calls.as_slice() {
            [first, ..] => Some(first.offset),
            [] => None,
        },
        StaticError::Root(fault) => Some(fault.offset),
        StaticError::Value(fault) => Some(fault.offset),
        StaticError::Range(fault) => Some(fault.offset),
    }
}

/// The offset of a broken rule of types, clocks or definitions.
fn check_offset(error: &CheckError) -> Option<u32>
    ensures { result ≡ spec.check_offset error.now }
{
    match error {
        CheckError::Memory => None,
        CheckError::Type(fault) => Some(fault.offset),
        CheckError::Clock(fault) => Some(fault.offset),
        CheckError::Definition(fault) => Some(fault.offset),
    }
}

/// The offset of the first element that needs itself.
fn order_offset(error: &OrderError) -> Option<u32>
    ensures { result ≡ spec.order_offset error.now }
{
    match error {
        OrderError::Memory => None,
        OrderError::Cycle(cycle) => match cycle.places.as_slice() {
            [first, ..] => Some(first.offset),
            [] => None,
        },
    }
}

/// The line and the column of an offset, if there is one.
fn place_at(source: &[u8], offset: Option<u32>) -> Option<(u32, u32)>
    requires { length source.now < u32.MAX }
    ensures { result ≡ spec.place_at source.now offset }
{
    match offset {
        Some(offset) => {
            let place = line_column(source, offset);
            Some((place.line, place.column))
        }
        None => None,
    }
}

/// The line and the column that E1 to E3 hold.
fn syntax_place(error: &SyntaxError) -> Option<(u32, u32)>
    ensures { result ≡ spec.syntax_place error.now }
{
    match error {
        SyntaxError::Memory => None,
        SyntaxError::Character { line, column } => Some((*line, *column)),
        SyntaxError::Syntax { line, column } => Some((*line, *column)),
        SyntaxError::Size { line, column } => Some((*line, *column)),
    }
}

/// The line and the column of an error in the source, if the error holds its place.
fn place_in(source: &[u8], error: &BenchError) -> Option<(u32, u32)>
    requires { length source.now < u32.MAX }
    ensures { result ≡ spec.place_in source.now error.now }
{
    match error {
        BenchError::Memory | BenchError::Flat(_) | BenchError::Trace(_) => None,
        BenchError::Syntax(cause) => syntax_place(cause),
        BenchError::Static(cause) => place_at(source, static_offset(cause)),
        BenchError::Check(cause) => place_at(source, check_offset(cause)),
        BenchError::Order(cause) => place_at(source, order_offset(cause)),
    }
}

/// The beginning of the first line, as `pump.lus:14:13: error: `.
fn head(alloc: Global, name: &str, line: u32, column: u32) -> Result<Vec<u8>, AllocError>
    ensures { IfOk result (λ h. h.items ≡ spec.head name.now line column) }
{
    let mut bytes = Vec::from_slice(alloc, name.as_bytes())?;
    bytes.extend_from_slice(b":")?;
    bytes.extend_from_slice(Buffer::new().format(line).as_bytes())?;
    bytes.extend_from_slice(b":")?;
    bytes.extend_from_slice(Buffer::new().format(column).as_bytes())?;
    bytes.extend_from_slice(b": error: ")?;
    Ok(bytes)
}

/// The beginning of the first line, where the error holds its place in the source; else empty.
pub fn head_of(alloc: Global, source: &Text<'_>, error: &BenchError) -> Result<Vec<u8>, AllocError>
    ensures { length source.now.bytes.now < u32.MAX → IfOk result (λ h.
        IfSome (spec.place_in source.now.bytes.now error.now) (λ p.
        h.items ≡ spec.head source.now.name.now p.0 p.1)) }
{
    if source.bytes.len() >= u32::MAX as usize {
        return Ok(Vec::new(alloc));
    }
    match place_in(source.bytes, error) {
        Some((line, column)) => head(alloc, source.name, line, column),
        None => Ok(Vec::new(alloc)),
    }
}
