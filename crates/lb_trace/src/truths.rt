//! Four cells that are Booleans, read from eight bytes at once.

ghost use Rattle.std.specs.Prelude.{◌≡◌, ◌<◌, IfSome, IsTrue, drop, length};
ghost use Rattle.lb_trace.specs.TruthCells.{AreTruths, GoesOn};

use crate::fast_cells::bit_of;
use crate::header::Column;
use lb_syntax::Kind;
use std::simd::prelude::*;

/// The values of the first four cells, where their columns are Booleans, each cell is one digit,
/// and a comma stands after each. None says nothing of the text.
#[inline(always)]
pub(crate) fn four_cells(columns: &[Column], text: &[u8]) -> Option<[i32; 4]>
    ensures { IfSome result (λ values. (7 < length text.now) × (3 < length columns.now)
        × GoesOn columns.now text.now values (drop 4 columns.now) (drop 8 text.now)) }
{
    let [a, b, c, d, ..] = columns else {
        return None;
    };
    if !is_bool(a.kind) || !is_bool(b.kind) || !is_bool(c.kind) || !is_bool(d.kind) {
        return None;
    }
    if text.len() < 8 {
        return None;
    }
    if !are_truths(text) {
        return None;
    }
    Some([
        bit_of(text[0]),
        bit_of(text[2]),
        bit_of(text[4]),
        bit_of(text[6]),
    ])
}

/// Whether columns of a kind hold Booleans.
#[inline(always)]
pub(crate) fn is_bool(kind: Kind) -> bool
    ensures { IsTrue result → kind ≡ Kind.Bool }
{
    match kind {
        Kind::Bool => true,
        Kind::Int => false,
    }
}

// Whether the first eight bytes are four digits 0 or 1, each before a comma.
#[inline(always)]
fn are_truths(text: &[u8]) -> bool
    requires { 7 < length text.now }
    ensures { IsTrue result → AreTruths text.now }
{
    let bytes = u8x8::from_slice(text);
    let digits = u8x8::from_array([1, 0, 1, 0, 1, 0, 1, 0]);
    let wanted = u8x8::from_array([b'1', b',', b'1', b',', b'1', b',', b'1', b',']);
    (bytes | digits).simd_eq(wanted).to_bitmask() == 255
}
