//! Products of 64 integers of 32 bits, under a plane of active lanes.
//!
//! Where all operands are small their products fit 32 bits. Else each product is exact in 64 bits.
//! With 2 ^ 31 added, its upper half is 0 just where the product is in the range of `int`. One look
//! at the union of the upper halves shows whether all products are:
//!
//! ```text
//! product    ffffffff_fffffff6    00000000_00000014    00000001_00000000
//! + 2 ^ 31   00000000_7ffffff6    00000000_80000014    00000001_80000000
//! upper      00000000           | 00000000           | 00000001          = 00000001
//! ```
//!
//! Lanes that are not active are made 0 afterwards. Only where some product is out of the range, a
//! second pass finds which: there a lane that is not active counts as 0.

ghost use Rattle.std.specs.Prelude.{◌≡◌, ℕ, ◌<◌, ◌==◌, IsTrue, ◌*ℤ◌, slice_index};
ghost use Rattle.std.specs.Int.{cast_signed, w32};
ghost use Rattle.lb_lanes.specs.Kernels.{IsKernelBelow, bits_lane, lanes_in};
ghost use Rattle.lb_lanes.specs.Operators.{is_int, product_of};

use crate::width::Width;
use crate::word_kernels::{blend, keep};
use crate::word_tests::{Equal, tested};

// A product of two integers, and a word. The product is right where the word is below 2 ^ 16: then
// both integers lie from -32768 to 32767, so that the product fits 32 bits.
fn small_product(x: u32, y: u32) -> (u32, u32)
    ensures { result.1 < 65536
        → cast_signed w32 result.0 ≡ cast_signed w32 x *ℤ cast_signed w32 y }
{
    let raised = x.wrapping_add(32768).max(y.wrapping_add(32768));
    (x.wrapping_mul(y), raised)
}

// Puts the products in 32 bits into `out`, and returns whether all operands are small.
fn multiply_small(a: &[u32; 64], b: &[u32; 64], width: Width, out: &mut [u32; 64]) -> bool
    ensures { IsTrue result → (i : ℕ) → i < lanes_in width
        → bits_lane out.new i ≡ bits_lane a.now i *ℤ bits_lane b.now i }
{
    let mut largest = 0u32;
    for i in 0..16 * width.chunks {
        let (value, raised) = small_product(a[i], b[i]);
        largest = largest.max(raised);
        out[i] = value;
    }
    largest < 65536
}

// The low 32 bits of a product, and a word that is 0 just where the product is in the range of
// `int`.
fn product(x: u32, y: u32) -> (u32, u32)
    ensures value { IsTrue (is_int (cast_signed w32 x *ℤ cast_signed w32 y))
        → cast_signed w32 result.0 ≡ cast_signed w32 x *ℤ cast_signed w32 y }
    ensures look { (result.1 == 0) ≡ is_int (cast_signed w32 x *ℤ cast_signed w32 y) }
{
    let exact = (i64::from(x.cast_signed()) * i64::from(y.cast_signed())).cast_unsigned();
    let low = (exact % 4294967296) as u32;
    let raised = exact.wrapping_add(2147483648);
    (low, (raised >> 32u64) as u32)
}

// Puts the products' low 32 bits into `out`, and returns whether all products are in the range of
// `int`.
fn multiply_wide(a: &[u32; 64], b: &[u32; 64], width: Width, out: &mut [u32; 64]) -> bool
    ensures { IsTrue result → (i : ℕ) → i < lanes_in width
        → bits_lane out.new i ≡ bits_lane a.now i *ℤ bits_lane b.now i }
{
    let mut look = 0u32;
    for i in 0..16 * width.chunks {
        let (low, beyond) = product(a[i], b[i]);
        look |= beyond;
        out[i] = low;
    }
    look == 0
}

// Puts the products into `out`, and returns whether all are in the range of `int`.
fn multiply(a: &[u32; 64], b: &[u32; 64], width: Width, out: &mut [u32; 64]) -> bool
    ensures { IsTrue result → (i : ℕ) → i < lanes_in width
        → bits_lane out.new i ≡ bits_lane a.now i *ℤ bits_lane b.now i }
{
    // Where the operands of lane 0 are large, others mostly are, too.
    if small_product(a[0], b[0]).1 < 65536 && multiply_small(a, b, width, out) {
        return true;
    }
    multiply_wide(a, b, width, out)
}

// Puts the products' low 32 bits into `lanes`, the first operands, and into `beyond` words that are
// 0 just where the product is in the range of `int`.
fn multiply_apart(lanes: &mut [u32; 64], by: &[u32; 64], width: Width, beyond: &mut [u32; 64])
    ensures values { (i : ℕ) → i < lanes_in width
        → IsTrue (is_int (bits_lane lanes.old i *ℤ bits_lane by.now i))
        → bits_lane lanes.new i ≡ bits_lane lanes.old i *ℤ bits_lane by.now i }
    ensures beyond { (i : ℕ) → i < lanes_in width
        → (slice_index beyond.new i == 0)
        ≡ is_int (bits_lane lanes.old i *ℤ bits_lane by.now i) }
{
    for i in 0..16 * width.chunks {
        let (low, upper) = product(lanes[i], by[i]);
        beyond[i] = upper;
        lanes[i] = low;
    }
}

// Puts the products into `out`, where some are out of the range of `int`, and returns the faults.
fn run_apart(a: &[u32; 64], b: &[u32; 64], active: u64, width: Width, out: &mut [u32; 64]) -> u64
    ensures { IsKernelBelow (lanes_in width) product_of (bits_lane a.now) (bits_lane b.now) active
        (bits_lane out.new) result }
{
    let mut products = [0u32; 64];
    blend(active, a, &[0; 64], width, &mut products);
    let mut beyond = [0u32; 64];
    multiply_apart(&mut products, b, width, &mut beyond);
    let within = tested::<Equal>(&beyond, &[0; 64], width);
    blend(within, &products, &[0; 64], width, out);
    !within
}

// Puts the products into `out`, and returns the faults.
pub(crate) fn run_product(
    a: &[u32; 64],
    b: &[u32; 64],
    active: u64,
    width: Width,
    out: &mut [u32; 64],
) -> u64
    ensures { IsKernelBelow (lanes_in width) product_of (bits_lane a.now) (bits_lane b.now) active
        (bits_lane out.new) result }
{
    if multiply(a, b, width, out) {
        keep(active, width, out);
        return 0;
    }
    run_apart(a, b, active, width, out)
}
