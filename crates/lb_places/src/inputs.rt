//! The input that a column of a trace text is of.

ghost use Rattle.std.specs.Prelude.{◌≡◌, ◌<◌, length, slice_get, IfSome, Some};
ghost use Rattle.lb_static.specs.Signature.{names_of};

use lb_static::Signature;

/// The number of the input with a name, if there is one.
pub fn input_named(signature: &Signature, name: &[u8]) -> Option<u32>
    ensures within { IfSome result (λ i. i < length signature.now) }
    ensures named { IfSome result (λ i. slice_get (names_of signature.now) i ≡ Some name.now) }
{
    for i in 0..signature.len() {
        if signature.name(i).as_bytes() == name {
            return Some(i);
        }
    }
    None
}
