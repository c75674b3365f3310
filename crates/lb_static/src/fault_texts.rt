//! The texts that an error holds.

ghost use Rattle.std.specs.Prelude.{◌≡◌, false, string_bytes};

use std::alloc::Global;

/// A copy of a text. Where memory is refused it is empty, and `is_refused` is set.
pub fn copy_of(alloc: Global, text: &str, is_refused: &mut bool) -> String
    ensures before { is_refused.new ≡ false → is_refused.old ≡ false }
    ensures copied { is_refused.new ≡ false → string_bytes result ≡ text.now }
{
    match String::from_str(alloc, text) {
        Ok(copy) => copy,
        Err(_) => {
            *is_refused = true;
            String::new(alloc)
        }
    }
}
