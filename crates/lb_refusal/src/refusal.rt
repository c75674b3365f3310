//! The words of refusals.

ghost use Rattle.std.specs.Prelude.{◌≡◌, ◌<◌};
ghost use Rattle.lb_refusal.specs.Refusals as spec;

/// The word of a refusal's number, E0 to E21.
pub fn word(number: u8) -> &'static str
    requires { number < 22 }
    ensures { result.now ≡ spec.word_of number }
{
    match number {
        0 => "memory",
        1 => "character",
        2 => "syntax",
        3 => "size",
        4 => "name",
        5 => "constant",
        6 => "range",
        7 => "recursion",
        8 => "root",
        9 => "type",
        10 => "clock",
        11 => "definition",
        12 => "large",
        13 => "cycle",
        14 => "header",
        15 => "record",
        16 => "cell",
        17 => "trace",
        18 => "limit",
        19 => "write",
        20 => "usage",
        _ => "read",
    }
}
