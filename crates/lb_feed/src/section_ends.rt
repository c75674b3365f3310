//! The places where the sections of a file begin and end.

ghost use Rattle.std.specs.Prelude.{◌≡◌, ◌≤◌, length};
ghost use Rattle.lb_feed.specs.SectionEnds.{start_of};

/// The place where section `i` of a file begins.
pub fn start_at(from: u64, ends: &[u64], i: usize) -> u64
    requires { i ≤ length ends.now }
    ensures { result ≡ start_of from ends.now i }
{
    if i == 0 { from } else { ends[i - 1] }
}
