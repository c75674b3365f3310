//! Names of traces, one after the other in one text.

ghost use Rattle.std.specs.Prelude.{◌≡◌, ◌↔◌, IsTrue, ◌<◌, ◌≤◌, ◌++◌, ◌∷◌, [], length, get_or};
ghost use Rattle.std.specs.Prelude.{IfOk, OnOk, OnErr};
ghost use Rattle.lb_traces.specs.Traces.{IsTraceName, is_name_byte};

use std::alloc::{AllocError, Global};
use std::marker::Model;

/// Whether this is a lawful name of a trace: 1 to 64 bytes, each an ASCII letter or digit, `_`,
/// `-`, `.` or `/`.
pub fn is_trace_name(name: &[u8]) -> bool
    ensures { IsTrue result ↔ IsTraceName name.now }
{
    !name.is_empty() && name.len() <= 64 && name.iter().all(|b| is_name_byte(*b))
}

// Whether a name may have this byte.
fn is_name_byte(b: u8) -> bool
    ensures { result ≡ is_name_byte b }
{
    b.is_ascii_alphanumeric() || b == b'_' || b == b'-' || b == b'.' || b == b'/'
}

/// A list of names.
#[derive(Drop)]
pub(crate) struct Names {
    text: String,
    /// 0, and the place at which each name ends.
    ends: Vec<u32>,
}

impl Model for Names {
    ghost use Rattle.std.specs.Prelude.{List, ℕ, string_bytes};
    ghost use Rattle.lb_traces.specs.Ledger.{cut};
    ghost use Rattle.lb_traces.specs.Stored.{AreNames};

    ghost Value = { List (List ℕ) };

    ghost view = { λ n. cut n.ends.items (string_bytes n.text) };

    ghost invariant = { λ n. AreNames (string_bytes n.text) n.ends.items };
}

impl Names {
    /// No name yet.
    pub(crate) fn new(alloc: Global) -> Result<Names, AllocError>
        ensures { IfOk result (λ names. names ≡ []) }
    {
        let ends = Vec::from_slice(alloc, &[0])?;
        Ok(Names {
            text: String::new(alloc),
            ends,
        })
    }

    /// Adds a name at the end. Where memory is refused the names stay as they were.
    pub(crate) fn push(&mut self, name: &str) -> Result<(), AllocError>
        requires name { IsTraceName name.now }
        requires room { length self.old < 1000000 }
        ensures ok { OnOk result (self.new ≡ self.old ++ name.now ∷ []) }
        ensures err { OnErr result (self.new ≡ self.old) }
    {
        self.ends.reserve(1)?;
        self.text.push_str(name)?;
        let _ = self.ends.push(self.text.len() as u32);
        Ok(())
    }

    /// Drops all names, and keeps the memory.
    pub(crate) fn clear(&mut self)
        ensures { self.new ≡ [] }
    {
        self.text.clear();
        self.ends.clear();
        self.ends.push_reserved(0);
    }

    /// The number of names.
    pub(crate) fn len(&self) -> u32
        ensures count { result ≡ length self.now }
        ensures limit { result ≤ 1000000 }
    {
        (self.ends.len() - 1) as u32
    }

    /// The name at this place.
    pub(crate) fn get(&self, k: u32) -> &str
        requires { k < length self.now }
        ensures { result.now ≡ get_or self.now k [] }
    {
        let start = self.ends[k as usize] as usize;
        let end = self.ends[k as usize + 1] as usize;
        &self.text.as_str()[start..end]
    }
}
