//! The signature of a program: the scalar input elements of the node under test, in order.

ghost use Rattle.std.specs.Prelude.{◌≡◌, ◌<◌, ◌≤◌, ◌++◌, ◌∷◌, [], ◌==◌, length, slice_get, Some};
ghost use Rattle.std.specs.Prelude.{OnOk, OnErr, IfOk, string_bytes};
ghost use Rattle.lb_static.specs.Signature.{names_of, kinds_of};

pub use lb_syntax::Kind;
use std::alloc::{AllocError, Global};
use std::marker::Model;

/// A scalar input element: its name, as `x` or `m[1][2]`, and its kind.
#[derive(Drop)]
struct Element {
    name: String,
    kind: Kind,
}

/// The scalar input elements of the node under test, in order; there are at most 1,023.
///
/// Contracts see a list of names (as bytes) and kinds.
#[derive(Drop)]
pub struct Signature {
    elements: Vec<Element>,
}

impl Model for Signature {
    ghost use Rattle.std.specs.Prelude.{◌≤◌, length, map, string_bytes};
    ghost use Rattle.lb_static.specs.Signature.{Elements};

    ghost Value = { Elements };

    ghost view = { λ s. map (λ e. (string_bytes e.name, e.kind)) s.elements.items };

    ghost invariant = { λ s. length s.elements.items ≤ 1023 };
}

impl Signature {
    /// The most scalar input elements that a node under test has.
    pub const MOST: u32 = 1023;

    /// A signature with no element yet.
    pub fn new(alloc: Global) -> Signature
        ensures { result ≡ [] }
    {
        Signature {
            elements: Vec::new(alloc),
        }
    }

    /// Adds an element at the end. Where memory is refused the signature stays as it was.
    pub fn push(&mut self, name: String, kind: Kind) -> Result<(), AllocError>
        requires { length self.old < 1023 }
        ensures ok { OnOk result (self.new ≡ self.old ++ (string_bytes name, kind) ∷ []) }
        ensures err { OnErr result (self.new ≡ self.old) }
    {
        self.elements.push(Element { name, kind })?;
        Ok(())
    }

    /// A copy of the signature.
    pub fn copy(&self, alloc: Global) -> Result<Signature, AllocError>
        ensures { IfOk result (λ copied. copied ≡ self.now) }
    {
        let mut copied = Signature::new(alloc);
        for element in &self.elements {
            let name = String::from_str(alloc, element.name.as_str())?;
            copied.push(name, element.kind)?;
        }
        Ok(copied)
    }

    /// The number of elements.
    pub fn len(&self) -> u32
        ensures count { result ≡ length self.now }
        ensures limit { result ≤ 1023 }
    {
        self.elements.len() as u32
    }

    /// Whether there is no element, as for a node with no inputs.
    pub fn is_empty(&self) -> bool
        ensures { result ≡ (length self.now == 0) }
    {
        self.elements.is_empty()
    }

    /// The kind of the element at place `i`.
    pub fn kind(&self, i: u32) -> Kind
        requires { i < length self.now }
        ensures { slice_get (kinds_of self.now) i ≡ Some result }
    {
        self.elements[i as usize].kind
    }

    /// The name of the element at place `i`, as `x` or `m[1][2]`.
    pub fn name(&self, i: u32) -> &str
        requires { i < length self.now }
        ensures { slice_get (names_of self.now) i ≡ Some result.now }
    {
        self.elements[i as usize].name.as_str()
    }
}
