//! The types that are found of the terms of a specialization.

ghost use Rattle.std.specs.Prelude.{◌≡◌, min, sum_by, OnOk};
ghost use Rattle.lb_check.specs.PlacedTypes as placed_mirror;

use lb_static::{part_of, size_product};
use lb_syntax::Kind;
use std::alloc::{AllocError, Global};

/// The greatest size of a program.
const MOST: u32 = 65536;

/// The type of a term.
#[derive(Clone, Copy)]
pub struct TermType {
    pub kind: Kind,
    /// The number of scalar elements of the term, or 65,537 for more than 65,536; of a call with
    /// several results, of all results.
    pub elements: u32,
    /// The place of the first size of its type, among the sizes of all terms.
    pub first: usize,
    /// The number of sizes of its type.
    pub rank: usize,
}

/// The types of the terms of a specialization, in text order. A call with several results, which
/// has no one type, counts as `int`.
#[derive(Drop)]
pub struct NodeTypes {
    pub terms: Vec<TermType>,
    /// The sizes of all types, one type behind another, of each the outermost last.
    pub sizes: Vec<u64>,
}

impl NodeTypes {
    /// The found types of no terms.
    pub(crate) fn none(alloc: Global) -> NodeTypes
        ensures { placed_mirror.found_in result ≡ placed_mirror.nothing_found }
    {
        NodeTypes {
            terms: Vec::new(alloc),
            sizes: Vec::new(alloc),
        }
    }

    /// Notes the kind of a term, its sizes and the number of its scalar elements.
    pub(crate) fn note(
        &mut self,
        kind: Kind,
        sizes: &[u64],
        elements: u32,
    ) -> Result<(), AllocError>
        ensures { OnOk result (placed_mirror.found_in self.new
            ≡ placed_mirror.with_row (placed_mirror.found_in self.old) kind sizes.now elements) }
    {
        self.terms.push(TermType {
            kind,
            elements,
            first: self.sizes.len(),
            rank: sizes.len(),
        })?;
        self.sizes.extend_from_slice(sizes)?;
        Ok(())
    }

    /// The number of scalar elements of all terms together, or 65,537 for more than 65,536.
    pub fn size(&self) -> u32
        ensures { result ≡ min (sum_by (λ t. t.elements) self.now.terms.items) 65537 }
    {
        let mut left = MOST + 1;
        for term in &self.terms {
            left = left.saturating_sub(term.elements);
        }
        MOST + 1 - left
    }

    /// The sizes of the type of a term, the outermost last; none for a term that is not there.
    pub fn sizes(&self, term: usize) -> &[u64]
        ensures { result.now ≡ placed_mirror.sizes_of (placed_mirror.found_in self.now) term }
    {
        match self.terms.get(term) {
            Some(found) => part_of(&self.sizes, found.first, found.rank),
            None => &[],
        }
    }

    /// The number of scalar elements in each element of a term that is an array, or 65,537 for more
    /// than 65,536.
    pub fn part_count(&self, term: usize) -> u32
        ensures { result ≡ placed_mirror.parts_of (placed_mirror.found_in self.now) term }
    {
        let sizes = self.sizes(term);
        size_product(&sizes[..sizes.len().saturating_sub(1)])
    }
}
