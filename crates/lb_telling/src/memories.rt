//! The expressions that make the memories of a flat program: `pre`, `fby` and `current`.
//!
//! A flat program has its memories in the order of the text, instance by instance, and those of an
//! operand before those of the form round it. A form makes a memory for each of its elements:
//!
//! ```text
//! #(pre a, pre (pre [b, c])[0])    memory 0: pre a    1, 2: pre [b, c]    3, 4: pre (pre [b, c])
//! ```

use crate::arguments::open_parts;
use crate::site::{Site, Subject};
use lb_check::NodeTypes;
use lb_flat::{ElementId, Operation};
use lb_static::Term;
use std::alloc::{AllocError, Global};

/// The most times that the expressions of a statement are looked at.
const MOST_LOOKS: usize = 1_000_000;

/// An expression that is still to be looked at.
#[derive(Clone, Copy)]
struct Pending<'a> {
    site: Site<'a>,
    /// The place of its term among those of its node, once its parts were looked at.
    place: Option<usize>,
}

/// A walk through the expressions of a program, in the order of its memories.
#[derive(Drop)]
struct Walk<'a> {
    /// The expressions of a statement that are still to be looked at, the next one last.
    pending: Vec<Pending<'a>>,
    /// The parts of one expression; none between two looks.
    parts: Vec<Site<'a>>,
    /// The place of the next term among those of its node.
    next: usize,
    /// The number of memories that still come before the one that is looked for.
    left: u32,
}

/// Whether a term makes memories.
fn is_memory(term: &Term) -> bool {
    matches!(term, Term::Pre(_) | Term::Fby(_, _) | Term::Current(_))
}

impl<'a> Walk<'a> {
    /// Puts an expression behind its parts, the first of which comes next.
    fn begin(&mut self, site: Site<'a>) -> Result<(), AllocError> {
        let place = Some(self.next);
        self.pending.push(Pending { site, place })?;
        self.next = self.next.saturating_add(1);
        open_parts(&mut self.parts, site)?;
        for _ in 0..self.parts.len() {
            if let Some(site) = self.parts.pop() {
                self.pending.push(Pending { site, place: None })?;
            }
        }
        Ok(())
    }

    /// Passes the memories that the term at a place makes; returns whether the one that is looked
    /// for is among them.
    fn pass(&mut self, term: &Term, place: usize, types: &NodeTypes) -> bool {
        if !is_memory(term) {
            return false;
        }
        let count = match types.terms.get(place) {
            Some(found) => found.elements,
            None => 0,
        };
        if self.left < count {
            return true;
        }
        self.left = self.left.saturating_sub(count);
        false
    }

    /// The expression in a statement that makes the memory that is looked for, if one does.
    fn through(
        &mut self,
        whole: Site<'a>,
        types: &NodeTypes,
    ) -> Result<Option<Site<'a>>, AllocError> {
        self.pending.push(Pending {
            site: whole,
            place: None,
        })?;
        for _ in 0..MOST_LOOKS {
            let Some(Pending { site, place }) = self.pending.pop() else {
                return Ok(None);
            };
            match place {
                None => self.begin(site.ungrouped())?,
                Some(place) => {
                    if self.pass(site.term, place, types) {
                        return Ok(Some(site));
                    }
                }
            }
        }
        Ok(None)
    }
}

impl<'a, 's> Subject<'a, 's> {
    /// The number of memories that come before an element.
    fn memories_before(&self, element: ElementId) -> u32 {
        let mut count: u32 = 0;
        for q in &self.program.equations {
            if let Operation::Previous(_, _) | Operation::Latest(_, _) = q.operation {
                if q.element.0 < element.0 {
                    count = count.saturating_add(1);
                }
            }
        }
        count
    }

    /// The expression in the node of an instance that makes the memory that a walk looks for, if
    /// one does.
    fn memory_in(&self, walk: &mut Walk<'a>, row: usize) -> Result<Option<Site<'a>>, AllocError> {
        let Some(instance) = self.elab.table().instances.get(row) else {
            return Ok(None);
        };
        let Some(types) = self.checked.term_types(instance.specialization) else {
            return Ok(None);
        };
        let Some(node) = self.node(row) else {
            return Ok(None);
        };
        walk.next = 0;
        for place in 0..node.body.len() {
            if let Some(placed) = self.placed(row, place) {
                if let Some(site) = walk.through(placed.site, types)? {
                    return Ok(Some(site));
                }
            }
        }
        Ok(None)
    }

    /// The expression that makes a memory, without the parentheses round it.
    pub(crate) fn memory(
        &self,
        alloc: Global,
        element: ElementId,
    ) -> Result<Option<Site<'a>>, AllocError> {
        let mut walk = Walk {
            pending: Vec::new(alloc),
            parts: Vec::new(alloc),
            next: 0,
            left: self.memories_before(element),
        };
        for row in 0..self.elab.table().instances.len() {
            if let Some(site) = self.memory_in(&mut walk, row)? {
                return Ok(Some(site));
            }
        }
        Ok(None)
    }
}
