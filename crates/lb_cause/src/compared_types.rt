//! The types of the operands of a term that may have none (E9).
//!
//! A list, a call, `#` and `nor` may have very many operands. Their types are compared as they come,
//! and let go:
//!
//! ```text
//! [1, 2, true, x]     kept: int    unfit: 2, the place of `true`
//! ```

use lb_check::{TypeEnv, TypeRow, signature_of};
use lb_static::{DataType, Term};
use std::alloc::{AllocError, Global};

/// What the types of operands are compared with.
#[derive(Clone, Copy)]
enum Wanted<'t> {
    /// With nothing: they are few, and all of them are kept.
    Any,
    /// With that of the first element of a list, which alone is kept.
    First,
    /// With the types that a callee takes, and `#` and `nor`; none is kept.
    Row(TypeRow<'t>),
}

/// The types of the operands of a term, as far as they are kept.
#[derive(Drop)]
pub struct OperandTypes<'t> {
    /// The types of up to three operands, or that of the first element of a list.
    pub kept: Vec<DataType>,
    /// The number of operands.
    pub count: usize,
    /// The place of the first operand that has not the type with which it is compared.
    pub unfit: Option<usize>,
    wanted: Wanted<'t>,
}

/// No operand yet, of a term.
pub fn operand_types<'t>(
    alloc: Global,
    env: &TypeEnv<'t, '_>,
    term: &Term,
) -> Result<OperandTypes<'t>, AllocError> {
    let wanted = match term {
        Term::Array(_) => Wanted::First,
        Term::AtMostOne(terms)
        | Term::Nor(terms)
        | Term::Call(_, terms)
        | Term::IterateNode(_, _, terms)
        | Term::IterateSymbol(_, _, _, terms) => {
            Wanted::Row(signature_of(alloc, env, term, terms.len())?.takes)
        }
        _ => Wanted::Any,
    };
    Ok(OperandTypes {
        kept: Vec::new(alloc),
        count: 0,
        unfit: None,
        wanted,
    })
}

impl OperandTypes<'_> {
    /// Adds the type of the next operand.
    pub fn push(&mut self, own: DataType) -> Result<(), AllocError> {
        let fits = match (self.wanted, self.kept.first()) {
            (Wanted::Row(row), _) => row.is_at(self.count, &own),
            (Wanted::First, Some(first)) => first.equals(&own),
            _ => true,
        };
        if !fits && self.unfit.is_none() {
            self.unfit = Some(self.count);
        }
        self.count = self.count.saturating_add(1);
        let is_kept = match self.wanted {
            Wanted::Any => true,
            Wanted::First => self.kept.is_empty(),
            Wanted::Row(_) => false,
        };
        if is_kept {
            self.kept.push(own)?;
        }
        Ok(())
    }
}
