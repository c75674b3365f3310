//! The meaning of the numbers in the terms of a specialization, when its types are judged.

ghost use Rattle.std.specs.Prelude.{◌≡◌, option_map, IfOk};
ghost use Rattle.lb_static.specs.StoredTypes.{view_type};
ghost use Rattle.lb_check.specs.StoredTypes.{context_in};
ghost use Rattle.lb_check.specs.TermTypes as mirror;

use crate::operand_types::constant_type;
use lb_static::{
    CallId, CallSite, DataType, Reached, ResolvedNode, Specialization, StaticId, StaticInt, Table,
    VariableId,
};
use std::alloc::{AllocError, Global};

/// A specialization, with its node, among the reached nodes and the specializations.
#[derive(Clone, Copy)]
pub struct TypeEnv<'a, 's> {
    pub reached: &'a Reached<'s>,
    pub table: &'a Table,
    pub node: &'a ResolvedNode<'s>,
    pub specialization: &'a Specialization,
}

/// The type of the static parameter or constant `i`.
fn constant_at(alloc: Global, statics: &[StaticInt], i: StaticId) -> Option<DataType>
    ensures { option_map view_type result ≡ mirror.constant_at statics.now i }
{
    constant_type(alloc, statics.get(i.0)?.get())
}

/// The value of the size or index `i`.
fn count_at(statics: &[StaticInt], i: StaticId) -> Option<u64>
    ensures { result ≡ mirror.count_at statics.now i }
{
    statics.get(i.0)?.natural()
}

/// The number of instances of a call site that is iterated; 0 for another call site.
fn repeats_of(statics: &[StaticInt], site: CallSite) -> Option<u64>
    ensures { result ≡ mirror.repeats_of statics.now site }
{
    match site.count {
        Some(i) => count_at(statics, i),
        None => Some(0),
    }
}

impl TypeEnv<'_, '_> {
    /// The type of a variable.
    #[tactic(auto, unfolding(crate::specs::TermTypes::context_of))]
    pub fn variable(&self, alloc: Global, x: VariableId) -> Result<Option<DataType>, AllocError>
        ensures { IfOk result (λ o.
            option_map view_type o ≡ (context_in self.now).variable x) }
    {
        match self.node.variables.get(x.0) {
            Some(variable) if variable.sizes == 0 => {
                Ok(Some(DataType::scalar(alloc, variable.kind)))
            }
            Some(variable) => DataType::of(alloc, variable, &self.specialization.statics),
            None => Ok(None),
        }
    }

    /// The type of a static parameter or a constant.
    #[tactic(auto, unfolding(crate::specs::TermTypes::context_of))]
    pub fn constant(&self, alloc: Global, i: StaticId) -> Option<DataType>
        ensures { option_map view_type result ≡ (context_in self.now).constant i }
    {
        constant_at(alloc, &self.specialization.statics, i)
    }

    /// The value of a size or an index.
    #[tactic(auto, unfolding(crate::specs::TermTypes::context_of))]
    pub fn count(&self, i: StaticId) -> Option<u64>
        ensures { result ≡ (context_in self.now).count i }
    {
        count_at(&self.specialization.statics, i)
    }

    /// The number of instances of an iterated node.
    #[tactic(auto, unfolding(crate::specs::TermTypes::context_of))]
    pub fn repeats(&self, c: CallId) -> Option<u64>
        ensures { result ≡ (context_in self.now).repeats c }
    {
        let site = *self.node.calls.get(c.0)?;
        repeats_of(&self.specialization.statics, site)
    }
}
