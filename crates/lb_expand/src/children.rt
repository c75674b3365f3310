//! The rows of the table of instances, by the calls that reach them.

use lb_static::{CallId, InstanceId, Origin, Table};
use std::alloc::{AllocError, Global};
use std::collections::HashMap;

/// The rows of a table, by the calls that reach them.
#[derive(Drop)]
pub(crate) struct Children {
    /// The row of each call: a call is the row that calls, the number of the call and the index.
    rows: HashMap<(u32, usize, u32), u32>,
}

impl Children {
    ghost use Rattle.std.specs.Prelude.{◌≡◌, ◌<◌, ◌^◌, ℕ, length, option_map, IfOk};
    ghost use Rattle.lb_expand.specs.Rows.{called_row, child_row};

    /// The rows of a table, by the calls that reach them.
    pub(crate) fn new(alloc: Global, table: &Table) -> Result<Children, AllocError>
        requires few { length table.now.instances.items < 2 ^ 32 }
        ensures { IfOk result (λ c. (caller call index : ℕ) →
            called_row c.rows caller call index ≡ child_row table.now caller call index) }
    {
        let mut rows = HashMap::new(alloc);
        for row in 0..table.instances.len() {
            if let Origin::Called {
                caller,
                call,
                index,
            } = table.instances[row].origin
            {
                let key = (caller.0, call.0, index);
                if !rows.contains_key(&key) {
                    rows.insert(key, row as u32)?;
                }
            }
        }
        Ok(Children { rows })
    }

    /// The row of a call of a row, at an index.
    pub(crate) fn get(&self, row: InstanceId, call: CallId, index: u32) -> Option<InstanceId>
        ensures { option_map (λ child. child.0) result
            ≡ called_row self.now.rows row.0 call.0 index }
    {
        match self.rows.get(&(row.0, call.0, index)) {
            Some(child) => Some(InstanceId(*child)),
            None => None,
        }
    }
}
