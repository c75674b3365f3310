//! The elements that are shown, with their names.

ghost use Rattle.std.specs.Prelude.{◌≢◌, IfErr};

use crate::error::ShowError;
use crate::options::Selection;
use crate::signals::{Signal, Signals};
use lb_csv::Column;
use std::alloc::{AllocError, Global};

impl Signal {
    /// Whether `name` is the name of the element, or of its variable.
    fn has_name(&self, name: &str) -> bool {
        let label = self.label.as_bytes();
        let variable = label.split_at(self.variable.min(label.len())).0;
        let asked = name.as_bytes();
        asked == label || asked == variable
    }
}

impl Signals {
    /// The name of an element with that of its instance.
    fn full_name(&self, alloc: Global, signal: &Signal) -> Result<String, AllocError> {
        let label = signal.label.as_str();
        match self.scopes.get(signal.scope) {
            Some(scope) => {
                let instance = scope.name.as_str();
                format!(in alloc; "{instance}.{label}")
            }
            None => String::from_str(alloc, label),
        }
    }

    /// Adds an element to those that are shown.
    fn push_column(
        &self,
        alloc: Global,
        signal: &Signal,
        columns: &mut Vec<Column>,
    ) -> Result<(), AllocError> {
        let column = Column {
            name: self.full_name(alloc, signal)?,
            label: String::from_str(alloc, signal.label.as_str())?,
            scope: signal.scope,
            kind: signal.kind,
            element: signal.element,
        };
        columns.push(column)?;
        Ok(())
    }

    /// Whether `name` stands for an element: it is the name of the element or of its variable,
    /// behind the name of its instance. In the node under test that one may be left out.
    fn is_named(&self, signal: &Signal, name: &str) -> bool {
        let Some(scope) = self.scopes.get(signal.scope) else {
            return false;
        };
        if signal.scope == 0 && signal.has_name(name) {
            return true;
        }
        let Some(rest) = name.strip_prefix(scope.name.as_str()) else {
            return false;
        };
        match rest.strip_prefix(".") {
            Some(own) => signal.has_name(own),
            None => false,
        }
    }

    /// Adds the elements that a name stands for, and returns how many there are.
    fn push_named(
        &self,
        alloc: Global,
        name: &str,
        columns: &mut Vec<Column>,
    ) -> Result<usize, AllocError> {
        let before = columns.len();
        for signal in &self.signals {
            if self.is_named(signal, name) {
                self.push_column(alloc, signal, columns)?;
            }
        }
        Ok(columns.len().saturating_sub(before))
    }

    /// Whether an element is of the node under test or of the observer.
    fn is_of_start(&self, signal: &Signal) -> bool {
        match self.scopes.get(signal.scope) {
            Some(scope) => scope.is_start,
            None => false,
        }
    }

    /// The elements that are shown, in their order.
    pub(crate) fn columns(
        &self,
        alloc: Global,
        selection: Selection<'_>,
    ) -> Result<Vec<Column>, ShowError>
        ensures { IfErr result (λ e. e ≢ ShowError.UnknownTrace) }
    {
        let mut columns = Vec::new(alloc);
        match selection {
            Selection::Named(names) => {
                for place in 0..names.len() {
                    if self.push_named(alloc, names[place], &mut columns)? == 0 {
                        return Err(ShowError::UnknownVariable(place));
                    }
                }
            }
            Selection::All | Selection::Starts => {
                let is_all = matches!(selection, Selection::All);
                for signal in &self.signals {
                    if is_all || self.is_of_start(signal) {
                        self.push_column(alloc, signal, &mut columns)?;
                    }
                }
            }
        }
        Ok(columns)
    }
}
