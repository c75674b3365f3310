//! An element of a program that is shown.

use lb_flat::ElementId;
use lb_syntax::Kind;

/// An element that is shown.
#[derive(Drop)]
pub struct Column {
    /// The name of the element with that of its instance: `main.A[0]`.
    pub name: String,
    /// The name of the element in its instance: `A[0]`.
    pub label: String,
    /// The place of the instance among the scopes.
    pub scope: usize,
    pub kind: Kind,
    pub element: ElementId,
}
