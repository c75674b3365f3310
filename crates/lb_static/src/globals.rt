//! The global names of a source: constants, nodes and functions share one name space.

ghost use Rattle.std.specs.Prelude.{◌≡◌, ◌++◌, ◌∷◌, [], not, true, false, length, take, drop};
ghost use Rattle.std.specs.Prelude.{position, ◌<◌, OnOk, IfOk, IfErr, IfSome};
ghost use Rattle.std.specs.Str.{bytes_eq};
ghost use Rattle.lb_syntax.specs.SourceView.{view_source};
ghost use Rattle.lb_static.specs.Parts.{among};
ghost use Rattle.lb_static.specs.Names.{are_distinct};
ghost use Rattle.lb_static.specs.CountedNames.{Declares, are_once, counted};
ghost use Rattle.lb_static.specs.NameFaults.{IsNameFault, is_told};
ghost use Rattle.lb_static.specs.SourceNames.{names_in_source};
ghost use Rattle.lb_static.specs.NamedConstants.{constant_place};

use crate::error::StaticError;
use crate::name_faults::{Declaring, doubled_name};
use crate::scope::Scope;
use lb_syntax::{Name, Source};
use std::alloc::Global;

/// The global names of a source, each of them once: first those of the constants.
#[derive(Drop)]
pub struct Globals {
    names: Scope,
    constants: usize,
}

/// Declares a name, which has to be new.
pub fn declare_new(
    alloc: Global,
    names: &mut Scope,
    name: &Name,
    declaring: Declaring,
) -> Result<(), StaticError>
    ensures ok { OnOk result (names.new ≡ names.old ++ name.now ∷ []) }
    ensures err { IfErr result (λ e. IsNameFault e
        (counted (is_told e Declares) (λ x. not (among x names.old)) name.now)) }
{
    if names.declare(alloc, name.as_str())? {
        Ok(())
    } else {
        Err(doubled_name(alloc, name, declaring, names))
    }
}

/// Declares the global names of a source, where no name is declared yet.
fn declare_globals(alloc: Global, names: &mut Scope, source: &Source) -> Result<(), StaticError>
    requires { names.old ≡ [] }
    ensures ok { OnOk result (names.new ≡ names_in_source (view_source source.now)) }
    ensures err { IfErr result (λ e.
        IsNameFault e (are_once (is_told e Declares) (names_in_source (view_source source.now)))) }
{
    let declaring = Declaring::Globals(source);
    for constant in &source.constants {
        declare_new(alloc, names, &constant.name, declaring)?;
    }
    for node in &source.nodes {
        declare_new(alloc, names, &node.name, declaring)?;
    }
    Ok(())
}

impl Globals {
    /// The global names of a source; a doubled one is refused.
    pub fn new(alloc: Global, source: &Source) -> Result<Globals, StaticError>
        ensures names { IfOk result (λ g. g.names ≡ names_in_source (view_source source.now)) }
        ensures constants { IfOk result (λ g. g.constants ≡ length source.now.constants.items) }
        ensures once { IfOk result (λ _.
            are_distinct (names_in_source (view_source source.now)) ≡ true) }
        ensures err { IfErr result (λ e.
            IsNameFault e (are_once (is_told e Declares)
            (names_in_source (view_source source.now)))) }
    {
        let mut names = Scope::new(alloc);
        declare_globals(alloc, &mut names, source)?;
        let constants = source.constants.len();
        Ok(Globals { names, constants })
    }

    /// Whether a name is the name of a constant.
    pub fn is_constant(&self, name: &str) -> bool
        ensures { result ≡ among name.now (take self.now.constants self.now.names) }
    {
        self.constant_place(name).is_some()
    }

    /// The place of the constant with this name.
    pub fn constant_place(&self, name: &str) -> Option<usize>
        ensures value { result ≡ constant_place self.now.names self.now.constants name.now }
        ensures within { IfSome result (λ place. place < self.now.constants) }
    {
        let place = self.names.place(name)?;
        if place < self.constants {
            Some(place)
        } else {
            None
        }
    }

    /// The place of the node or function with this name among those of the source.
    pub fn node_place(&self, name: &str) -> Option<usize>
        ensures { result ≡ position (bytes_eq name.now) (drop self.now.constants self.now.names) }
    {
        match self.names.place(name) {
            Some(place) if place >= self.constants => Some(place - self.constants),
            _ => None,
        }
    }
}
