//! The names that a source declares, found in its tokens.

use crate::lexeme::{Lexeme, Sort, piece_at, token_at};
use crate::near::Nearest;

/// The sorts of names that a search takes.
#[derive(Clone, Copy)]
pub struct Sorts {
    pub nodes: bool,
    /// Variables and static parameters of one node.
    pub variables: bool,
    /// Constants, and static parameters of one node.
    pub constants: bool,
}

/// The part of a source that a token stands in.
#[derive(Clone, Copy, PartialEq, Eq)]
enum Region {
    /// Between nodes and constants, or in a body.
    Elsewhere,
    /// After `node` or `function`: its name comes next.
    NodeName,
    /// From the name of the node whose variables are taken to its `let`.
    Heading,
    /// After `const` or `;` among constants: a name comes next.
    ConstantName,
    /// From the name of a constant to its `;`.
    Constant,
}

/// A search for a declared name.
#[derive(Clone, Copy)]
struct Search<'t> {
    text: &'t [u8],
    node: &'t [u8],
    sorts: Sorts,
}

/// Whether a search takes the names in a region.
fn is_meant(search: &Search<'_>, region: Region) -> bool {
    match region {
        Region::NodeName => search.sorts.nodes,
        Region::Heading => search.sorts.variables || search.sorts.constants,
        Region::ConstantName => search.sorts.constants,
        Region::Constant | Region::Elsewhere => false,
    }
}

/// The region after a name.
fn after_name(search: &Search<'_>, region: Region, name: &[u8]) -> Region {
    match region {
        Region::NodeName if name == search.node => Region::Heading,
        Region::NodeName => Region::Elsewhere,
        Region::ConstantName => Region::Constant,
        _ => region,
    }
}

/// The region after a reserved word or a symbol.
fn after_mark(region: Region, mark: &[u8]) -> Region {
    match mark {
        b"node" | b"function" => Region::NodeName,
        b"let" => Region::Elsewhere,
        b"const" if region != Region::Heading => Region::ConstantName,
        b";" if region == Region::Constant => Region::ConstantName,
        _ => region,
    }
}

/// The region after a token.
fn after(search: &Search<'_>, region: Region, token: &Lexeme) -> Region {
    match token.sort {
        Sort::Name => after_name(search, region, token.of(search.text)),
        Sort::Mark => after_mark(region, token.of(search.text)),
        _ => region,
    }
}

/// The declared name that is nearest to `name`, if one is near. Variables are those of `node`.
pub fn nearest_of<'t>(
    text: &'t [u8],
    node: &'t [u8],
    name: &[u8],
    sorts: &Sorts,
) -> Option<&'t [u8]> {
    let search = Search {
        text,
        node,
        sorts: *sorts,
    };
    let mut nearest = Nearest::to(name);
    let mut region = Region::Elsewhere;
    let mut at = 0;
    for _turn in 0..text.len() {
        let token = piece_at(text, at);
        if token.sort == Sort::End {
            return nearest.name;
        }
        if token.sort == Sort::Name && is_meant(&search, region) {
            nearest.offer(name, token.of(text));
        }
        region = after(&search, region, &token);
        at = token.end;
    }
    nearest.name
}

/// Whether the source declares a constant with this name.
pub fn is_constant(text: &[u8], name: &[u8]) -> bool {
    let search = Search {
        text,
        node: b"",
        sorts: Sorts {
            nodes: false,
            variables: false,
            constants: true,
        },
    };
    let mut region = Region::Elsewhere;
    let mut at = 0;
    for _turn in 0..text.len() {
        let token = piece_at(text, at);
        if token.sort == Sort::End {
            return false;
        }
        if region == Region::ConstantName && token.sort == Sort::Name && token.of(text) == name {
            return true;
        }
        region = after(&search, region, &token);
        at = token.end;
    }
    false
}

/// The place behind the name of the node with this name, where it is declared.
pub fn node_named(text: &[u8], name: &[u8]) -> Option<usize> {
    let mut at = 0;
    for _turn in 0..text.len() {
        let token = piece_at(text, at);
        if token.sort == Sort::End {
            return None;
        }
        if token.is(text, b"node".as_slice()) || token.is(text, b"function".as_slice()) {
            let found = token_at(text, token.end);
            if found.of(text) == name {
                return Some(found.end);
            }
        }
        at = token.end;
    }
    None
}
