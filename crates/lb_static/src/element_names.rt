//! The names of the scalar elements of a variable.

ghost use Rattle.std.specs.Prelude.{◌≡◌, ◌≤◌, ◌+◌, ◌++◌, map, length, reverse, string_bytes};
ghost use Rattle.std.specs.Prelude.{OnOk, IfOk};
ghost use Rattle.lb_static.specs.Interfaces.{elements_named};
ghost use Rattle.lb_static.specs.DataTypes.{element_names, index_text, product, total};
ghost use Rattle.lb_static.specs.StoredTypes.{view_type};

use crate::data_type::DataType;
use crate::signature::Signature;
use lb_syntax::{Kind, Name};
use std::alloc::{AllocError, Global};

/// The name of the element at an index: `x[1]`.
fn name_at(alloc: Global, name: &str, index: u64) -> Result<String, AllocError>
    ensures { IfOk result (λ named. string_bytes named ≡ name.now ++ index_text index) }
{
    format!(in alloc; "{name}[{index}]")
}

/// Adds the scalar elements of a variable of this name, kind and sizes, where the outermost size is
/// the last: `x` for a scalar, and `x[0]`, `x[1]` ... for an array, the first index slowest.
pub fn push_elements(
    alloc: Global,
    signature: &mut Signature,
    name: &str,
    kind: Kind,
    sizes: &[u64],
) -> Result<(), AllocError>
    requires { length signature.old + product (reverse sizes.now) ≤ 1023 }
    ensures { OnOk result (signature.new
        ≡ signature.old ++ map (λ x. (x, kind)) (element_names name.now (reverse sizes.now))) }
{
    match sizes {
        [] => signature.push(String::from_str(alloc, name)?, kind),
        [inner @ .., size] => {
            for i in 0..*size {
                let element = name_at(alloc, name, i)?;
                push_elements(alloc, signature, element.as_str(), kind, inner)?;
            }
            Ok(())
        }
    }
}

/// The scalar elements of variables of these names and types.
pub fn elements(
    alloc: Global,
    names: &[&Name],
    data_types: &[DataType],
) -> Result<Signature, AllocError>
    requires { total (map view_type data_types.now) ≤ 1023 }
    ensures { IfOk result (λ signature. signature
        ≡ elements_named (map (λ x. x.now) names.now) (map view_type data_types.now)) }
{
    let mut signature = Signature::new(alloc);
    for place in 0..names.len().min(data_types.len()) {
        let data_type = &data_types[place];
        push_elements(
            alloc,
            &mut signature,
            names[place].as_str(),
            data_type.kind,
            &data_type.sizes,
        )?;
    }
    Ok(signature)
}
