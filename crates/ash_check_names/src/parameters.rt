//! The parameters of a call.

ghost use Rattle.std.specs.Prelude.{◌≡◌, [], ◌∷◌, length, map, option_map, IfOk, IsOk};
ghost use Rattle.ash_type_rules.specs.TypeRules as definition;
ghost use Rattle.ash_check_names.specs.EnvironmentViews.{parameters_of, first_and_rest, split_of};

use crate::types::{ty_of, var_type};
use ash_tree::Primitive;
use ash_type_rules::Ty;
use ash_typed::VarType;
use std::alloc::{AllocError, Global};

/// The parameters of a call.
#[derive(Clone, Copy)]
pub enum Parameters<'a> {
    /// No parameter.
    Nothing,
    /// One parameter, of this type.
    One(Ty),
    /// Those that a script declares, in order.
    Script(&'a [Ty]),
    /// Those of what is registered, in order.
    Host(&'a [Primitive]),
}

impl<'a> Parameters<'a> {
    /// How many there are.
    pub fn len(&self) -> usize
        ensures count { result ≡ length (parameters_of self.now) }
    {
        match self {
            Parameters::Nothing => 0,
            Parameters::One(_) => 1,
            Parameters::Script(types) => types.len(),
            Parameters::Host(types) => types.len(),
        }
    }

    /// The first, and the others.
    pub fn split_first(self) -> Option<(Ty, Parameters<'a>)>
        ensures first_and_others { option_map split_of result
            ≡ first_and_rest (parameters_of self.entry) }
    {
        match self {
            Parameters::Nothing => None,
            Parameters::One(of) => Some((of, Parameters::Nothing)),
            Parameters::Script(types) => {
                let (first, rest) = types.split_first()?;
                Some((*first, Parameters::Script(rest)))
            }
            Parameters::Host(types) => {
                let (first, rest) = types.split_first()?;
                Some((ty_of(*first), Parameters::Host(rest)))
            }
        }
    }

    /// The types, as the tree of a call has them. `Err` is that memory was refused: `Nothing` takes none.
    pub fn types(&self, alloc: Global) -> Result<Vec<VarType>, AllocError>
        ensures types_in_order { IfOk result
            (λ types. types.items ≡ map definition.var_type (parameters_of self.now)) }
        ensures nothing_takes_no_memory { self.now ≡ Parameters.Nothing → IsOk result }
    {
        match self {
            Parameters::Nothing => Ok(Vec::new(alloc)),
            Parameters::One(of) => one_type(alloc, *of),
            Parameters::Script(types) => script_types(alloc, types),
            Parameters::Host(types) => host_types(alloc, types),
        }
    }
}

fn one_type(alloc: Global, of: Ty) -> Result<Vec<VarType>, AllocError>
    ensures value { IfOk result (λ types. types.items ≡ definition.var_type of ∷ []) }
{
    let mut types = Vec::with_capacity(alloc, 1)?;
    types.push(var_type(of))?;
    Ok(types)
}

fn script_types(alloc: Global, all: &[Ty]) -> Result<Vec<VarType>, AllocError>
    ensures value { IfOk result (λ types. types.items ≡ map definition.var_type all.now) }
{
    let mut types = Vec::with_capacity(alloc, all.len())?;
    for of in all {
        types.push(var_type(*of))?;
    }
    Ok(types)
}

fn host_types(alloc: Global, primitives: &[Primitive]) -> Result<Vec<VarType>, AllocError>
    ensures value { IfOk result
        (λ types. types.items ≡ map definition.var_type (map definition.ty_of primitives.now)) }
{
    let mut types = Vec::with_capacity(alloc, primitives.len())?;
    for primitive in primitives {
        types.push(var_type(ty_of(*primitive)))?;
    }
    Ok(types)
}
