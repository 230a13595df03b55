//! Interfaces: the methods that they declare.

ghost use Rattle.ash_tree.specs.TreeViews.{interface_method_of, interface_of as written_interface};
ghost use Rattle.ash_type_rules.specs.ItemRules as definition;
ghost use Rattle.ash_typed.specs.Modules.{interface_of};
ghost use Rattle.ash_check_names.specs.Agreement.{Agrees};
ghost use Rattle.ash_check_names.specs.EnvironmentViews.{environment_of};
ghost use Rattle.ash_check.specs.WalkViews.{interface_parts_of};

use crate::limits::MAX_CLASS_MEMBERS;
use crate::names::Names;
use crate::routines::{check_parameters, check_result_type, types_of};
use ash_check_names::{CheckResult, Environment, result_type};
use ash_tree::InterfaceMethod;
use ash_typed::{Interface, Signature};
use indexmap::IndexSet;

/// The names and the methods of an interface, so far.
#[derive(Drop)]
pub(crate) struct InterfaceParts<'a> {
    pub(crate) names: Names<'a>,
    pub(crate) methods: Vec<Signature>,
}

/// Checks a method that an interface declares, after those so far.
#[tactic(auto, unfolding(ash_type_rules::specs::ItemRules::check_signature))]
fn check_signature<'a>(
    env: &Environment<'_, 'a>,
    parts: &mut InterfaceParts<'a>,
    method: &'a InterfaceMethod,
) -> CheckResult<()>
    ensures agrees { Agrees (λ _. interface_parts_of parts.new) result
        (definition.check_signature (environment_of env.now) (interface_parts_of parts.old)
        (interface_method_of method.now)) }
{
    let of = check_result_type(env, &method.result)?;
    let at = method.place.at;
    parts.names.take_counted(at, method.name.as_str())?;
    let parameters = check_parameters(env, &method.parameters)?;
    let signature = Signature {
        name: method.name.clone()?,
        result: result_type(of),
        parameters: types_of(env.alloc, &parameters)?,
    };
    parts.methods.push(signature)?;
    Ok(())
}

/// Checks an interface that is after so many classes.
#[tactic(auto, unfolding(ash_type_rules::specs::ItemRules::check_interface))]
pub(crate) fn check_interface<'a>(
    env: &Environment<'_, 'a>,
    classes: usize,
    interface: &'a ash_tree::Interface,
) -> CheckResult<Interface>
    ensures agrees { Agrees interface_of result
        (definition.check_interface (environment_of env.now) classes
        (written_interface interface.now)) }
{
    let mut parts = InterfaceParts {
        names: Names {
            registry: None,
            taken: IndexSet::new(env.alloc),
            room: MAX_CLASS_MEMBERS,
        },
        methods: Vec::new(env.alloc),
    };
    for method in &interface.methods {
        check_signature(env, &mut parts, method)?;
    }
    Ok(Interface {
        name: interface.name.clone()?,
        line: interface.place.line,
        classes_before: classes,
        methods: parts.methods,
    })
}
