//! The names that types have in a module: its interfaces and its classes.

ghost use Rattle.std.specs.Prelude.{◌≡◌, map, IfOk};
ghost use Rattle.ash_tree.specs.TreeViews.{item_of};
ghost use Rattle.ash_tree.specs.Items as by_kind;
ghost use Rattle.ash_type_rules.specs.ModuleDeclarations as definition;
ghost use Rattle.ash_check_names.specs.EnvironmentViews.{interface_signature_of, class_signature_of};
ghost use Rattle.ash_check_names.specs.EnvironmentViews.{signatures_of};

use ash_check_names::{ClassSignature, InterfaceSignature, Signatures};
use ash_tree::Item;
use std::alloc::{AllocError, Global};

/// The interfaces by their names alone.
fn named_interfaces(
    alloc: Global,
    items: &[Item],
) -> Result<Vec<InterfaceSignature<'_>>, AllocError>
    ensures value { IfOk result
        (λ all. map interface_signature_of all.items
        ≡ map definition.named_interface (by_kind.interfaces_of (map item_of items.now))) }
{
    let mut all = Vec::new(alloc);
    for item in items {
        if let Item::Interface(interface) = item {
            all.push(InterfaceSignature {
                name: interface.name.as_str(),
                methods: Vec::new(alloc),
            })?;
        }
    }
    Ok(all)
}

/// The classes by their names alone.
fn named_classes(alloc: Global, items: &[Item]) -> Result<Vec<ClassSignature<'_>>, AllocError>
    ensures value { IfOk result
        (λ all. map class_signature_of all.items
        ≡ map definition.named_class (by_kind.classes_of (map item_of items.now))) }
{
    let mut all = Vec::new(alloc);
    for item in items {
        if let Item::Class(class) = item {
            all.push(ClassSignature {
                name: class.name.as_str(),
                interfaces: Vec::new(alloc),
                fields: Vec::new(alloc),
                methods: Vec::new(alloc),
                parameters: Vec::new(alloc),
            })?;
        }
    }
    Ok(all)
}

/// The interfaces and the classes by their names alone.
pub(crate) fn type_names<'a>(alloc: Global, items: &'a [Item]) -> Result<Signatures<'a>, AllocError>
    ensures value { IfOk result (λ h. signatures_of h
        ≡ definition.names_in (map item_of items.now)) }
{
    let interfaces = named_interfaces(alloc, items)?;
    let classes = named_classes(alloc, items)?;
    let signatures = Signatures::new(alloc, interfaces, classes, Vec::new(alloc), Vec::new(alloc))?;
    Ok(signatures)
}
