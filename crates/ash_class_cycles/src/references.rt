//! What the classes of a module refer to.

ghost use Rattle.std.specs.Prelude.{◌≡◌, ◌↔◌, ℕ, length, map, string_bytes, IsTrue, IfOk, Contains};
ghost use Rattle.std.specs.List.{Any};
ghost use Rattle.ash_tree.specs.TreeViews.{element_of, type_of, type_name_of, member_of};
ghost use Rattle.ash_tree.specs.TreeViews.{class_of, item_of, module_of};
ghost use Rattle.ash_class_cycles.specs.ClassReferences.{IsOf, ElementNames, NamesClass, MemberHolds};
ghost use Rattle.ash_class_cycles.specs.ClassReferences.{RefersTo, RefersAt, DeclaredClassRefers};
ghost use Rattle.ash_class_cycles.specs.ClassReferences.{classes_of, borrowed_classes};
ghost use Rattle.ash_class_cycles.specs.Marking.{rows_of, Goes};

use ash_tree::{Class, Element, ElementKind, Item, Member, Module, Type, TypeKind, TypeName};
use std::alloc::{AllocError, Global};

fn any_named(interfaces: &[TypeName], name: &str) -> bool
    ensures exact { IsTrue result
        ↔ Any (λ interface. interface.name ≡ name.now) (map type_name_of interfaces.now) }
{
    for interface in interfaces {
        if interface.name.as_str() == name {
            return true;
        }
    }
    false
}

fn is_of(class: &Class, name: &str) -> bool
    ensures exact { IsTrue result ↔ IsOf (class_of class.now) name.now }
{
    class.name.as_str() == name || any_named(&class.interfaces, name)
}

fn element_names(element: &Element, class: &Class) -> bool
    ensures exact { IsTrue result ↔ ElementNames (element_of element.now) (class_of class.now) }
{
    match &element.kind {
        ElementKind::Handle(name) => is_of(class, name),
        ElementKind::Primitive(_) => false,
    }
}

fn names(of: &Type, class: &Class) -> bool
    ensures exact { IsTrue result ↔ NamesClass (type_of of.now) (class_of class.now) }
{
    match &of.kind {
        TypeKind::Object(name) | TypeKind::Handle(name) => is_of(class, name),
        TypeKind::Array(element) | TypeKind::ArrayHandle(element) => element_names(element, class),
        TypeKind::Primitive(_) => false,
    }
}

fn holds(member: &Member, class: &Class) -> bool
    ensures exact { IsTrue result ↔ MemberHolds (member_of member.now) (class_of class.now) }
{
    match member {
        Member::Vars(vars) => names(&vars.of, class),
        Member::Function(_) | Member::Constructor(_) => false,
    }
}

fn any_holds(members: &[Member], class: &Class) -> bool
    ensures exact { IsTrue result
        ↔ Any (λ member. MemberHolds member (class_of class.now)) (map member_of members.now) }
{
    for member in members {
        if holds(member, class) {
            return true;
        }
    }
    false
}

fn refers(from: &Class, to: &Class) -> bool
    ensures exact { IsTrue result ↔ RefersTo (class_of from.now) (class_of to.now) }
{
    any_holds(&from.members, to)
}

/// The classes of a module, in their order.
pub fn classes(alloc: Global, items: &[Item]) -> Result<Vec<&Class>, AllocError>
    ensures in_order { IfOk result (λ classes.
        borrowed_classes classes.items ≡ classes_of (map item_of items.now)) }
{
    let mut classes = Vec::new(alloc);
    for item in items {
        if let Item::Class(class) = item {
            classes.push(class)?;
        }
    }
    Ok(classes)
}

fn row_of(alloc: Global, classes: &[&Class], to: &Class) -> Result<Vec<usize>, AllocError>
    ensures exact { IfOk result (λ row. (from : ℕ)
        → Contains row.items from
        ↔ RefersAt (borrowed_classes classes.now) from (class_of to.now)) }
{
    let mut row = Vec::new(alloc);
    for (place, from) in classes.iter().enumerate() {
        if refers(from, to) {
            row.push(place)?;
        }
    }
    Ok(row)
}

/// For each class of a module the places of those that refer to it.
pub(crate) fn referrers(alloc: Global, classes: &[&Class]) -> Result<Vec<Vec<usize>>, AllocError>
    ensures places { IfOk result (λ rows. length rows.items ≡ length classes.now) }
    ensures rows { IfOk result (λ rows. (from to : ℕ)
        → Goes (rows_of rows.items) from to
        ↔ DeclaredClassRefers (borrowed_classes classes.now) from to) }
{
    let mut rows = Vec::new(alloc);
    for to in classes {
        rows.push(row_of(alloc, classes, to)?)?;
    }
    Ok(rows)
}
