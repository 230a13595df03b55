//! Classes and interfaces by their places in the source of their module.

ghost use Rattle.std.specs.Prelude.{◌≡◌, ◌+◌, map, option_map, count_by, nat_le, nat_eq};
ghost use Rattle.ash_host.specs.Reach.{is_among};
ghost use Rattle.ash_typed.specs.Modules.{interface_of, implementation_of, class_of, module_of};
ghost use Rattle.ash_typed.specs.Signatures.{place_of_interface};
ghost use Rattle.ash_meaning.specs.Classes.{place_of_class};
ghost use Rattle.ash_admission.specs.Places.{class_from, class_at, is_class_at};
ghost use Rattle.ash_admission.specs.Places.{is_interface_at, lists};
ghost use Rattle.ash_admission.specs.Places.{implements};

use ash_typed::{Class, Implementation, Interface, Module};

/// Whether a place is the sum of two numbers.
pub(crate) fn is_sum(place: usize, left: usize, right: usize) -> bool
    ensures value { result ≡ nat_eq place (left + right) }
{
    match left.checked_add(right) {
        Some(sum) => place == sum,
        None => false,
    }
}

/// How many interfaces are declared before a class.
fn interfaces_before(interfaces: &[Interface], class: usize) -> usize
    ensures value { result
        ≡ count_by (λ i. nat_le i.classes_before class) (map interface_of interfaces.now) }
{
    interfaces
        .iter()
        .filter(|interface| interface.classes_before <= class)
        .count()
}

/// Whether this is the place of a class in the source.
fn is_place_of(tree: &Module, class: usize, place: usize) -> bool
    ensures value { result ≡ nat_eq place (place_of_class (module_of tree.now) class) }
{
    is_sum(place, class, interfaces_before(&tree.interfaces, class))
}

/// The class at a place of the source, among these classes.
fn class_among<'a>(tree: &Module, classes: &'a [Class], place: usize) -> Option<&'a Class>
    ensures value { option_map (λ c. class_of c.now) result
        ≡ class_from (module_of tree.now) place 0 (map class_of classes.now) }
{
    for (class, source) in classes.iter().enumerate() {
        if is_place_of(tree, class, place) {
            return Some(source);
        }
    }
    None
}

/// The class at a place of the source.
pub(crate) fn class_at(tree: &Module, place: usize) -> Option<&Class>
    ensures value { option_map (λ c. class_of c.now) result ≡ class_at (module_of tree.now) place }
{
    class_among(tree, &tree.classes, place)
}

/// Whether a module has a class by an index, at this place of its source.
pub(crate) fn is_class_at(tree: &Module, class: usize, place: usize) -> bool
    ensures value { result ≡ is_class_at (module_of tree.now) class place }
{
    tree.classes.get(class).is_some() && is_place_of(tree, class, place)
}

/// Whether a module has an interface by an index, at this place of its source.
pub(crate) fn is_interface_at(tree: &Module, interface: usize, place: usize) -> bool
    ensures value { result ≡ is_interface_at (module_of tree.now) interface place }
{
    match tree.interfaces.get(interface) {
        Some(found) => is_sum(place, interface, found.classes_before),
        None => false,
    }
}

/// Whether an interface is among those that are listed.
fn is_listed(all: &[Implementation], interface: usize) -> bool
    ensures value { result
        ≡ is_among (map place_of_interface (map implementation_of all.now)) interface }
{
    for one in all {
        if interface == one.interface {
            return true;
        }
    }
    false
}

/// Whether a class lists an interface.
fn lists(class: &Class, interface: usize) -> bool
    ensures value { result ≡ lists interface (class_of class.now) }
{
    is_listed(&class.interfaces, interface)
}

/// Whether the class at a place of the source lists an interface.
pub(crate) fn implements(tree: &Module, interface: usize, place: usize) -> bool
    ensures value { result ≡ implements (module_of tree.now) interface place }
{
    match class_at(tree, place) {
        Some(class) => lists(class, interface),
        None => false,
    }
}
