//! What may be stored in a variable.

ghost use Rattle.std.specs.Prelude.{◌≡◌, map};
ghost use Rattle.ash_type_rules.specs.Coercions as coercions;
ghost use Rattle.ash_check_names.specs.EnvironmentViews.{class_signature_of};

use crate::signatures::ClassSignature;
use crate::types::is_same_object;
use ash_type_rules::Ty;
use ash_typed::ObjectType;

fn has_interface(interface: usize, class: &ClassSignature) -> bool
    ensures value { result ≡ coercions.has_interface interface (class_signature_of class.now) }
{
    for listed in &class.interfaces {
        if interface == *listed {
            return true;
        }
    }
    false
}

/// Whether the class of this place lists an interface.
#[tactic(auto, unfolding(ash_type_rules::specs::Coercions::lists))]
fn lists(classes: &[ClassSignature], class: usize, interface: usize) -> bool
    ensures value { result ≡ coercions.lists (map class_signature_of classes.now) class interface }
{
    match classes.get(class) {
        Some(class) => has_interface(interface, class),
        None => false,
    }
}

/// Whether an object of the second type is one of the first.
fn is_of(classes: &[ClassSignature], to: ObjectType, of: ObjectType) -> bool
    ensures value { result ≡ coercions.is_of (map class_signature_of classes.now) to of }
{
    match (to, of) {
        (ObjectType::Interface(interface), ObjectType::Class(class)) => {
            lists(classes, class, interface)
        }
        _ => is_same_object(to, of),
    }
}

fn fits_object(classes: &[ClassSignature], object: ObjectType, of: Ty) -> bool
    ensures value { result ≡ coercions.fits_object (map class_signature_of classes.now) object of }
{
    match of {
        Ty::Object(other) | Ty::Handle(other) => is_of(classes, object, other),
        Ty::Null | Ty::Unknown => true,
        _ => false,
    }
}

/// Whether a value of the second type may be stored in a variable of the first.
pub fn fits(classes: &[ClassSignature], to: Ty, of: Ty) -> bool
    ensures can_be_stored { result ≡ coercions.fits (map class_signature_of classes.now) to of }
{
    match to {
        Ty::Unknown => !matches!(of, Ty::Void),
        Ty::Bool => matches!(of, Ty::Bool | Ty::Unknown),
        Ty::Integer(_) => matches!(of, Ty::Integer(_) | Ty::Unknown),
        Ty::Object(object) | Ty::Handle(object) => fits_object(classes, object, of),
        _ => false,
    }
}
