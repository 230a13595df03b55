//! Steps that ask for the class of an object: what its classes are the tables of code say.
ghost use Rattle.std.specs.Prelude.{◌≡◌, find, nat_eq, position, option_copied, IsErrOf};
ghost use Rattle.ash_code.specs.declared.code.ClassCode.{ClassCode};
ghost use Rattle.ash_code.specs.declared.code.ImplementationCode.{ImplementationCode};
ghost use Rattle.ash_code.specs.Steps as steps;
ghost use Rattle.ash_context.specs.ObjectClasses as tables;
ghost use Rattle.ash_host.specs.declared.word.Word.{Word};
ghost use Rattle.ash_run_steps.specs.declared.stop.Stop.{Stop};
ghost use Rattle.ash_run_steps.specs.Becoming.{Becomes, Comes};
ghost use Rattle.ash_run_steps.specs.ClassPlaces.{IsAlone};
ghost use Rattle.ash_run_steps.specs.Guarded.{give};
ghost use Rattle.ash_run_steps.specs.RunStates.{Names};

use ash_code::code::{ClassCode, CodeParts, ImplementationCode};
use ash_host::{HostObject, Word};
use ash_run_steps::state::RunState;
use ash_run_steps::stop::Stop;
use ash_typed::ObjectType;

// The class that is declared at a place in the source.
fn class_declared_at(classes: &[ClassCode], place: u16) -> Option<usize>
    ensures class { result ≡ position (λ (c : ClassCode). nat_eq place c.place) classes.now }
{
    classes.iter().position(|class| place == class.place)
}

fn class_at(classes: &[ClassCode], place: Option<u16>) -> Option<usize>
    ensures class { result ≡ tables.class_at classes.now place }
{
    match place {
        Some(place) => class_declared_at(classes, place),
        None => None,
    }
}

// How an interface is implemented, among these.
fn implementation_of(
    implementations: &[ImplementationCode],
    interface: usize,
) -> Option<&ImplementationCode>
    ensures implementation { option_copied result
        ≡ find (λ (i : ImplementationCode). nat_eq i.interface interface) implementations.now }
{
    implementations
        .iter()
        .find(|implementation| implementation.interface == interface)
}

// How a class implements an interface.
fn implementation_in(
    classes: &[ClassCode],
    interface: usize,
    class: usize,
) -> Option<&ImplementationCode>
    ensures implementation { option_copied result ≡ steps.implementation_in classes.now interface class }
{
    match classes.get(class) {
        Some(class) => implementation_of(&class.interfaces, interface),
        None => None,
    }
}

// The function that a method of an interface runs, of an object of the class at a place.
fn method_at(
    classes: &[ClassCode],
    interface: usize,
    method: usize,
    place: Option<u16>,
) -> Option<usize>
    ensures method { result ≡ tables.method_at classes.now interface method place }
{
    let class = class_at(classes, place)?;
    let implementation = implementation_in(classes, interface, class)?;
    implementation.methods.get(method).copied()
}

// Whether the objects of a class are of a type.
fn is_class_of(classes: &[ClassCode], to: ObjectType, class: usize) -> bool
    ensures of { result ≡ steps.is_class_of classes.now to class }
{
    match to {
        ObjectType::Class(other) => class == other,
        ObjectType::Interface(interface) => implementation_in(classes, interface, class).is_some(),
        _ => false,
    }
}

// Whether an object of the class at a place is of a type.
fn is_at(classes: &[ClassCode], to: ObjectType, place: Option<u16>) -> bool
    ensures of { result ≡ tables.is_at classes.now to place }
{
    match class_at(classes, place) {
        Some(class) => is_class_of(classes, to, class),
        None => false,
    }
}

/// The function that a method of an interface runs, of an object. It is `Unsound` if the object's class doesn't
/// implement the interface.
pub(crate) fn method_of<B: HostObject>(
    code: &CodeParts,
    state: &RunState<B>,
    interface: usize,
    method: usize,
    number: u64,
) -> Result<usize, Stop>
    ensures method { (names : Names) → IsAlone names code.now.module → Comes B.HostObject names
        (steps.found (steps.method_of (names.modules code.now.module) code.now.classes.items interface method number))
        state.now result state.now }
    ensures memory { IsErrOf result Stop.NoMemory → ⊥ }
{
    let place = state.class_place(code.module, number);
    match method_at(&code.classes, interface, method, place) {
        Some(function) => Ok(function),
        None => Err(Stop::Unsound),
    }
}

// The object of a number if it is of a type, and else null.
fn cast_object<B: HostObject>(
    code: &CodeParts,
    state: &RunState<B>,
    to: ObjectType,
    number: u64,
) -> Word
    ensures cast { (names : Names) → IsAlone names code.now.module → Becomes B.HostObject names
        (steps.cast (names.modules code.now.module) code.now.classes.items to (Word.Object number))
        state.now (give result) state.now }
{
    let place = state.class_place(code.module, number);
    if is_at(&code.classes, to, place) {
        Word::Object(number)
    } else {
        Word::Null
    }
}

/// The object if it is of a type, and else null.
pub(crate) fn cast<B: HostObject>(
    code: &CodeParts,
    state: &RunState<B>,
    to: ObjectType,
    word: Word,
) -> Word
    ensures cast { (names : Names) → IsAlone names code.now.module → Becomes B.HostObject names
        (steps.cast (names.modules code.now.module) code.now.classes.items to word)
        state.now (give result) state.now }
{
    match word {
        Word::Object(number) => cast_object(code, state, to, number),
        _ => Word::Null,
    }
}
