//! What the code of a module knows of its classes.

ghost use Rattle.std.specs.Prelude.{◌≡◌, ◌<◌, ℕ, IfOk, map, length, nat_lt, slice_get, Some, true};
ghost use Rattle.std.specs.List.{list_all};
ghost use Rattle.ash_typed.specs.BodyViews.{value_of};
ghost use Rattle.ash_typed.specs.Modules.{Module as ModuleData, Class as ClassData, class_of};
ghost use Rattle.ash_typed.specs.Modules.{Implementation as ImplementationData};
ghost use Rattle.ash_typed.specs.Modules.{implementation_of as implementation_seen};
ghost use Rattle.ash_typed.specs.Modules.{module_of};
ghost use Rattle.ash_meaning.specs.Classes.{Method};
ghost use Rattle.ash_meaning.specs.OperatorMeaning.{zero_of};
ghost use Rattle.ash_code.specs.Validity.{has_functions, is_valid_class};
ghost use Rattle.ash_compile.specs.Layout.{IsLayout, index_of};
ghost use Rattle.ash_compile.specs.ValidCode.{counts_of};
ghost use Rattle.ash_compile.specs.Callees.{implementation_of, implementation_at, has_own, IsClassCode};
ghost use Rattle.ash_compile.specs.EmittedFrames.{AreClassCodes};

use crate::initializers::behind;
use crate::layout::{Layout, place_in};
use ash_code::code::{ClassCode, ImplementationCode};
use ash_host::Word;
use ash_integers::word_from;
use ash_typed::{Class, Implementation, Initialization, VarType};
use std::alloc::{AllocError, Global};

/// What a field has before it is initialized.
fn zero_of(of: VarType) -> Word
    ensures word { result ≡ zero_of of }
{
    match of {
        VarType::Bool => Word::Bool(false),
        VarType::Integer(int_type) => word_from(int_type, 0),
        VarType::Object(_) | VarType::Handle(_) => Word::Null,
    }
}

/// What the fields of a new object are.
fn zero_words(alloc: Global, fields: &[Initialization]) -> Result<Vec<Word>, AllocError>
    ensures words { IfOk result (λ words. words.items ≡ map (λ v. zero_of v.of) (map value_of fields.now)) }
{
    let mut words = Vec::with_capacity(alloc, fields.len())?;
    for field in fields {
        words.push(zero_of(field.of))?;
    }
    Ok(words)
}

/// The functions that methods of a class run.
fn method_codes(
    alloc: Global,
    layout: &Layout,
    class: usize,
    methods: &[usize],
) -> Result<Vec<usize>, AllocError>
    ensures methods { IfOk result (λ codes. (slot : ℕ) (m : ModuleData) (k : ClassData) → IsLayout slot m layout.now
        → slice_get m.classes class ≡ Some k → has_own k methods.now ≡ true
        → codes.items ≡ map (λ own. index_of m (Method class own)) methods.now) }
    ensures there { IfOk result (λ codes. (slot : ℕ) (m : ModuleData) → IsLayout slot m layout.now
        → class < length m.classes
        → list_all (λ code. nat_lt code (length (counts_of layout.now))) codes.items ≡ true) }
{
    let mut codes = Vec::with_capacity(alloc, methods.len())?;
    for method in methods {
        let code = layout.implementing(class, *method)?;
        codes.push(code)?;
    }
    Ok(codes)
}

/// How a class implements the interfaces that it lists.
fn implementation_codes(
    alloc: Global,
    layout: &Layout,
    class: usize,
    interfaces: &[Implementation],
) -> Result<Vec<ImplementationCode>, AllocError>
    ensures interfaces { IfOk result (λ codes. (slot : ℕ) (m : ModuleData) (k : ClassData) → IsLayout slot m layout.now
        → slice_get m.classes class ≡ Some k
        → list_all (λ (i : ImplementationData). has_own k i.methods) (map implementation_seen interfaces.now) ≡ true
        → map implementation_of codes.items
        ≡ map (implementation_at m class) (map implementation_seen interfaces.now)) }
    ensures there { IfOk result (λ codes. (slot : ℕ) (m : ModuleData) → IsLayout slot m layout.now
        → class < length m.classes → list_all (has_functions (length (counts_of layout.now))) codes.items ≡ true) }
{
    let mut codes = Vec::with_capacity(alloc, interfaces.len())?;
    for implementation in interfaces {
        let methods = method_codes(alloc, layout, class, &implementation.methods)?;
        codes.push(ImplementationCode {
            interface: implementation.interface,
            methods,
        })?;
    }
    Ok(codes)
}

/// What code knows of a class.
fn class_code(
    alloc: Global,
    layout: &Layout,
    place: usize,
    class: &Class,
) -> Result<ClassCode, AllocError>
    ensures code { IfOk result (λ code. (slot : ℕ) (m : ModuleData) → IsLayout slot m layout.now
        → slice_get m.classes place ≡ Some (class_of class.now)
        → IsClassCode m place (class_of class.now) code) }
    ensures there { IfOk result (λ code. (slot : ℕ) (m : ModuleData) → IsLayout slot m layout.now
        → place < length m.classes → is_valid_class (length (counts_of layout.now)) code ≡ true) }
{
    let source = place_in(&layout.classes, place).unwrap_or(0);
    let fields = zero_words(alloc, &class.fields)?;
    let construction = layout.construction(place)?;
    let interfaces = implementation_codes(alloc, layout, place, &class.interfaces)?;
    Ok(ClassCode {
        place: source,
        fields,
        construction,
        interfaces,
    })
}

/// What code knows of the classes of a module.
pub(crate) fn class_codes(
    alloc: Global,
    layout: &Layout,
    classes: &[Class],
) -> Result<Vec<ClassCode>, AllocError>
    ensures codes { IfOk result (λ codes. (slot : ℕ) (m : ModuleData) → IsLayout slot m layout.now
        → m.classes ≡ map class_of classes.now → AreClassCodes m codes.items) }
    ensures there { IfOk result (λ codes. (slot : ℕ) (m : ModuleData) → IsLayout slot m layout.now
        → m.classes ≡ map class_of classes.now
        → list_all (is_valid_class (length (counts_of layout.now))) codes.items ≡ true) }
{
    let mut codes = Vec::with_capacity(alloc, classes.len())?;
    let mut place: usize = 0;
    for class in classes {
        let code = class_code(alloc, layout, place, class)?;
        codes.push(code)?;
        place = behind(place, 1)?;
    }
    Ok(codes)
}
