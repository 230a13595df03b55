//! What a store holds, as text.

use crate::files_text::{push_files, push_head};
use crate::view::{
    ContentsView, ModuleView, NamedValue, ObjectView, ServiceView, StateView, view_of,
};
use crate::wording::{Value, counted, grouped, hex_text};
use ash_host::Word;
use ash_inspect::StoreReport;
use std::alloc::{AllocError, Global};

/// How many elements or fields of an object are shown.
const SHOWN_WORDS: usize = 16;

/// How many bytes of a state are shown.
const SHOWN_BYTES: usize = 32;

fn push_value(text: &mut String, named: &NamedValue) -> Result<(), AllocError> {
    if !named.type_name.is_empty() {
        text.push_str(&named.type_name)?;
        text.push_str(" ")?;
    }
    text.push_str(&named.name)?;
    let value = Value(named.value);
    write!(text, " = {value}")?;
    Ok(())
}

fn push_globals(text: &mut String, globals: &[NamedValue]) -> Result<(), AllocError> {
    for global in globals {
        text.push_str("    ")?;
        push_value(text, global)?;
        text.push_str("\n")?;
    }
    Ok(())
}

fn push_functions(text: &mut String, functions: &[String]) -> Result<(), AllocError> {
    for function in functions {
        writeln!(text, "    {function}")?;
    }
    Ok(())
}

fn push_module(alloc: Global, text: &mut String, module: &ModuleView) -> Result<(), AllocError> {
    let globals = counted(alloc, module.globals.len() as u64, "global")?;
    let functions = counted(alloc, module.functions.len() as u64, "function")?;
    let bytes = counted(alloc, module.source_len as u64, "byte")?;
    let name = &module.name;
    writeln!(text, "  {name}: {globals}, {functions}, {bytes} of source")?;
    push_globals(text, &module.globals)?;
    push_functions(text, &module.functions)
}

fn push_modules(
    alloc: Global,
    text: &mut String,
    modules: &[ModuleView],
) -> Result<(), AllocError> {
    text.push_str(if modules.is_empty() {
        "modules: none\n"
    } else {
        "modules\n"
    })?;
    for module in modules {
        push_module(alloc, text, module)?;
    }
    Ok(())
}

/// What is left out of a list of which some are shown.
fn push_left_out(
    alloc: Global,
    text: &mut String,
    all: usize,
    shown: usize,
) -> Result<(), AllocError> {
    if all > shown {
        let more = grouped(alloc, (all - shown) as u64)?;
        write!(text, " and {more} more")?;
    }
    Ok(())
}

/// What is written before an item of a list.
fn separator(index: usize) -> &'static str {
    if index == 0 { ": " } else { ", " }
}

fn push_fields(alloc: Global, text: &mut String, fields: &[NamedValue]) -> Result<(), AllocError> {
    for (index, field) in fields.iter().take(SHOWN_WORDS).enumerate() {
        text.push_str(separator(index))?;
        push_value(text, field)?;
    }
    push_left_out(alloc, text, fields.len(), SHOWN_WORDS)
}

fn push_elements(alloc: Global, text: &mut String, elements: &[Word]) -> Result<(), AllocError> {
    for (index, element) in elements.iter().take(SHOWN_WORDS).enumerate() {
        let value = Value(*element);
        text.push_str(separator(index))?;
        write!(text, "{value}")?;
    }
    push_left_out(alloc, text, elements.len(), SHOWN_WORDS)
}

/// The bytes of a state, the first of many.
fn push_state(alloc: Global, text: &mut String, state: &[u8]) -> Result<(), AllocError> {
    let bytes = counted(alloc, state.len() as u64, "byte")?;
    let digits = hex_text(alloc, &state[..state.len().min(SHOWN_BYTES)])?;
    let rest = if state.len() > SHOWN_BYTES { ".." } else { "" };
    let separator = if state.is_empty() { "" } else { ": " };
    write!(text, "{bytes} of state{separator}{digits}{rest}")?;
    Ok(())
}

fn push_contents(
    alloc: Global,
    text: &mut String,
    contents: &ContentsView,
) -> Result<(), AllocError> {
    match contents {
        ContentsView::Fields(fields) => {
            text.push_str(&counted(alloc, fields.len() as u64, "field")?)?;
            push_fields(alloc, text, fields)
        }
        ContentsView::Elements(elements) => {
            text.push_str(&counted(alloc, elements.len() as u64, "element")?)?;
            push_elements(alloc, text, elements)
        }
        ContentsView::HostState(state) => push_state(alloc, text, state),
    }
}

fn push_object(alloc: Global, text: &mut String, object: &ObjectView) -> Result<(), AllocError> {
    let number = object.number;
    let type_name = &object.type_name;
    let handles = counted(alloc, object.handles, "handle")?;
    write!(text, "  {number} {type_name}, {handles}, ")?;
    push_contents(alloc, text, &object.contents)?;
    text.push_str("\n")
}

fn push_objects(
    alloc: Global,
    text: &mut String,
    objects: &[ObjectView],
) -> Result<(), AllocError> {
    text.push_str(if objects.is_empty() {
        "objects: none\n"
    } else {
        "objects\n"
    })?;
    for object in objects {
        push_object(alloc, text, object)?;
    }
    Ok(())
}

fn push_services(
    alloc: Global,
    text: &mut String,
    services: &[ServiceView],
) -> Result<(), AllocError> {
    text.push_str(if services.is_empty() {
        "services: none\n"
    } else {
        "services\n"
    })?;
    for service in services {
        let kind = service.kind;
        write!(text, "  kind {kind}, ")?;
        push_state(alloc, text, &service.state)?;
        text.push_str("\n")?;
    }
    Ok(())
}

fn push_view(alloc: Global, text: &mut String, view: &StateView) -> Result<(), AllocError> {
    push_services(alloc, text, &view.services)?;
    push_modules(alloc, text, &view.modules)?;
    push_objects(alloc, text, &view.objects)
}

/// What a store holds, as text. The store is called by this name.
pub fn show_text(alloc: Global, name: &str, report: &StoreReport) -> Result<String, AllocError> {
    let mut text = String::new(alloc);
    push_head(alloc, &mut text, name, report)?;
    push_files(alloc, &mut text, report)?;
    if let Some((_, _, known)) = report.last_known() {
        push_view(alloc, &mut text, &view_of(alloc, &known.stored.state)?)?;
    }
    Ok(text)
}
