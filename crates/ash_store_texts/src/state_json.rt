//! What a store holds, as JSON.

use crate::view::{
    ContentsView, ModuleView, NamedValue, ObjectView, ServiceView, StateView, view_of,
};
use crate::wording::hex_text;
use ash_host::Word;
use ash_inspect::{Current, FileReport, OpenFile, Side, StoreReport, answers_of};
use serde_json::{Value, json};
use std::alloc::{AllocError, Global};

/// A value. An object is an object of JSON with its number.
fn word_json(alloc: Global, word: Word) -> Result<Value, AllocError> {
    match word {
        Word::Bool(value) => json!(in alloc; value),
        Word::Int(value) => json!(in alloc; value),
        Word::Uint(value) => json!(in alloc; value),
        Word::Int64(value) => json!(in alloc; value),
        Word::Uint64(value) => json!(in alloc; value),
        Word::Null => json!(in alloc; null),
        Word::Object(number) => json!(in alloc; {"object": number}),
    }
}

fn named_json(alloc: Global, named: &NamedValue) -> Result<Value, AllocError> {
    let value = word_json(alloc, named.value)?;
    json!(in alloc; {"name": &named.name, "type": &named.type_name, "value": value})
}

fn named_list(alloc: Global, values: &[NamedValue]) -> Result<Value, AllocError> {
    let mut list = Vec::with_capacity(alloc, values.len())?;
    for value in values {
        list.push(named_json(alloc, value)?)?;
    }
    Ok(Value::Array(list))
}

fn text_list(alloc: Global, texts: &[String]) -> Result<Value, AllocError> {
    let mut list = Vec::with_capacity(alloc, texts.len())?;
    for text in texts {
        list.push(Value::try_from_str(alloc, text)?)?;
    }
    Ok(Value::Array(list))
}

fn word_list(alloc: Global, words: &[Word]) -> Result<Value, AllocError> {
    let mut list = Vec::with_capacity(alloc, words.len())?;
    for word in words {
        list.push(word_json(alloc, *word)?)?;
    }
    Ok(Value::Array(list))
}

fn module_json(alloc: Global, module: &ModuleView) -> Result<Value, AllocError> {
    let globals = named_list(alloc, &module.globals)?;
    let functions = text_list(alloc, &module.functions)?;
    let bytes = module.source_len as u64;
    json!(in alloc; {"name": &module.name, "source_bytes": bytes, "globals": globals, "functions": functions})
}

fn module_list(alloc: Global, modules: &[ModuleView]) -> Result<Value, AllocError> {
    let mut list = Vec::with_capacity(alloc, modules.len())?;
    for module in modules {
        list.push(module_json(alloc, module)?)?;
    }
    Ok(Value::Array(list))
}

fn object_json(alloc: Global, object: &ObjectView) -> Result<Value, AllocError> {
    let number = object.number;
    let handles = object.handles;
    let of = &object.type_name;
    match &object.contents {
        ContentsView::Fields(fields) => {
            let fields = named_list(alloc, fields)?;
            json!(in alloc; {"number": number, "type": of, "handles": handles, "fields": fields})
        }
        ContentsView::Elements(elements) => {
            let elements = word_list(alloc, elements)?;
            json!(in alloc; {"number": number, "type": of, "handles": handles, "elements": elements})
        }
        ContentsView::HostState(state) => {
            let state = hex_text(alloc, state)?;
            json!(in alloc; {"number": number, "type": of, "handles": handles, "state": &state})
        }
    }
}

fn object_list(alloc: Global, objects: &[ObjectView]) -> Result<Value, AllocError> {
    let mut list = Vec::with_capacity(alloc, objects.len())?;
    for object in objects {
        list.push(object_json(alloc, object)?)?;
    }
    Ok(Value::Array(list))
}

fn service_list(alloc: Global, services: &[ServiceView]) -> Result<Value, AllocError> {
    let mut list = Vec::with_capacity(alloc, services.len())?;
    for service in services {
        let kind = service.kind;
        let state = hex_text(alloc, &service.state)?;
        list.push(json!(in alloc; {"kind": kind, "state": &state})?)?;
    }
    Ok(Value::Array(list))
}

fn open_json(alloc: Global, open: &OpenFile, what: &str, bytes: u64) -> Result<Value, AllocError> {
    let generation = open.generation;
    let records = open.records as u64;
    let answers = answers_of(open);
    let damaged = open.damage.is_some();
    json!(in alloc; {
        "is": what, "generation": generation, "records": records, "answers": answers, "damaged": damaged, "bytes": bytes
    })
}

fn file_json(alloc: Global, report: &StoreReport, side: Side) -> Result<Value, AllocError> {
    let bytes = report.len(side) as u64;
    let is_current = report.current == Current::Is(side);
    match report.file(side) {
        FileReport::Open(open) => open_json(
            alloc,
            open,
            if is_current { "current" } else { "older" },
            bytes,
        ),
        FileReport::Closed { behind: Some(open) } => open_json(alloc, open, "closed", bytes),
        FileReport::Closed { behind: None } => json!(in alloc; {"is": "closed", "bytes": bytes}),
        FileReport::NoImage(generation) => {
            let generation = *generation;
            json!(in alloc; {"is": "damaged", "generation": generation, "bytes": bytes})
        }
        FileReport::Unmarked => json!(in alloc; {"is": "damaged", "bytes": bytes}),
    }
}

fn view_json(
    alloc: Global,
    side: Side,
    answers: u64,
    view: &StateView,
    files: Value,
) -> Result<Value, AllocError> {
    let modules = module_list(alloc, &view.modules)?;
    let objects = object_list(alloc, &view.objects)?;
    let services = service_list(alloc, &view.services)?;
    let file = side.to_string(alloc)?;
    json!(in alloc; {
        "file": &file, "answers": answers, "modules": modules, "objects": objects, "services": services, "files": files
    })
}

/// What a store holds, as the text of JSON, with a line feed at its end.
pub fn show_json(alloc: Global, report: &StoreReport) -> Result<String, AllocError> {
    let first = file_json(alloc, report, Side::First)?;
    let second = file_json(alloc, report, Side::Second)?;
    let files = json!(in alloc; {"ash.a": first, "ash.b": second})?;
    let value = match report.last_known() {
        Some((side, _, known)) => {
            let view = view_of(alloc, &known.stored.state)?;
            view_json(alloc, side, known.stored.state.seq, &view, files)?
        }
        None => json!(in alloc; {"files": files})?,
    };
    let mut text = value.to_string_pretty(alloc)?;
    text.push_str("\n")?;
    Ok(text)
}
