//! The command `run`.

use crate::ending::Ending;
use crate::opening::{remove_made, store_sentence};
use crate::words::RunTask;
use ash_console::replies::{Answered, Call, answer_to};
use ash_console::script::{file_trouble, module_of, read_script};
use ash_console::store::{StoreFiles, StorePaths, open_files};
use ash_console::stored::{Stored, read_stored, source_of};
use ash_disk::{Disk, FileDisk, MemoryDisk};
use ash_durable::Host;
use ash_host::HostObject;
use ash_requests::Arg;
use ash_serve::program::registrations::registrations;
use ash_states::state::HostReply;
use std::fs::{File, Files};

/// Loads a script and calls a function of it, with these free boxes and these services.
pub fn run<R: Files<File = File> + AllocGlobal + Print + Eprint, B: HostObject>(
    rt: &R,
    task: &RunTask<'_>,
    pool: Vec<B>,
    services: Vec<B>,
) -> anyhow::Result<Ending> {
    let file = task.file;
    let script = match read_script(rt, file) {
        Ok(script) => script,
        Err(error) => {
            let trouble = file_trouble(&error);
            eprintln!(rt; "{file}: {trouble}")?;
            return Ok(Ending::Impossible);
        }
    };
    let Some(arguments) = read_arguments(rt, &task.arguments)? else {
        return Ok(Ending::Impossible);
    };
    let registry = registrations(rt.alloc())?;
    let call = Call {
        file,
        script: script.as_slice(),
        module: module_of(file),
        function: task.function,
        arguments: arguments.as_slice(),
        budget: task.limits.budget,
        registered: registry.text(),
    };
    match task.store {
        None => run_in_memory(rt, call, pool, services),
        Some(folder) => run_in_store(rt, call, folder, pool, services),
    }
}

/// The arguments that words are. `None` where one is no argument, which is printed.
fn read_arguments<R: AllocGlobal + Eprint>(
    rt: &R,
    words: &[&str],
) -> anyhow::Result<Option<Vec<Arg>>> {
    let mut arguments = Vec::new(rt.alloc());
    for word in words {
        match argument(word) {
            Some(argument) => arguments.push(argument)?,
            None => {
                eprintln!(rt; "'{word}' is no argument: it is true, false or a whole number")?;
                return Ok(None);
            }
        }
    }
    Ok(Some(arguments))
}

/// The argument that a word is.
pub fn argument(word: &str) -> Option<Arg> {
    match word {
        "true" => Some(Arg::Truth(true)),
        "false" => Some(Arg::Truth(false)),
        _ => match word.parse::<i128>() {
            Ok(number) => Some(Arg::Number(number)),
            Err(_) => None,
        },
    }
}

/// Makes a call, with the state in memory.
fn run_in_memory<R: AllocGlobal + Print + Eprint, B: HostObject>(
    rt: &R,
    call: Call<'_>,
    pool: Vec<B>,
    services: Vec<B>,
) -> anyhow::Result<Ending> {
    let alloc = rt.alloc();
    let registry = registrations(alloc)?;
    let (a, b) = (MemoryDisk::new(alloc), MemoryDisk::new(alloc));
    match Host::create(alloc, a, b, registry, pool, services) {
        Ok(host) => load_and_call(rt, host, call, false),
        Err(refused) => {
            let sentence = store_sentence(alloc, call.file, refused.fault, 0)?;
            eprintln!(rt; "{sentence}")?;
            Ok(Ending::Impossible)
        }
    }
}

/// Makes a call, with the state in the store of a folder.
fn run_in_store<R: Files<File = File> + AllocGlobal + Print + Eprint, B: HostObject>(
    rt: &R,
    call: Call<'_>,
    folder: &str,
    pool: Vec<B>,
    services: Vec<B>,
) -> anyhow::Result<Ending> {
    let paths = StorePaths::of(rt.alloc(), folder)?;
    match open_files(rt, &paths) {
        Err(trouble) => {
            let sentence = trouble.sentence();
            eprintln!(rt; "{folder}: {sentence}")?;
            Ok(Ending::Impossible)
        }
        Ok(files) => {
            let StoreFiles { a, b, lock, is_new } = files;
            let ending = if is_new {
                run_in_new(rt, call, &paths, (a, b), pool, services)
            } else {
                run_in_old(rt, call, folder, (a, b), pool, services)
            };
            drop(lock);
            ending
        }
    }
}

/// Makes a store in files that are empty, and a call in it.
fn run_in_new<R: Files<File = File> + AllocGlobal + Print + Eprint, B: HostObject>(
    rt: &R,
    call: Call<'_>,
    paths: &StorePaths,
    disks: (FileDisk, FileDisk),
    pool: Vec<B>,
    services: Vec<B>,
) -> anyhow::Result<Ending> {
    let registry = registrations(rt.alloc())?;
    match Host::create(rt.alloc(), disks.0, disks.1, registry, pool, services) {
        Ok(host) => load_and_call(rt, host, call, false),
        Err(refused) => {
            remove_made(rt, paths, refused.fault);
            let sentence = store_sentence(rt.alloc(), paths.folder.as_str(), refused.fault, 0)?;
            eprintln!(rt; "{sentence}")?;
            Ok(Ending::Impossible)
        }
    }
}

/// Opens the store that is in files, and makes a call in it. A module that is loaded with this script is not loaded
/// again; one with another script is left as it is, and nothing is called.
fn run_in_old<R: AllocGlobal + Print + Eprint, B: HostObject>(
    rt: &R,
    call: Call<'_>,
    folder: &str,
    disks: (FileDisk, FileDisk),
    pool: Vec<B>,
    services: Vec<B>,
) -> anyhow::Result<Ending> {
    let Stored {
        a,
        b,
        modules,
        counters,
    } = read_stored(rt.alloc(), disks.0, disks.1);
    let source = source_of(&modules, call.module);
    let is_loaded = source.is_some();
    if let Some(source) = source {
        if source != call.script {
            let Call { file, module, .. } = call;
            eprintln!(rt;
                "{folder}: the store has a module '{module}' of another text than {file}"
            )?;
            eprintln!(rt;
                "    if you changed it: `discard {module}` in `sibreult shell {folder}` removes it with its globals"
            )?;
            return Ok(Ending::Impossible);
        }
    }
    let registry = registrations(rt.alloc())?;
    match Host::open(rt.alloc(), a, b, registry, pool, services) {
        Ok(host) => load_and_call(rt, host, call, is_loaded),
        Err(refused) => {
            let sentence = store_sentence(rt.alloc(), folder, refused.fault, counters)?;
            eprintln!(rt; "{sentence}")?;
            Ok(Ending::Impossible)
        }
    }
}

/// Loads the script, if that is not done, and calls the function.
fn load_and_call<R: AllocGlobal + Print + Eprint, D: Disk + Drop, B: HostObject>(
    rt: &R,
    host: Host<D, B>,
    call: Call<'_>,
    is_loaded: bool,
) -> anyhow::Result<Ending> {
    let mut host = host;
    if !is_loaded {
        let reply = host.load(call.module, call.script, call.budget);
        match print_reply(rt, call, &reply)? {
            Ending::Done => (),
            ending => return Ok(ending),
        }
    }
    let reply = host.call(call.module, call.function, call.arguments, call.budget);
    print_reply(rt, call, &reply)
}

/// Prints what a load or a call came to: a value on standard output, anything else on standard error.
fn print_reply<R: AllocGlobal + Print + Eprint>(
    rt: &R,
    call: Call<'_>,
    reply: &HostReply,
) -> anyhow::Result<Ending> {
    let Answered { ending, lines } = answer_to(rt.alloc(), call, reply)?;
    match ending {
        Ending::Done => print!(rt; "{lines}")?,
        Ending::AtFault | Ending::Impossible => eprint!(rt; "{lines}")?,
    }
    Ok(ending)
}
