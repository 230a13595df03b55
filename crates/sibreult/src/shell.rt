//! The command `shell`: lines of standard input are read as commands, and answered on standard output.

use crate::ending::Ending;
use crate::opening::{remove_made, store_sentence};
use crate::run::argument;
use crate::words::Limits;
use ash_console::replies::{Answered, Call, answer_to};
use ash_console::script::{file_trouble, read_script};
use ash_console::store::{StoreFiles, StorePaths, open_files};
use ash_console::stored::{Stored, read_stored, source_of};
use ash_disk::{Disk, MemoryDisk};
use ash_durable::Host;
use ash_host::HostObject;
use ash_image::stored::StoredModule;
use ash_outline::routines::functions_of;
use ash_requests::{Arg, Reply};
use ash_serve::program::registrations::registrations;
use std::alloc::Global;
use std::fs::{File, Files};

/// What `help` prints.
const HELP: &str =
    "load MODULE FILE        check a script, run its initializers, and keep it as a module
MODULE.FUNCTION(ARGS)   call a function with true, false or whole numbers
MODULE.GLOBAL           the value of a global
object N                what the object of a number is, and has in it
modules                 the modules that are loaded
functions MODULE        the functions of a module
discard MODULE          remove a module with its globals
snapshot                write the whole state afresh
quit, exit              end
";

/// What a shell has: the modules that are loaded, with their sources, what scripts may use, and the text of what is
/// registered.
#[derive(Drop)]
struct Session {
    modules: Vec<StoredModule>,
    budget: u64,
    registered: String,
}

/// A command of the shell.
enum Command<'a> {
    Nothing,
    Load {
        module: &'a str,
        file: &'a str,
    },
    Discard {
        module: &'a str,
    },
    Object {
        number: u64,
    },
    Modules,
    Functions {
        module: &'a str,
    },
    Snapshot,
    Help,
    Quit,
    Call {
        module: &'a str,
        function: &'a str,
        arguments: &'a str,
    },
    Global {
        module: &'a str,
        name: &'a str,
    },
    Unknown,
}

/// The command that a line is.
fn command_of(line: &str) -> Command<'_> {
    let line = line.trim();
    let (first, rest) = match line.split_once(' ') {
        Some((first, rest)) => (first, rest.trim()),
        None => (line, ""),
    };
    match (first, rest) {
        ("", _) => Command::Nothing,
        ("modules", "") => Command::Modules,
        ("snapshot", "") => Command::Snapshot,
        ("help", "") => Command::Help,
        ("quit", "") | ("exit", "") => Command::Quit,
        ("discard", module) if is_word(module) => Command::Discard { module },
        ("functions", module) if is_word(module) => Command::Functions { module },
        ("load", words) => load_command(words),
        ("object", number) => match number.parse::<u64>() {
            Ok(number) => Command::Object { number },
            Err(_) => Command::Unknown,
        },
        _ => member_command(line),
    }
}

/// Whether a text is one word.
fn is_word(text: &str) -> bool {
    !text.is_empty() && !text.contains(' ')
}

fn load_command(words: &str) -> Command<'_> {
    match words.split_once(' ') {
        Some((module, file)) => Command::Load {
            module,
            file: file.trim(),
        },
        None => Command::Unknown,
    }
}

/// A call of a function, or a global: what has a dot in it.
fn member_command(line: &str) -> Command<'_> {
    let Some((module, member)) = line.split_once('.') else {
        return Command::Unknown;
    };
    match member.split_once('(') {
        None => Command::Global {
            module,
            name: member,
        },
        Some((function, listed)) => match listed.trim_end().strip_suffix(')') {
            Some(arguments) => Command::Call {
                module,
                function: function.trim_end(),
                arguments,
            },
            None => Command::Unknown,
        },
    }
}

/// The arguments that are listed with commas. `None` where one is no argument.
fn listed_arguments(alloc: Global, listed: &str) -> anyhow::Result<Option<Vec<Arg>>> {
    let mut arguments = Vec::new(alloc);
    if listed.trim().is_empty() {
        return Ok(Some(arguments));
    }
    for word in listed.split(',') {
        match argument(word.trim()) {
            Some(argument) => arguments.push(argument)?,
            None => return Ok(None),
        }
    }
    Ok(Some(arguments))
}

/// Reads commands from standard input, with these free boxes and these services.
pub fn shell<R: Files<File = File> + AllocGlobal + Input + Print + Eprint, B: HostObject>(
    rt: &R,
    folder: Option<&str>,
    limits: Limits,
    pool: Vec<B>,
    services: Vec<B>,
) -> anyhow::Result<Ending> {
    match folder {
        None => shell_in_memory(rt, limits, pool, services),
        Some(folder) => shell_in_store(rt, folder, limits, pool, services),
    }
}

fn shell_in_memory<R: Files<File = File> + AllocGlobal + Input + Print + Eprint, B: HostObject>(
    rt: &R,
    limits: Limits,
    pool: Vec<B>,
    services: Vec<B>,
) -> anyhow::Result<Ending> {
    let alloc = rt.alloc();
    let (a, b) = (MemoryDisk::new(alloc), MemoryDisk::new(alloc));
    let registry = registrations(alloc)?;
    let session = Session {
        modules: Vec::new(alloc),
        budget: limits.budget,
        registered: String::from_str(alloc, registry.text())?,
    };
    match Host::create(alloc, a, b, registry, pool, services) {
        Ok(host) => read_commands(rt, host, session),
        Err(refused) => {
            let sentence = store_sentence(alloc, "memory", refused.fault, 0)?;
            eprintln!(rt; "{sentence}")?;
            Ok(Ending::Impossible)
        }
    }
}

fn shell_in_store<R: Files<File = File> + AllocGlobal + Input + Print + Eprint, B: HostObject>(
    rt: &R,
    folder: &str,
    limits: Limits,
    pool: Vec<B>,
    services: Vec<B>,
) -> anyhow::Result<Ending> {
    let paths = StorePaths::of(rt.alloc(), folder)?;
    match open_files(rt, &paths) {
        Err(trouble) => {
            let sentence = trouble.sentence();
            eprintln!(rt; "{folder}: {sentence}")?;
            Ok(Ending::Impossible)
        }
        Ok(files) => shell_in_files(rt, &paths, files, limits, pool, services),
    }
}

/// Makes or opens the store that files are for, and reads commands for it.
fn shell_in_files<R: Files<File = File> + AllocGlobal + Input + Print + Eprint, B: HostObject>(
    rt: &R,
    paths: &StorePaths,
    files: StoreFiles,
    limits: Limits,
    pool: Vec<B>,
    services: Vec<B>,
) -> anyhow::Result<Ending> {
    let alloc = rt.alloc();
    let StoreFiles { a, b, lock, is_new } = files;
    let Stored {
        a,
        b,
        modules,
        counters,
    } = read_stored(alloc, a, b);
    let registry = registrations(alloc)?;
    let session = Session {
        modules,
        budget: limits.budget,
        registered: String::from_str(alloc, registry.text())?,
    };
    let opened = if is_new {
        Host::create(alloc, a, b, registry, pool, services)
    } else {
        Host::open(alloc, a, b, registry, pool, services)
    };
    let ending = match opened {
        Ok(host) => read_commands(rt, host, session)?,
        Err(refused) => {
            remove_made(rt, paths, refused.fault);
            let folder = paths.folder.as_str();
            let sentence = store_sentence(alloc, folder, refused.fault, counters)?;
            eprintln!(rt; "{sentence}")?;
            Ending::Impossible
        }
    };
    drop(lock);
    Ok(ending)
}

/// Reads lines up to `quit`, `exit` or the end, and does what they say.
fn read_commands<
    R: Files<File = File> + AllocGlobal + Input + Print,
    D: Disk + Drop,
    B: HostObject,
>(rt: &R, host: Host<D, B>, session: Session) -> anyhow::Result<Ending> {
    let mut host = host;
    let mut session = session;
    for line in rt.lines(rt.alloc()) {
        let line = line?;
        match command_of(&line) {
            Command::Quit => return Ok(Ending::Done),
            command => obey(rt, &mut host, &mut session, command)?,
        }
    }
    Ok(Ending::Done)
}

/// Does what a command says, and prints the answer.
fn obey<R: Files<File = File> + AllocGlobal + Print, D: Disk, B: HostObject>(
    rt: &R,
    host: &mut Host<D, B>,
    session: &mut Session,
    command: Command<'_>,
) -> anyhow::Result<()> {
    match command {
        Command::Nothing | Command::Quit => Ok(()),
        Command::Help => Ok(print!(rt; "{HELP}")?),
        Command::Unknown => Ok(println!(rt; "there is no such command: `help` lists them")?),
        Command::Modules => print_modules(rt, session),
        Command::Functions { module } => print_functions(rt, session, module),
        Command::Load { module, file } => load(rt, host, session, module, file),
        Command::Discard { module } => discard(rt, host, session, module),
        Command::Call {
            module,
            function,
            arguments,
        } => call(rt, host, session, module, function, arguments),
        Command::Global { module, name } => {
            let reply = host.global(module, name);
            print_answer(rt, call_of(session, module, name), &reply, "")
        }
        Command::Object { number } => {
            let reply = host.object(number);
            print_answer(rt, call_of(session, "object", ""), &reply, "")
        }
        Command::Snapshot => {
            let reply = match host.snapshot() {
                Ok(()) => Reply::Done,
                Err(refusal) => Reply::Refused(refusal),
            };
            print_answer(rt, call_of(session, "snapshot", ""), &reply, "written")
        }
    }
}

/// What a request is about: a module and a name in it.
fn call_of<'a>(session: &'a Session, module: &'a str, name: &'a str) -> Call<'a> {
    Call {
        file: module,
        script: source_of(&session.modules, module).unwrap_or(&[]),
        module,
        function: name,
        arguments: &[],
        budget: session.budget,
        registered: session.registered.as_str(),
    }
}

/// What a load is about: a module, and the file of its script.
fn call_of_file<'a>(
    session: &'a Session,
    module: &'a str,
    file: &'a str,
    script: &'a [u8],
) -> Call<'a> {
    Call {
        file,
        script,
        module,
        function: "",
        arguments: &[],
        budget: session.budget,
        registered: session.registered.as_str(),
    }
}

/// Prints what a request came to; `done` where that is nothing and all went well.
fn print_answer<R: AllocGlobal + Print>(
    rt: &R,
    call: Call<'_>,
    reply: &ash_states::state::HostReply,
    done: &str,
) -> anyhow::Result<()> {
    let Answered { ending, lines } = answer_to(rt.alloc(), call, reply)?;
    if lines.is_empty() && ending == Ending::Done && !done.is_empty() {
        println!(rt; "{done}")?;
    } else {
        print!(rt; "{lines}")?;
    }
    Ok(())
}

fn print_modules<R: Print>(rt: &R, session: &Session) -> anyhow::Result<()> {
    for module in &session.modules {
        let name = module.name.as_str();
        println!(rt; "{name}")?;
    }
    if session.modules.is_empty() {
        println!(rt; "no module is loaded")?;
    }
    Ok(())
}

fn print_functions<R: AllocGlobal + Print>(
    rt: &R,
    session: &Session,
    module: &str,
) -> anyhow::Result<()> {
    match source_of(&session.modules, module) {
        Some(source) => {
            let names = functions_of(rt.alloc(), source)?;
            println!(rt; "{names}")?;
        }
        None => println!(rt; "{module}: no module of this name is loaded")?,
    }
    Ok(())
}

/// Loads the script in a file as a module.
fn load<R: Files<File = File> + AllocGlobal + Print, D: Disk, B: HostObject>(
    rt: &R,
    host: &mut Host<D, B>,
    session: &mut Session,
    module: &str,
    file: &str,
) -> anyhow::Result<()> {
    let script = match read_script(rt, file) {
        Ok(script) => script,
        Err(error) => {
            let trouble = file_trouble(&error);
            println!(rt; "{file}: {trouble}")?;
            return Ok(());
        }
    };
    let name = String::from_str(rt.alloc(), module)?;
    session.modules.reserve(1)?;
    let reply = host.load(module, &script, session.budget);
    let about = call_of_file(session, module, file, &script);
    let Answered { ending, lines } = answer_to(rt.alloc(), about, &reply)?;
    if ending == Ending::Done {
        println!(rt; "{module} is loaded")?;
        session.modules.push(StoredModule {
            name,
            source: script,
            globals: Vec::new(rt.alloc()),
        })?;
    } else {
        print!(rt; "{lines}")?;
    }
    Ok(())
}

/// Removes a module.
fn discard<R: AllocGlobal + Print, D: Disk, B: HostObject>(
    rt: &R,
    host: &mut Host<D, B>,
    session: &mut Session,
    module: &str,
) -> anyhow::Result<()> {
    let reply = host.discard(module);
    let Answered { ending, lines } = answer_to(rt.alloc(), call_of(session, module, ""), &reply)?;
    if ending == Ending::Done {
        println!(rt; "{module} is discarded")?;
        session
            .modules
            .retain(|loaded| loaded.name.as_str() != module);
    } else {
        print!(rt; "{lines}")?;
    }
    Ok(())
}

/// Calls a function of a module.
fn call<R: AllocGlobal + Print, D: Disk, B: HostObject>(
    rt: &R,
    host: &mut Host<D, B>,
    session: &Session,
    module: &str,
    function: &str,
    listed: &str,
) -> anyhow::Result<()> {
    let Some(arguments) = listed_arguments(rt.alloc(), listed)? else {
        println!(rt; "an argument is true, false or a whole number")?;
        return Ok(());
    };
    let reply = host.call(module, function, &arguments, session.budget);
    print_answer(rt, call_of(session, module, function), &reply, "done")
}
