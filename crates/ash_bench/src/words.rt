//! What the words of the command line ask for.

/// What is measured.
#[derive(Clone, Copy)]
pub enum Bench<'a> {
    Lex,
    Parse,
    Check,
    Objects,
    Image,
    Journal { folder: &'a str },
}

/// What is measured, and how many rounds of it.
#[derive(Clone, Copy)]
pub struct Task<'a> {
    pub bench: Bench<'a>,
    pub rounds: Option<u64>,
}

impl<'a> Bench<'a> {
    /// The one of this name, where it takes no folder.
    fn without_folder(name: &str) -> Option<Bench<'a>> {
        match name {
            "lex" => Some(Bench::Lex),
            "parse" => Some(Bench::Parse),
            "check" => Some(Bench::Check),
            "objects" => Some(Bench::Objects),
            "image" => Some(Bench::Image),
            _ => None,
        }
    }
}

impl<'a> Task<'a> {
    /// Reads the words, of which the first is the program's name. `None` where they ask for nothing.
    pub fn read(words: &'a [String]) -> Option<Task<'a>> {
        match words {
            [_, name, rest @ ..] => Task::named(name.as_str(), rest),
            _ => None,
        }
    }

    /// Reads the words after the name of what is measured.
    fn named(name: &str, words: &'a [String]) -> Option<Task<'a>> {
        if name != "journal" {
            return Task::with_rounds(Bench::without_folder(name)?, words);
        }
        let [folder, rest @ ..] = words else {
            return None;
        };
        let folder = folder.as_str();
        Task::with_rounds(Bench::Journal { folder }, rest)
    }

    /// Reads the words after what is measured.
    fn with_rounds(bench: Bench<'a>, words: &[String]) -> Option<Task<'a>> {
        let rounds = match words {
            [] => None,
            [rounds] => Some(rounds.parse().ok()?),
            _ => return None,
        };
        Some(Task { bench, rounds })
    }
}
