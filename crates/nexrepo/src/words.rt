ghost use Rattle.std.specs.Prelude.{◌≡◌, IfOk, bytes_eq, codes, string_bytes};
ghost use Rattle.nexrepo.specs.Commands.{GivesCommand};

use nx_base::NoMemory;
use std::alloc::Global;

/// What the command line asks for.
#[derive(Drop)]
pub enum Command {
    /// One session from standard input to standard output.
    Stdio { folder: String },
}

/// Why no command is read.
#[derive(Clone, Copy, Debug, PartialEq, Eq)]
pub enum Usage {
    /// The words are none that the program knows.
    Words,
    NoMemory,
}

fn copied(alloc: Global, word: &str) -> Result<String, NoMemory>
    ensures { IfOk result (λ copy. string_bytes copy ≡ word.now) }
{
    String::from_str(alloc, word).map_err(|_| NoMemory)
}

fn is_stdio(word: &str) -> bool
    ensures { result ≡ bytes_eq word.now (codes "stdio") }
{
    word == "stdio"
}

/// Reads the words behind the program's name: a folder, which is any text that isn't empty, and `stdio`.
pub fn read_words(alloc: Global, words: &[String]) -> Result<Command, Usage>
    ensures { GivesCommand words.now result }
{
    let [folder, command] = words else {
        return Err(Usage::Words);
    };
    if folder.is_empty() || !is_stdio(command) {
        return Err(Usage::Words);
    }
    match copied(alloc, folder.as_str()) {
        Ok(folder) => Ok(Command::Stdio { folder }),
        Err(NoMemory) => Err(Usage::NoMemory),
    }
}
