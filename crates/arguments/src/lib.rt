// What a call of `judge` asks for, by its words: `judge [COMMAND] [FILE]`.
#![tactic(auto)]

ghost use Rattle.std.specs.Prelude.{◌≡◌, length};
ghost use Rattle.arguments.specs.Arguments as Spec;

// The commands, those that `judge help` lists.
#[derive(Clone, Copy, PartialEq, Eq)]
pub enum Command {
    Sheet,
    Display,
    Coach,
    Read,
    Help,
}

// What is read: standard input, or the file that the first or the second word names.
#[derive(Clone, Copy, PartialEq, Eq)]
pub enum Source {
    StandardInput,
    FirstWord,
    SecondWord,
}

// What is asked for: a command, and what it reads.
#[derive(Clone, Copy, PartialEq, Eq)]
pub struct Asked {
    pub command: Command,
    pub source: Source,
}

// Whether a word is this one.
fn is_word(word: &[u8], name: &[u8]) -> bool
    ensures { result ≡ Spec.is_word word.now name.now }
{
    word == name
}

// The command that a word is, or none.
pub fn command_of(word: &[u8]) -> Option<Command>
    ensures { result ≡ Spec.command_of word.now }
{
    if is_word(word, b"sheet") {
        return Some(Command::Sheet);
    }
    if is_word(word, b"display") {
        return Some(Command::Display);
    }
    if is_word(word, b"coach") {
        return Some(Command::Coach);
    }
    if is_word(word, b"read") {
        return Some(Command::Read);
    }
    if is_word(word, b"help") {
        return Some(Command::Help);
    }
    None
}

// Standard input for `-`, otherwise the file of that name.
fn source_of(word: &[u8], file: Source) -> Source
    ensures { result ≡ Spec.source_of word.now file }
{
    if is_word(word, b"-") {
        return Source::StandardInput;
    }
    file
}

// What so many words ask for, of which the first two are given; none where it cannot be told.
// A count beside the two words and no slice of words: of a third word it is known only that it is there, so that a slice would need bytes that stand for it.
pub fn asked_by(words: usize, first: &[u8], second: &[u8]) -> Option<Asked>
    ensures { result ≡ Spec.asked_of words first.now second.now }
{
    if words == 0 {
        return Some(Asked {
            command: Command::Sheet,
            source: Source::StandardInput,
        });
    }
    let too_many = words > 2;
    if too_many {
        return None;
    }
    if words == 1 {
        return match command_of(first) {
            None => Some(Asked {
                command: Command::Sheet,
                source: source_of(first, Source::FirstWord),
            }),
            Some(command) => Some(Asked {
                command,
                source: Source::StandardInput,
            }),
        };
    }
    let command = command_of(first)?;
    let source = source_of(second, Source::SecondWord);
    Some(Asked { command, source })
}
