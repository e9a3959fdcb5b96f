//! The first of the arguments that makes them no command.
use crate::names::shown;
use std::alloc::{AllocError, Global};

// An option of a command: its name, and the numbers that it takes, if it takes one.
#[derive(Clone, Copy)]
struct CommandOption {
    name: &'static str,
    numbers: Option<(u32, u32)>,
    is_needed: bool,
}

const WORKERS: CommandOption = CommandOption {
    name: "--workers",
    numbers: Some((0, 8)),
    is_needed: false,
};

const SEED: CommandOption = CommandOption {
    name: "--seed",
    numbers: Some((0, u32::MAX)),
    is_needed: true,
};

const ALL: CommandOption = CommandOption {
    name: "--all",
    numbers: None,
    is_needed: false,
};

const PLAN: CommandOption = CommandOption {
    name: "--plan",
    numbers: None,
    is_needed: false,
};

const COLUMNS: CommandOption = CommandOption {
    name: "--cols",
    numbers: Some((1, 16)),
    is_needed: true,
};

const ROWS: CommandOption = CommandOption {
    name: "--rows",
    numbers: Some((1, 16)),
    is_needed: true,
};

// The options of a command, if there is one of that name.
fn options_of(name: &str) -> Option<&'static [CommandOption]> {
    match name {
        "edit" => Some(&[WORKERS]),
        "info" => Some(&[ALL]),
        "make" => Some(&[SEED]),
        "pack" => Some(&[PLAN]),
        "view" => Some(&[COLUMNS, ROWS]),
        "render" | "flatten" | "audit" | "serve" => Some(&[]),
        _ => None,
    }
}

// The option of that name, if the command has it.
fn option_named(options: &[CommandOption], name: &str) -> Option<CommandOption> {
    for option in options {
        if option.name == name {
            return Some(*option);
        }
    }
    None
}

// Whether a word is a number that an option takes.
fn is_taken(word: &str, numbers: (u32, u32)) -> bool {
    match word.parse::<u32>() {
        Ok(number) => numbers.0 <= number && number <= numbers.1,
        Err(_) => false,
    }
}

// What is wrong with the value of an option, if it is.
fn value_fault(
    alloc: Global,
    option: CommandOption,
    value: &str,
) -> Result<Option<String>, AllocError> {
    let name = option.name;
    let Some(numbers) = option.numbers else {
        return Ok(Some(format!(in alloc; "{name} takes no number")?));
    };
    if is_taken(value, numbers) {
        return Ok(None);
    }
    let (least, most) = numbers;
    let value = shown(value);
    Ok(Some(format!(in alloc; "{name} takes a number from {least} to {most}, not \"{value}\"")?))
}

// What was met so far of the arguments behind a command's name.
#[derive(Drop)]
struct Walk<'a> {
    name: &'a str,
    options: &'a [CommandOption],
    // The option whose number comes next.
    awaiting: Option<CommandOption>,
    // Whether `--` was met, behind which nothing is an option.
    only_files: bool,
    has_file: bool,
}

impl<'a> Walk<'a> {
    // What is wrong with an option's name, if it is; a number may stand behind it, after `=`.
    fn option_fault(&mut self, alloc: Global, word: &str) -> Result<Option<String>, AllocError> {
        let (name, value) = match word.split_once('=') {
            Some((name, value)) => (name, Some(value)),
            None => (word, None),
        };
        let Some(option) = option_named(self.options, name) else {
            let command = self.name;
            let name = shown(name);
            return Ok(Some(format!(in alloc; "\"{name}\" is no option of {command}")?));
        };
        match value {
            Some(value) => value_fault(alloc, option, value),
            None => {
                self.awaiting = option.numbers.map(|_| option);
                Ok(None)
            }
        }
    }

    // What is wrong with a word that is no option and no option's number, if it is.
    fn file_fault(&mut self, alloc: Global, word: &str) -> Result<Option<String>, AllocError> {
        let is_first = !self.has_file;
        self.has_file = true;
        let word_shown = shown(word);
        if word.starts_with('-') && (is_first || !self.only_files) {
            return Ok(Some(format!(in alloc; "\"{word_shown}\" begins with a minus")?));
        }
        if is_first {
            return Ok(None);
        }
        Ok(Some(format!(in alloc; "\"{word_shown}\" is one word too many")?))
    }

    // What is wrong with the next word, if it is.
    fn fault_of(&mut self, alloc: Global, word: &str) -> Result<Option<String>, AllocError> {
        if let Some(option) = self.awaiting.take() {
            return value_fault(alloc, option, word);
        }
        if self.only_files || !word.starts_with("--") {
            return self.file_fault(alloc, word);
        }
        if word == "--" {
            self.only_files = true;
            return Ok(None);
        }
        self.option_fault(alloc, word)
    }

    // What is lacking behind the last word, if something is.
    fn lack(&self, alloc: Global, words: &[&str]) -> Result<Option<String>, AllocError> {
        let name = self.name;
        if let Some(option) = self.awaiting {
            let option = option.name;
            return Ok(Some(format!(in alloc; "{option} has no number behind it")?));
        }
        if !self.has_file {
            return Ok(Some(format!(in alloc; "{name} takes a FILE")?));
        }
        match lacking_option(self.options, words) {
            Some(option) => Ok(Some(format!(in alloc; "{name} takes {option} N")?)),
            None => Ok(None),
        }
    }
}

// Whether an option stands among the words.
fn is_given(option: &str, words: &[&str]) -> bool {
    for word in words {
        if word.starts_with(option) {
            return true;
        }
    }
    false
}

// Whether an option stands among the words twice.
fn is_given_twice(option: &str, words: &[&str]) -> bool {
    for place in 0..words.len() {
        if words[place].starts_with(option) {
            return is_given(option, &words[place + 1..]);
        }
    }
    false
}

// The first option that is given twice.
fn doubled_option(options: &[CommandOption], words: &[&str]) -> Option<&'static str> {
    for option in options {
        if is_given_twice(option.name, words) {
            return Some(option.name);
        }
    }
    None
}

// The first option that the command needs and that is not there.
fn lacking_option(options: &[CommandOption], words: &[&str]) -> Option<&'static str> {
    for option in options {
        if option.is_needed && !is_given(option.name, words) {
            return Some(option.name);
        }
    }
    None
}

// The first fault of the words behind a command's name.
fn first_fault(
    alloc: Global,
    walk: &mut Walk<'_>,
    words: &[&str],
) -> Result<Option<String>, AllocError> {
    for word in words {
        if let Some(fault) = walk.fault_of(alloc, word)? {
            return Ok(Some(fault));
        }
    }
    walk.lack(alloc, words)
}

/// What is wrong with arguments that are no command: the first word that is wrong, what is lacking, or which option is
/// given twice.
pub fn words_fault(alloc: Global, words: &[&str]) -> Result<String, AllocError> {
    let Some((name, rest)) = words.split_first() else {
        return String::from_str(alloc, "there is no command");
    };
    let Some(options) = options_of(name) else {
        let name = shown(name);
        return format!(in alloc; "\"{name}\" is no command");
    };
    let mut walk = Walk {
        name,
        options,
        awaiting: None,
        only_files: false,
        has_file: false,
    };
    if let Some(fault) = first_fault(alloc, &mut walk, rest)? {
        return Ok(fault);
    }
    match doubled_option(options, rest) {
        Some(option) => format!(in alloc; "{option} is given twice"),
        None => String::from_str(alloc, "these words are no command"),
    }
}
