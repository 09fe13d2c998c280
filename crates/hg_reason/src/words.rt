//! Words of the command line that are refused.

use crate::reason::Reason;
use crate::shown::is_shown_as_it_is;
use hg_base::NoMemory;
use std::alloc::Global;

const MODES: [&str; 5] = ["replay", "run", "audit", "dump", "live"];

const OPTIONS: [&str; 4] = ["--buckets", "--long", "--rounds", "--sweepers"];

fn is_mode(word: &str) -> bool {
    MODES.iter().any(|mode| *mode == word)
}

// Whether the next word is the value of this one.
fn takes_next(word: &str) -> bool {
    OPTIONS.iter().any(|option| *option == word)
}

fn is_number(word: &str) -> bool {
    word.bytes().all(|b| b.is_ascii_digit())
}

// The place of the first word that is no option, no value of one, no mode and no number.
fn find_file(words: &[String]) -> Option<usize> {
    let mut is_value = false;
    for (i, word) in words.iter().enumerate() {
        let word = word.as_str();
        if !is_value && !word.starts_with("-") && !is_mode(word) && !is_number(word) {
            return Some(i);
        }
        is_value = !is_value && takes_next(word);
    }
    None
}

// Whether a shell reads the bytes as one word, and as they are.
fn is_plain(word: &str) -> bool {
    !word.is_empty()
        && word
            .bytes()
            .all(|b| b.is_ascii_alphanumeric() || b"_-./,:+@%".contains(&b))
}

// The words but for one of them, and that one as the file that standard input is.
fn redirected(alloc: Global, words: &[String], file: usize) -> Result<String, NoMemory> {
    let mut line = String::from_str(alloc, "hybridgc")?;
    for (i, word) in words.iter().enumerate() {
        if i != file {
            line.push_str(" ")?;
            line.push_str(word.as_str())?;
        }
    }
    line.push_str(" < ")?;
    match words.get(file) {
        Some(word) if is_plain(word.as_str()) => line.push_str(word.as_str())?,
        Some(word) if is_shown_as_it_is(word.as_bytes()) && !word.as_str().contains('\'') => {
            line.push_str("'")?;
            line.push_str(word.as_str())?;
            line.push_str("'")?;
        }
        _ => line.push_str("FILE")?,
    }
    Ok(line)
}

/// Why the words are refused.
pub fn explain_words(alloc: Global, words: &[String]) -> Result<Reason, NoMemory> {
    if words.iter().any(|word| is_mode(word.as_str())) {
        if let Some(file) = find_file(words) {
            let call = redirected(alloc, words, file)?;
            let text = format!(in alloc; "the script is read from standard input: {call}")?;
            return Reason::new(alloc, text.as_str());
        }
    }
    Reason::new(
        alloc,
        "hybridgc --help lists the modes and the options with their ranges",
    )
}
