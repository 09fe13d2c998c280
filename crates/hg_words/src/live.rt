//! The words that ask for a conversation.

ghost use Rattle.std.specs.Prelude.{◌≡◌, IfOk, IsErrOf, None, Some, codes, false, map, string_bytes};
ghost use Rattle.std.specs.List.{list_any};
ghost use Rattle.hg_words.specs.declared.options.WordsRefusal.TheVariants.{Usage};
ghost use Rattle.hg_words.specs.Live.{as_replay, is_live, live_options_of};
ghost use Rattle.hg_words.specs.Options.{AreWithin};

use crate::line::read_words;
use crate::options::{Options, WordsRefusal};
use std::alloc::{AllocError, Global};

/// Whether one of the words is `live`.
pub fn asks_to_talk(words: &[String]) -> bool
    ensures { result ≡ list_any is_live (map string_bytes words.now) }
{
    for word in words {
        if word.as_str() == "live" {
            return true;
        }
    }
    false
}

// The word, with `replay` in place of `live`.
fn spoken(alloc: Global, word: &String) -> Result<String, AllocError>
    ensures { IfOk result (λ s. string_bytes s ≡ as_replay (string_bytes word.now)) }
{
    if word.as_str() == "live" {
        "replay".to_string(alloc)
    } else {
        word.clone()
    }
}

// The words, with `replay` in place of `live`.
fn all_spoken(alloc: Global, words: &[String]) -> Result<Vec<String>, AllocError>
    ensures { IfOk result (λ all.
        map string_bytes all.items ≡ map as_replay (map string_bytes words.now)) }
{
    let mut all = Vec::new(alloc);
    for word in words {
        all.push(spoken(alloc, word)?)?;
    }
    Ok(all)
}

/// Reads the words of a conversation: those of a replay, with `live` in place of `replay`.
pub fn read_live_words(alloc: Global, words: &[String]) -> Result<Options, WordsRefusal>
    ensures taken { IfOk result
        (λ options. live_options_of (map string_bytes words.now) ≡ Some options) }
    ensures bounds { IfOk result AreWithin }
    ensures usage { IsErrOf result Usage →
        live_options_of (map string_bytes words.now) ≡ None }
{
    if !asks_to_talk(words) {
        return Err(WordsRefusal::Usage);
    }
    read_words(alloc, &all_spoken(alloc, words)?)
}
