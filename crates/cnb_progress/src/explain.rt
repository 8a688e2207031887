// What is said behind a refusal.

use crate::refusals::sentence_of;
use crate::words::{ask_for_launch, explain_words};
use cnb_world::{Env, Memory};
use std::alloc::Global;

/// Says on standard error what a refusal means, what was found and what to do. It knows the refusal by its line, which is empty
/// where there is none, and the words and the environment that the process was started with.
pub fn explain_refusal<R: Eprint + AllocGlobal>(rt: &R, line: &str, words: &[String], env: &Env) {
    // Where memory is short, nothing is said.
    if let Ok(Some(text)) = explanation(rt.alloc(), line, words, env) {
        let _ = eprintln!(rt; "{text}");
    }
}

fn explanation(
    alloc: Global,
    line: &str,
    words: &[String],
    env: &Env,
) -> Result<Option<String>, Memory> {
    if line.is_empty() {
        Ok(None)
    } else if line == "error 1 Usage" || ask_for_launch(words) {
        explain_words(alloc, words, folder_in(env)).map(Some)
    } else {
        sentence_of(alloc, line)
    }
}

// The folder that the caller is in, where the environment has it.
fn folder_in(env: &Env) -> Option<&str> {
    match env.get("PWD") {
        Some(folder) => Some(folder.as_str()),
        None => None,
    }
}
