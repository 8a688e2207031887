// Options as words give them.

use std::alloc::{AllocError, Global};

/// An option as it is given, or a word that belongs to none, which has no name.
#[derive(Drop)]
pub(crate) struct Given<'a> {
    pub(crate) name: &'a str,
    pub(crate) value: Option<&'a str>,
}

impl<'a> Given<'a> {
    fn of(word: &'a str) -> Given<'a> {
        if !word.starts_with("--") {
            return Given {
                name: "",
                value: Some(word),
            };
        }
        match word.split_once('=') {
            Some((name, value)) => Given {
                name,
                value: Some(value),
            },
            None => Given {
                name: word,
                value: None,
            },
        }
    }
}

/// The options that words give, in their order.
pub(crate) fn given_in(alloc: Global, words: &[String]) -> Result<Vec<Given<'_>>, AllocError> {
    let mut given: Vec<Given> = Vec::new(alloc);
    for word in words {
        let word = word.as_str();
        match given.last_mut() {
            Some(last) if last.value.is_none() && !word.starts_with("--") => last.value = Some(
                word,
            ),
            _ => given.push(Given::of(word))?,
        }
    }
    Ok(given)
}
