// Calls of layer_flags: what is restored of a layer, and what export does with it.
use crate::reading::text_or_none;
use layer_flags::{Flags, export_row, restore_row};
use row_files::{Answer, Row};

// The flags that words name, and none for the word `absent`.
fn flags_of(answer: &mut Answer, text: &str) -> Option<Flags> {
    let mut flags = Flags::default();
    for word in text.split_whitespace() {
        match word {
            "absent" => return None,
            "launch" => flags.launch = true,
            "build" => flags.build = true,
            "cache" => flags.cache = true,
            _ => answer.wrong("no flag:", word),
        }
    }
    Some(flags)
}

fn is_listed(row: &Row, word: &str) -> bool {
    for listed in text_or_none(row, "also").split_whitespace() {
        if listed == word {
            return true;
        }
    }
    false
}

/// What is restored of a layer that the previous image and the caches have with these flags.
pub(crate) fn restored(answer: &mut Answer, row: &Row) {
    let (image, cache) = (answer.given(row, "image"), answer.given(row, "cache"));
    let (image, cache) = (flags_of(answer, image), flags_of(answer, cache));
    answer.debug(&restore_row(image, cache, is_listed(row, "same")));
}

/// What export does with a layer that has these flags.
pub(crate) fn exported(answer: &mut Answer, row: &Row) {
    let text = answer.given(row, "flags");
    let Some(flags) = flags_of(answer, text) else {
        answer.wrong("no flags:", text);
        return;
    };
    let (contents, previous) = (is_listed(row, "contents"), is_listed(row, "previous"));
    answer.debug(&export_row(flags, contents, previous, is_listed(row, "equal")));
}
