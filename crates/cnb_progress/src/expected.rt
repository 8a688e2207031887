// What documents are expected to have at their keys (docs/FORMATS.md has them document by document).

use cnb_world::Memory;
use std::alloc::Global;

const TABLES: &str = "a list of tables";

const TEXT: &str = "a text";

const TEXTS: &str = "a list of texts";

const TRUTH: &str = "true or false";

const DIGEST: &str = "a SHA-256 digest, in 64 digits and small letters";

const BUILDPACK_ID: &str =
    "an id of at most 128 letters, digits, '.', '-' and '/', other than app, config, . and ..";

const IMAGE_NAME: &str =
    "a name of at most 128 small letters, digits, '.', '_' and '-', a letter or digit first";

const TARGET_NAME: &str =
    "a name of at most 64 small letters, digits, '.', '_' and '-', a letter or digit first";

const ABSOLUTE_PATH: &str = "an absolute path without empty parts, '.' and '..'";

const PROCESS_TYPE: &str = "a process type of at most 128 letters, digits, '.', '_' and '-'";

const NEW_ID: &str = "an id that no table before it in the list has";

// Faults, keys and what is expected there; no fault is any. A key has `*` for each place in a list. One that begins with a
// dot is a whole key, and any other the end of one. The first that fits counts.
static RULES: [(&str, &str, &str); 71] = [
    (
        "MetaKind",
        "",
        "no float, no date-time, and nothing more than 32 deep; write such a value as a text",
    ),
    ("", ".version", "1 or 2"),
    (
        "",
        ".rows",
        "a list of tables, the rows of the run image first; in a run image a list of at least one digest",
    ),
    (
        "",
        ".rows.*",
        "a table in an image, a digest in a run image",
    ),
    (
        "",
        ".launch",
        "the table of an image's processes and buildpacks",
    ),
    ("", ".default", PROCESS_TYPE),
    (
        "",
        ".env",
        "a list of tables with a name and a value, by ascending names, none empty or with '='",
    ),
    ("", ".value", "a text without a zero byte"),
    ("Wrong", ".group.*.id", NEW_ID),
    ("Wrong", ".store.*.id", NEW_ID),
    (
        "",
        ".layers.*",
        "a table, of a layer that no table before it in the list has",
    ),
    (
        "",
        "processes.*",
        "a table, of a process type that no table before it in the list has",
    ),
    (
        "Wrong",
        ".entries.*.requires",
        "a list of at least one table with a name",
    ),
    (
        "Wrong",
        ".entries.*.requires.*.name",
        "the name of the first table in the list",
    ),
    ("", "order.*.group", "a list of at least one table"),
    ("", "order", TABLES),
    ("", "group", TABLES),
    ("", "api", "a text, as \"0.10\""),
    ("", "buildpack", "a table with an id and a version"),
    (
        "Wrong",
        "buildpack.id",
        "the id that the folder is named by, with '_' for each '/'",
    ),
    (
        "Wrong",
        "buildpack.version",
        "the version that the folder is named by",
    ),
    ("", "id", BUILDPACK_ID),
    ("", "version", "a text of three numbers, as \"1.2.3\""),
    ("", "optional", TRUTH),
    ("", "clear-env", TRUTH),
    ("", "launch.default", PROCESS_TYPE),
    ("", "default", TRUTH),
    ("", "launch", TRUTH),
    ("", "build", TRUTH),
    ("", "cache", TRUTH),
    ("", "types", "a table with launch, build and cache"),
    ("", "targets", TABLES),
    ("", "targets.*.os", TEXT),
    ("", "targets.*.arch", TEXT),
    ("", "os", TARGET_NAME),
    ("", "arch", TARGET_NAME),
    ("", "provides", TABLES),
    ("", "requires", TABLES),
    ("", "or", TABLES),
    ("", "entries", TABLES),
    ("", "providers", TABLES),
    ("", "buildpacks", TABLES),
    ("", "processes", TABLES),
    ("", "labels", TABLES),
    ("", "slices", TABLES),
    ("", "unmet", TABLES),
    ("", "layers", TABLES),
    ("", "store", TABLES),
    ("", "metadata", "a table"),
    (
        "",
        "base",
        "a table with the run image's name, top layer, os and arch",
    ),
    ("", "base.name", IMAGE_NAME),
    ("", "base.top", DIGEST),
    ("", "run", IMAGE_NAME),
    ("", "previous", IMAGE_NAME),
    ("", "name", TEXT),
    ("", "type", PROCESS_TYPE),
    ("", "entrypoint", ABSOLUTE_PATH),
    ("", "place", ABSOLUTE_PATH),
    ("", "command", "a list of at least one text"),
    ("", "command.*", TEXT),
    ("", "args", TEXTS),
    ("", "args.*", TEXT),
    ("", "paths", TEXTS),
    ("", "paths.*", TEXT),
    ("", "working-dir", ABSOLUTE_PATH),
    ("", "role", "one of run, layer, app, launcher and process"),
    (
        "",
        "by",
        "a text that isn't empty and has no control characters",
    ),
    ("", "digest", DIGEST),
    ("", "key", "a text that isn't empty"),
    ("", "value", TEXT),
    ("", "*", "a table"),
];

/// What a document is expected to have where it has this fault at this key, if that is known.
pub(crate) fn expected_at(
    alloc: Global,
    fault: &str,
    key: &str,
) -> Result<Option<&'static str>, Memory> {
    let key = with_stars(alloc, key)?;
    for (at, end, expected) in RULES.iter() {
        if (at.is_empty() || *at == fault) && is_end(key.as_str(), end) {
            return Ok(Some(expected));
        }
    }
    Ok(None)
}

// A key with a dot in front and `*` for each place in a list: `.order.*.group.*.id` of `order.0.group.2.id`.
fn with_stars(alloc: Global, key: &str) -> Result<String, Memory> {
    let mut text = String::new(alloc);
    for part in key.split('.') {
        text.push('.')?;
        text.push_str(if is_place(part) { "*" } else { part })?;
    }
    Ok(text)
}

fn is_place(part: &str) -> bool {
    part.bytes().all(|byte| byte.is_ascii_digit())
}

fn is_end(key: &str, end: &str) -> bool {
    match key.strip_suffix(end) {
        Some(front) => front.is_empty() || front.ends_with('.') || end.is_empty(),
        None => false,
    }
}
