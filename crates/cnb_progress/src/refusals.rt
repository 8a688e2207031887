// Refusals explained: what each means, what was found and what to do.

use crate::documents::document_sentence;
use cnb_world::Memory;
use std::alloc::Global;

// Refusals by how their lines go on behind `error`, and the sentence of each, with `{}` for the words of the detail. The first that
// fits counts; one with `{}` fits where there is a detail.
static SENTENCES: [(&str, &str); 38] = [
    (
        "2 File",
        "a call on {} failed; see what is there, and whether it may be read and written",
    ),
    (
        "5 Child",
        "a program couldn't be started, or the plan file of a buildpack couldn't be read; see that the program exists and is \
         executable, and that the interpreter in its first line and its working folder exist",
    ),
    (
        "6 Limit groups",
        "the order lists more than 4,096 groups; name fewer, or fewer optional composites",
    ),
    (
        "6 Limit entries",
        "a group of the order has more than 256 entries; make it shorter",
    ),
    (
        "6 Limit nesting",
        "composite buildpacks are nested more than 16 deep; name the inner ones in the order",
    ),
    (
        "6 Limit trials",
        "the Build Plans of a group combine in more than 65,536 ways; take buildpacks with fewer alternatives ([[or]])",
    ),
    (
        "6 Limit document",
        "a document or an environment file has more than 1,048,576 bytes; make it smaller",
    ),
    (
        "6 Limit record",
        "the record would have more than 16,777,216 bytes; detect without --record, or by a shorter order",
    ),
    (
        "6 Limit depth",
        "a folder of the application or of a layer is nested more than 64 deep; make it flatter",
    ),
    (
        "6 Limit tree",
        "the application or a layer has more than 1,073,741,824 bytes; leave out what the image doesn't need",
    ),
    (
        "8 OddFile",
        "{} isn't a folder where one is needed, can't be kept in an image, as a pipe or a socket can't, or was changed while it \
         was read; see what is there",
    ),
    (
        "11 PlatformApi",
        "CNB_PLATFORM_API is '{}', and only Platform API 0.12 is supported; set it to 0.12, or unset it",
    ),
    (
        "11 PlatformApi",
        "CNB_PLATFORM_API is empty, and only Platform API 0.12 is supported; set it to 0.12, or unset it",
    ),
    (
        "12 BuildpackApi",
        "a buildpack is of Buildpack API {}, and only 0.10 is supported; use a version of it with api = \"0.10\"",
    ),
    (
        "13 Order Absent",
        "the order names the buildpack {}, and the folder of --buildpacks has none of this id and version; add its folder \
         <id>/<version>, with '_' for each '/' of the id, or correct the entry",
    ),
    (
        "13 Order Ambiguous",
        "the order names the buildpack {} without a version, and there are several; add a version to the entry",
    ),
    (
        "14 NoTree",
        "the store has no tree of the digest {}; put it back from a copy of the store, or build the image again",
    ),
    (
        "15 Exists",
        "{} exists already, and unpack makes its root itself; remove it, or name another root by --root",
    ),
    (
        "20 NoGroup",
        "no group of the order passes; the lines `asked` say what each buildpack replied, and a buildpack that they don't name is \
         for other targets; see that --app is the right folder, and that the order has buildpacks for it",
    ),
    (
        "21 NoGroup",
        "no group of the order passes, and a buildpack ended with an error; the lines `asked` say which, and what it wrote \
         says why",
    ),
    (
        "22 BadRecord",
        "line {} of the record doesn't meet its rule; the record isn't one of this order and these buildpacks, or was \
         changed: detect again with --record",
    ),
    (
        "23 RecordDiffers",
        "{} isn't what the record gives; one of the two was changed: detect again with --record",
    ),
    (
        "30 Damaged",
        "the bytes under the digest {} have the digest {}, or can't be read as a tree; remove that file from the folder trees \
         of the store or the cache, and build again",
    ),
    (
        "31 NoImage",
        "the store has no image or run image named '{}'; its folders images and runs hold those that exist, and `lifecycle \
         base` makes a run image",
    ),
    (
        "51 BuildFailed",
        "bin/build of the buildpack {} ended with exit code {} (none: a signal ended it); what it wrote says why",
    ),
    (
        "52 UnknownUnmet",
        "build.toml of the buildpack {} names '{}' as unmet, which was not required of it; the buildpack has to be corrected",
    ),
    (
        "60 NoContents",
        "the layer {} is to be cached, and has no folder; bin/build has to make it, or to leave cache out of the types",
    ),
    (
        "61 Clash",
        "the store has other bytes under the digest {}; remove that file of its folder trees, and run the command again",
    ),
    (
        "62 NoPrevious",
        "the layer {} is for the image, has no folder, and isn't in the previous image; bin/build has to make it",
    ),
    (
        "63 TwoDefaults",
        "launch.toml of the buildpack {} has default = true in two processes; the buildpack has to be corrected",
    ),
    (
        "64 BadPattern",
        "a slice in launch.toml of the buildpack {} has the path '{}', which is no pattern; close each class, and put a \\ in \
         front of a [ that is meant literally",
    ),
    (
        "70 TopDiffers",
        "the image notes {} as the topmost tree of its run image, and has {}; its document was changed: build it again",
    ),
    (
        "71 TargetDiffers",
        "the image is for {}, and the run image is for {}; name a run image for the same system and processor",
    ),
    (
        "80 ShellProcess",
        "'{}' is no process type of this image; name one, or start a program by `launch -- <program>` (--root and its path \
         are two words, and come first)",
    ),
    (
        "81 NoProcess",
        "the image has no process of type '{}'; layers/config/metadata.toml below its root lists them",
    ),
    (
        "81 NoProcess",
        "the image has no default process; name a process type",
    ),
    (
        "82 ExecFailed",
        "a program of exec.d ended with another exit code than 0 (none: a signal ended it): {}; what it wrote says why",
    ),
    (
        "83 BadExecOutput",
        "{} wrote something other than a TOML table of texts, as NAME = \"value\", on descriptor 3; the buildpack has to be \
         corrected",
    ),
];

/// What a refusal means, by its line, if it is one that can be explained.
pub(crate) fn sentence_of(alloc: Global, line: &str) -> Result<Option<String>, Memory> {
    let Some(refusal) = line.strip_prefix("error ") else {
        return Ok(None);
    };
    if let Some(detail) = refusal.strip_prefix("4 Document ") {
        return document_sentence(alloc, detail);
    }
    for (start, sentence) in SENTENCES.iter() {
        if let Some(detail) = detail_of(refusal, start)
            && (!detail.is_empty() || !sentence.contains("{}"))
        {
            return filled(alloc, sentence, detail).map(Some);
        }
    }
    Ok(None)
}

// What follows a start and a space.
fn detail_of<'a>(refusal: &'a str, start: &str) -> Option<&'a str> {
    let rest = refusal.strip_prefix(start)?;
    if rest.is_empty() {
        Some(rest)
    } else {
        rest.strip_prefix(' ')
    }
}

// A sentence with the detail in the place of `{}`: the whole of it, or where there are two places its first word and the rest.
fn filled(alloc: Global, sentence: &str, detail: &str) -> Result<String, Memory> {
    match sentence.split_once("{}") {
        Some((before, behind)) => match (behind.split_once("{}"), detail.split_once(' ')) {
            (Some((between, behind)), Some((first, second))) => Ok(format!(in alloc;
                "{before}{}{between}{}{behind}",
                first.escape_debug(),
                second.escape_debug()
            )?),
            _ => Ok(format!(in alloc; "{before}{}{behind}", detail.escape_debug())?),
        },
        None => Ok(String::from_str(alloc, sentence)?),
    }
}
