// What each command asks for, as its name and each of its options.
use cnb_toml::ImageName;
use cnb_words::{
    AnalyzeWords, BaseWords, BuildWords, Call, CheckWords, ChoiceWords, CreateWords, DetectWords,
    DrillWords, ExportWords, LaunchWords, PruneWords, RebaseWords, RestoreWords, ShowWords,
    UnpackWords, VerifyWords,
};
use cnb_world::{List, Path, Text};
use std::alloc::AllocError;

// Adds an option, as ` order=/o`.
fn add(text: &mut String, name: &str, value: &str) -> Result<(), AllocError> {
    write!(text, " {name}={value}")
}

// Adds a command with its options.
fn add_all(text: &mut String, command: &str, options: &[(&str, &str)]) -> Result<(), AllocError> {
    text.push_str(command)?;
    for (name, value) in options {
        add(text, name, value)?;
    }
    Ok(())
}

/// Adds an option that may stand several times.
pub(crate) fn add_paths(text: &mut String, name: &str, paths: &[Path]) -> Result<(), AllocError> {
    for path in paths {
        add(text, name, path.as_str())?;
    }
    Ok(())
}

fn name_or_none(previous: &Option<ImageName>) -> &str {
    match previous {
        Some(name) => name.as_str(),
        None => "",
    }
}

fn choice(text: &mut String, command: &str, options: &ChoiceWords) -> Result<(), AllocError> {
    let shown = [
        ("order", options.order.as_str()),
        ("buildpacks", options.buildpacks.as_str()),
        ("app", options.app.as_str()),
        ("platform", options.platform.as_str()),
        ("work", options.work.as_str()),
    ];
    add_all(text, command, &shown)?;
    write!(text, " workers={}", options.workers)
}

pub(crate) fn detect(text: &mut String, options: &DetectWords) -> Result<(), AllocError> {
    choice(text, "detect", &options.choice)?;
    match &options.proof_path {
        Some(path) => write!(text, " record={}", path.as_str()),
        None => Ok(()),
    }
}

pub(crate) fn check(text: &mut String, options: &CheckWords) -> Result<(), AllocError> {
    let shown = [
        ("order", options.order.as_str()),
        ("buildpacks", options.buildpacks.as_str()),
        ("work", options.work.as_str()),
        ("record", options.proof_path.as_str()),
    ];
    add_all(text, "check", &shown)
}

pub(crate) fn analyze(text: &mut String, options: &AnalyzeWords) -> Result<(), AllocError> {
    let shown = [
        ("store", options.store.as_str()),
        ("run", options.run.as_str()),
        ("work", options.work.as_str()),
        ("previous", name_or_none(&options.previous)),
    ];
    add_all(text, "analyze", &shown)
}

pub(crate) fn restore(text: &mut String, options: &RestoreWords) -> Result<(), AllocError> {
    let shown = [
        ("store", options.store.as_str()),
        ("work", options.work.as_str()),
        ("layers", options.layers.as_str()),
    ];
    add_all(text, "restore", &shown)
}

pub(crate) fn build(text: &mut String, options: &BuildWords) -> Result<(), AllocError> {
    let shown = [
        ("buildpacks", options.buildpacks.as_str()),
        ("app", options.app.as_str()),
        ("platform", options.platform.as_str()),
        ("work", options.work.as_str()),
        ("layers", options.layers.as_str()),
    ];
    add_all(text, "build", &shown)
}

pub(crate) fn export(text: &mut String, options: &ExportWords) -> Result<(), AllocError> {
    let shown = [
        ("store", options.store.as_str()),
        ("work", options.work.as_str()),
        ("layers", options.layers.as_str()),
        ("app", options.app.as_str()),
        ("launcher", options.launcher.as_str()),
        ("image", options.image.as_str()),
    ];
    add_all(text, "export", &shown)
}

pub(crate) fn create(text: &mut String, options: &CreateWords) -> Result<(), AllocError> {
    let shown = [
        ("layers", options.layers.as_str()),
        ("store", options.store.as_str()),
        ("run", options.run.as_str()),
        ("launcher", options.launcher.as_str()),
        ("image", options.image.as_str()),
        ("previous", name_or_none(&options.previous)),
    ];
    text.push_str("create ")?;
    choice(text, "detect", &options.detect)?;
    add_all(text, "", &shown)
}

pub(crate) fn rebase(text: &mut String, options: &RebaseWords) -> Result<(), AllocError> {
    let shown = [
        ("store", options.store.as_str()),
        ("image", options.image.as_str()),
        ("run", options.run.as_str()),
    ];
    add_all(text, "rebase", &shown)
}

pub(crate) fn base(text: &mut String, options: &BaseWords) -> Result<(), AllocError> {
    let shown = [
        ("store", options.store.as_str()),
        ("run", options.run.as_str()),
        ("os", options.os.as_str()),
        ("arch", options.arch.as_str()),
    ];
    add_all(text, "base", &shown)?;
    add_paths(text, "tree", options.trees.as_slice())
}

pub(crate) fn unpack(text: &mut String, options: &UnpackWords) -> Result<(), AllocError> {
    let shown = [
        ("store", options.store.as_str()),
        ("image", options.image.as_str()),
        ("root", options.root.as_str()),
    ];
    add_all(text, "unpack", &shown)
}

pub(crate) fn show(text: &mut String, options: &ShowWords) -> Result<(), AllocError> {
    let shown = [
        ("store", options.store.as_str()),
        ("image", options.image.as_str()),
    ];
    add_all(text, "show", &shown)
}

pub(crate) fn prune(text: &mut String, options: &PruneWords) -> Result<(), AllocError> {
    add_all(text, "prune", &[("store", options.store.as_str())])
}

pub(crate) fn verify(text: &mut String, options: &VerifyWords) -> Result<(), AllocError> {
    let shown = [
        ("store", options.store.as_str()),
        ("image", options.image.as_str()),
    ];
    add_all(text, "verify", &shown)
}

pub(crate) fn drill(text: &mut String, options: &DrillWords) -> Result<(), AllocError> {
    write!(text, "drill number={}", options.number)
}

fn add_texts(text: &mut String, words: &List<Text>) -> Result<(), AllocError> {
    for word in words.as_slice() {
        add(text, "word", word.as_str())?;
    }
    Ok(())
}

pub(crate) fn launch(text: &mut String, options: &LaunchWords) -> Result<(), AllocError> {
    add_all(text, "launch", &[("root", options.root.as_str())])?;
    match &options.call {
        Call::Entry { kind, args } => {
            add(text, "process", kind.as_str())?;
            add_texts(text, args)
        }
        Call::Words(words) => add_texts(text, words),
        Call::Direct(words) => {
            text.push_str(" --")?;
            add_texts(text, words)
        }
    }
}
