// Children.
use crate::fault::LineFault;
use crate::stage::Line;
use crate::texts::{path_of, shown};
use cnb_world::{ChildJob, DetectJob, Env, List, Path, Text};
use std::alloc::{AllocError, Global};

/// The job of `run PROGRAM|ARGUMENT|..`, in `~/app`.
pub(crate) fn child_job(
    alloc: Global,
    folder: &str,
    env: &Env,
    line: Line,
) -> Result<ChildJob, LineFault> {
    let (program, args) = match line.given.split_once('|') {
        Some((program, args)) => (program, words(alloc, args)?),
        None => (line.given, Vec::new(alloc)),
    };
    Ok(ChildJob {
        program: Text::of(alloc, program)?,
        args: List::from_vec(args),
        env: env.copy()?,
        dir: path_in(alloc, folder, "app")?,
        side: line.call == "run_side",
    })
}

/// The job of `detect ID PROGRAM`, at version 1.0.0: in `~/app`, with its plan at `~/work/ID`.
pub(crate) fn detect_job(
    alloc: Global,
    folder: &str,
    env: &Env,
    line: Line,
) -> Result<DetectJob, LineFault> {
    let work = format!(in alloc; "{folder}/work")?;
    Ok(DetectJob {
        id: Text::of(alloc, line.first)?,
        version: Text::of(alloc, "1.0.0")?,
        program: path_of(alloc, line.rest)?,
        platform: path_in(alloc, folder, "platform")?,
        plan: path_in(alloc, work.as_str(), line.first)?,
        env: env.copy()?,
        dir: path_in(alloc, folder, "app")?,
    })
}

// The words of a text, with bars between them.
fn words(alloc: Global, text: &str) -> Result<Vec<Text>, LineFault> {
    let mut words = Vec::new(alloc);
    for word in text.split('|') {
        words.push(Text::of(alloc, word)?)?;
    }
    Ok(words)
}

fn path_in(alloc: Global, folder: &str, name: &str) -> Result<Path, LineFault> {
    let text = format!(in alloc; "{folder}/{name}")?;
    Ok(path_of(alloc, text.as_str())?)
}

/// How a child ended: its code, whether that is a detect child's that passed, and what it wrote.
pub(crate) fn end_text(
    alloc: Global,
    code: Option<i32>,
    passed: bool,
    wrote: &[u8],
) -> Result<String, AllocError> {
    let mut text = match code {
        Some(code) => format!(in alloc; "code {code}")?,
        None => String::from_str(alloc, "no code")?,
    };
    if passed {
        text.push_str(", passed")?;
    }
    if !wrote.is_empty() {
        text.push_str(": ")?;
        text.push_str(shown(alloc, wrote)?.as_str())?;
    }
    Ok(text)
}
