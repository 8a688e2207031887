// The words of the shell that starts a child whose descriptor 3 is kept.
//
// Its standard input is the writing end of a pipe, which it makes descriptor 3. Then it runs the program in its place,
// with exactly the variables that it is handed as words: by itself where it hands each on as it is, and by `env` elsewhere.
ghost use Rattle.std.specs.Prelude.{◌≡◌, ◌++◌, ◌∷◌, [], IfOk, OnOk, codes, map, take};
ghost use Rattle.std.specs.List.{list_all, list_any};
ghost use Rattle.cnb_host.specs.Side.{assignment, begins_with_slash, env_words, has_equals, is_handed_on, is_known};
ghost use Rattle.cnb_host.specs.Side.{is_plain, is_word, is_word_byte, plain_words, program_words, side_words};

use cnb_world::{ChildJob, Env, List, Memory, Text};
use std::alloc::Global;

/// What the shell does for a program with exactly the variables of the words, which are all words that follow. A shell
/// that has a version of its own adds variables of its own, so it leaves them to `env`.
pub const PLAIN: &str = "exec 3>&0 </dev/null && test -x \"$0\" || exit
if test \"${BASH_VERSION-}${KSH_VERSION-}${YASH_VERSION-}${ZSH_VERSION-}\"
then command -v env >/dev/null && printf . >&3 && exec env -i -- \"$@\" \"$0\"
else unset PATH PWD OLDPWD SHLVL _ && { test $# = 0 || export \"$@\"; } && printf . >&3 && exec \"$0\"
fi";

/// Hands all words behind the program to `env`.
pub const BY_ENV: &str = "exec 3>&0 </dev/null && test -x \"$0\" && command -v env >/dev/null &&
command -v nice >/dev/null && printf . >&3 && exec env -i -- \"$@\"";

fn has_equals(program: &[u8]) -> bool
    ensures { result ≡ has_equals program.now }
{
    program.iter().any(|byte| *byte == b'=')
}

fn begins_with_slash(program: &[u8]) -> bool
    ensures { result ≡ begins_with_slash program.now }
{
    match program.first() {
        Some(byte) => *byte == b'/',
        None => false,
    }
}

fn is_word(name: &[u8]) -> bool
    ensures { result ≡ is_word name.now }
{
    match name.first() {
        Some(byte) => !byte.is_ascii_digit() && has_word_bytes(name),
        None => false,
    }
}

fn has_word_bytes(name: &[u8]) -> bool
    ensures { result ≡ list_all is_word_byte name.now }
{
    name.iter()
        .all(|byte| byte.is_ascii_alphanumeric() || *byte == b'_')
}

// Variables that some shell makes itself, or that it takes as numbers alone.
fn is_known(name: &str) -> bool
    ensures { result ≡ is_known name.now }
{
    name == "EPOCHREALTIME"
        || name == "EPOCHSECONDS"
        || name == "IFS"
        || name == "LINENO"
        || name == "OPTIND"
        || name == "PPID"
        || name == "RANDOM"
        || name == "SECONDS"
}

fn is_handed_on(name: &str) -> bool
    ensures { result ≡ is_handed_on name.now }
{
    is_word(name.as_bytes()) && !is_known(name)
}

fn hands_all_on(env: &Env) -> bool
    ensures { result ≡ list_all (λ v. is_handed_on v.name) env.now }
{
    env.variables()
        .iter()
        .all(|variable| is_handed_on(variable.name.as_str()))
}

// Whether the shell can start the program by itself.
fn is_plain(job: &ChildJob) -> bool
    ensures { result ≡ is_plain job.now }
{
    let program = job.program.as_str().as_bytes();
    job.args.as_slice().is_empty()
        && begins_with_slash(program)
        && !has_equals(program)
        && hands_all_on(&job.env)
}

fn assignment(alloc: Global, name: &str, value: &str) -> Result<Text, Memory>
    ensures { IfOk result (λ text. text ≡ name.now ++ codes "=" ++ value.now) }
{
    let mut text = String::from_str(alloc, name)?;
    text.push_str("=")?;
    text.push_str(value)?;
    Ok(Text::from_string(text))
}

fn push_text(alloc: Global, words: &mut List<Text>, text: &str) -> Result<(), Memory>
    ensures { OnOk result (words.new ≡ words.old ++ text.now ∷ []) }
{
    words.push(Text::of(alloc, text)?)
}

fn push_variables(alloc: Global, words: &mut List<Text>, env: &Env) -> Result<(), Memory>
    ensures { OnOk result (words.new ≡ words.old ++ map assignment env.now) }
{
    for variable in env.variables() {
        words.push(assignment(alloc, variable.name.as_str(), variable.value.as_str())?)?;
    }
    Ok(())
}

// A path with `=` would be taken for a variable: it is run by `nice`, which changes nothing.
fn push_program(alloc: Global, words: &mut List<Text>, program: &str) -> Result<(), Memory>
    ensures { OnOk result (words.new ≡ words.old ++ program_words program.now) }
{
    if has_equals(program.as_bytes()) {
        push_text(alloc, words, "nice")?;
        push_text(alloc, words, "-n")?;
        push_text(alloc, words, "0")?;
    }
    push_text(alloc, words, program)
}

fn push_args(alloc: Global, words: &mut List<Text>, args: &[Text]) -> Result<(), Memory>
    ensures { OnOk result (words.new ≡ words.old ++ args.now) }
{
    for arg in args {
        words.push(arg.copy(alloc)?)?;
    }
    Ok(())
}

// The shell's script, and what it knows as its own name.
fn push_script(
    alloc: Global,
    words: &mut List<Text>,
    script: &str,
    program: &str,
) -> Result<(), Memory>
    ensures { OnOk result (words.new ≡ words.old ++ codes "-c" ∷ script.now ∷ program.now ∷ []) }
{
    push_text(alloc, words, "-c")?;
    push_text(alloc, words, script)?;
    push_text(alloc, words, program)
}

fn push_plain(alloc: Global, words: &mut List<Text>, job: &ChildJob) -> Result<(), Memory>
    ensures { OnOk result (words.new ≡ words.old ++ plain_words PLAIN.now job.now) }
{
    push_script(alloc, words, PLAIN, job.program.as_str())?;
    push_variables(alloc, words, &job.env)
}

fn push_by_env(alloc: Global, words: &mut List<Text>, job: &ChildJob) -> Result<(), Memory>
    ensures { OnOk result (words.new ≡ words.old ++ env_words BY_ENV.now job.now) }
{
    push_script(alloc, words, BY_ENV, job.program.as_str())?;
    push_variables(alloc, words, &job.env)?;
    push_program(alloc, words, job.program.as_str())?;
    push_args(alloc, words, job.args.as_slice())
}

fn push_words(alloc: Global, words: &mut List<Text>, job: &ChildJob) -> Result<(), Memory>
    ensures { OnOk result (words.new ≡ words.old ++ side_words PLAIN.now BY_ENV.now job.now) }
{
    if is_plain(job) {
        push_plain(alloc, words, job)
    } else {
        push_by_env(alloc, words, job)
    }
}

/// The words that the shell is handed for a job.
pub fn side_words(alloc: Global, job: &ChildJob) -> Result<List<Text>, Memory>
    ensures { IfOk result (λ words. words ≡ side_words PLAIN.now BY_ENV.now job.now) }
{
    let mut words = List::new(alloc);
    push_words(alloc, &mut words, job)?;
    Ok(words)
}
