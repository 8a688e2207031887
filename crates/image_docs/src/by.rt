// What made a row of an image.
ghost use Rattle.std.specs.Prelude.{◌≡◌, true, IfOk};
ghost use Rattle.std.proofs.Common.{refl};
ghost use Rattle.toml.specs.Data.{string};
ghost use Rattle.cnb_toml.specs.Reading.{Answers};
ghost use Rattle.cnb_toml.specs.WrittenLaws.{zero_within};
ghost use Rattle.image_docs.specs.By.{by_in, by_of, is_by, is_plain, plain, plain_byte, run_by};
ghost use Rattle.image_docs.specs.ByLaws.{by_read};

use cnb_toml::{DocFault, Form, ImageName, Written};
use cnb_world::{Memory, Text};
use std::alloc::Global;
use toml::Value;

/// The texts that say what made a row, as values.
pub struct ByText;

impl Form for ByText {
    type Value = Text;

    ghost value_of = { by_of };

    fn read(alloc: Global, value: &Value) -> Result<Text, DocFault> {
        match value.as_str() {
            Some(text) => by_in(alloc, text),
            None => Err(DocFault::wrong(alloc)),
        }
    }
}

impl Written for ByText {
    ghost data_of = { string };

    ghost is_typed = { λ _. true };

    ghost is_sound = { is_by };

    ghost nesting = { 0 };

    fn write(alloc: Global, value: &Text) -> Result<Value, Memory> {
        Ok(Value::string(alloc, value.as_str())?)
    }

    ghost reads_back = { λ value typed sound. by_read value sound };

    ghost dates = { λ value. refl };

    ghost within = { λ value sound. zero_within 0 };
}

fn is_plain(text: &[u8]) -> bool
    ensures { result ≡ is_plain text.now }
{
    text.iter().all(|byte| *byte >= b' ')
}

fn is_by(text: &str) -> bool
    ensures { result ≡ is_by text.now }
{
    !text.is_empty() && is_plain(text.as_bytes())
}

fn by_in(alloc: Global, text: &str) -> Result<Text, DocFault>
    ensures { Answers result (by_in text.now) }
{
    if is_by(text) {
        Ok(Text::of(alloc, text)?)
    } else {
        Err(DocFault::wrong(alloc))
    }
}

fn plain_char(c: char) -> char
    ensures { result ≡ plain_byte c }
{
    if c < ' ' { '?' } else { c }
}

/// A text of one line: each byte below 32 is written as `?`.
pub fn plain(alloc: Global, text: &str) -> Result<Text, Memory>
    ensures { IfOk result (λ made. made ≡ plain text.now) }
{
    let mut made = String::new(alloc);
    for c in text.chars() {
        made.push(plain_char(c))?;
    }
    Ok(Text::from_string(made))
}

/// What made the rows that an image has of the run image of this name.
pub fn run_by(alloc: Global, name: &ImageName) -> Result<Text, Memory>
    ensures { IfOk result (λ by. by ≡ run_by name.now) }
{
    let mut by = String::from_str(alloc, "run ")?;
    by.push_str(name.as_str())?;
    Ok(Text::from_string(by))
}
