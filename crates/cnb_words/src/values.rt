// The values of options.
ghost use Rattle.std.specs.Prelude.{◌≡◌, ◌≤◌, IfOk, IsTrue, length};
ghost use Rattle.std.specs.Char.{is_ascii_digit};
ghost use Rattle.std.specs.List.{list_all};
ghost use Rattle.cnb_toml.specs.Names.{is_target_name};
ghost use Rattle.cnb_words.specs.Faults.{AreReadAs};
ghost use Rattle.cnb_words.specs.Values.{has_leading_zero, image_in, is_decimal, number_in, path_in, target_in};

use crate::fault::WordsFault;
use cnb_toml::{ImageName, is_target_name};
use cnb_world::{Path, Text};
use std::alloc::Global;

/// The path that a text is, of at most 4,096 bytes.
pub(crate) fn path_in(alloc: Global, text: &str) -> Result<Path, WordsFault>
    ensures reads { AreReadAs result (path_in text.now) }
    ensures short { IfOk result (λ path. length path ≤ 4096) }
{
    let path = Path::parse_short(alloc, text)?;
    Ok(path)
}

/// The image's name that a text is.
pub(crate) fn image_in(alloc: Global, text: &str) -> Result<ImageName, WordsFault>
    ensures { AreReadAs result (image_in text.now) }
{
    let name = ImageName::parse(alloc, text)?;
    Ok(name)
}

/// The name of an operating system or an architecture that a text is.
pub(crate) fn target_in(alloc: Global, text: &str) -> Result<Text, WordsFault>
    ensures reads { AreReadAs result (target_in text.now) }
    ensures is_name { IfOk result (λ name. IsTrue (is_target_name name)) }
{
    if !is_target_name(text) {
        return Err(WordsFault::Usage);
    }
    Ok(Text::of(alloc, text)?)
}

fn are_digits(text: &[u8]) -> bool
    ensures { result ≡ list_all is_ascii_digit text.now }
{
    text.iter().all(|byte| byte.is_ascii_digit())
}

fn has_leading_zero(text: &[u8]) -> bool
    ensures { result ≡ has_leading_zero text.now }
{
    text.len() > 1 && text[0] == b'0'
}

fn is_decimal(text: &[u8]) -> bool
    ensures { result ≡ is_decimal text.now }
{
    !text.is_empty() && are_digits(text) && !has_leading_zero(text)
}

/// The number from `least` to `most` that a text is.
pub(crate) fn number_in(text: &str, least: u32, most: u32) -> Result<u32, WordsFault>
    ensures reads { AreReadAs result (number_in least most text.now) }
    ensures at_least { IfOk result (λ number. least ≤ number) }
    ensures at_most { IfOk result (λ number. number ≤ most) }
{
    if !is_decimal(text.as_bytes()) {
        return Err(WordsFault::Usage);
    }
    match text.parse::<u32>() {
        Ok(number) if least <= number && number <= most => Ok(number),
        _ => Err(WordsFault::Usage),
    }
}
