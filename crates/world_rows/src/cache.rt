// Calls on a cache. A number stands for the digest of 32 bytes that are all this number.
use crate::fault::LineFault;
use crate::stage::Line;
use crate::texts::{cut, number_of, shown, written_out};
use cnb_world::{Bytes, Shelf};
use row_files::RowFault;
use std::alloc::Global;

/// The digest that a word stands for.
pub(crate) fn digest_of(alloc: Global, word: &str) -> Result<[u8; 32], RowFault> {
    match word.parse::<u8>() {
        Ok(byte) => Ok([byte; 32]),
        Err(_) => Err(RowFault::wrong(alloc, "no digest:", word)),
    }
}

/// What a cache has: the rows document, the bytes under a digest, or some of these.
pub(crate) fn recall<C: Shelf>(
    alloc: Global,
    cache: &mut C,
    line: Line,
) -> Result<String, LineFault> {
    match line.call {
        "cache_rows" => Ok(shown(alloc, cache.rows()?.as_slice())?),
        "cache_read" => read(alloc, cache, line),
        _ => get(alloc, cache, line),
    }
}

fn read<C: Shelf>(alloc: Global, cache: &mut C, line: Line) -> Result<String, LineFault> {
    let digest = digest_of(alloc, line.first)?;
    let (at, most) = cut(line.rest);
    match cache.read(&digest, number_of(alloc, at)?, number_of(alloc, most)?)? {
        Some(bytes) => quoted(alloc, &bytes),
        None => Ok(String::from_str(alloc, "none")?),
    }
}

fn get<C: Shelf>(alloc: Global, cache: &mut C, line: Line) -> Result<String, LineFault> {
    let digest = digest_of(alloc, line.first)?;
    let has = cache.has(&digest)?;
    match cache.get(&digest)? {
        Some(bytes) => Ok(format!(in alloc; "{has}: {}", quoted(alloc, &bytes)?.as_str())?),
        None => Ok(format!(in alloc; "{has}")?),
    }
}

fn quoted(alloc: Global, bytes: &Bytes) -> Result<String, LineFault> {
    let bytes = shown(alloc, bytes.as_slice())?;
    Ok(format!(in alloc; "`{bytes}`")?)
}

/// Replaces the rows document, or puts bytes under a digest, at once or in pieces.
pub(crate) fn keep<C: Shelf>(alloc: Global, cache: &mut C, line: Line) -> Result<(), LineFault> {
    match line.call {
        "cache_set_rows" => Ok(cache.set_rows(line.given.as_bytes())?),
        "cache_begin" => Ok(cache.begin(&digest_of(alloc, line.first)?)?),
        "cache_append" => Ok(cache.append(written_out(alloc, line.given)?.as_bytes())?),
        "cache_keep" => Ok(cache.keep()?),
        _ => {
            let digest = digest_of(alloc, line.first)?;
            Ok(cache.put(&digest, written_out(alloc, line.rest)?.as_bytes())?)
        }
    }
}
