// The command `verify`.
ghost use Rattle.std.specs.Prelude.{◌≤◌, length};
ghost use Rattle.cnb_words.specs.Verify.{KeepsLimits};
ghost use Rattle.steps.specs.Outside.{seen};
ghost use Rattle.store_prune.specs.Verifies.{checks_all, checks_image, checks_next, verifies, verifies_command};
ghost use Rattle.store_prune.specs.Verifying.{VerifiesExactly, VerifiesPrinted};

use crate::digits::distinct_digests;
use crate::fault::VerifyFault;
use crate::report::verified_text;
use cnb_toml::ImageName;
use cnb_words::VerifyWords;
use cnb_world::{Path, Text, World};
use image_docs::ImageDoc;
use image_files::read_image;
use std::alloc::Global;
use tree_canon::Digest;
use tree_store::check_tree;

fn check_next<W: World>(
    alloc: Global,
    world: &mut W,
    store: &Path,
    digest: &Digest,
) -> Result<(), VerifyFault>
    requires { length store.now ≤ 4096 }
    ensures steps { checks_next store.now digest.now tt (seen W.World world.old) result (seen W.World world.new) }
{
    check_tree(alloc, world, store, digest)?;
    Ok(())
}

fn check_all<W: World>(
    alloc: Global,
    world: &mut W,
    store: &Path,
    digests: &[Digest],
) -> Result<(), VerifyFault>
    requires { length store.now ≤ 4096 }
    ensures steps { checks_all store.now digests.now (seen W.World world.old) result (seen W.World world.new) }
{
    for digest in digests {
        check_next(alloc, world, store, digest)?;
    }
    Ok(())
}

// Checks the trees of an image, each once, and counts them.
fn check_image<W: World>(
    alloc: Global,
    world: &mut W,
    store: &Path,
    image: &ImageDoc,
) -> Result<u64, VerifyFault>
    requires { length store.now ≤ 4096 }
    ensures steps { checks_image store.now image.now (seen W.World world.old) result (seen W.World world.new) }
{
    let digests = distinct_digests(alloc, image.rows.as_slice())?;
    let found = digests.as_slice();
    check_all(alloc, world, store, found)?;
    Ok(found.len() as u64)
}

/// Sees that each tree of an image's rows is in the store, whole and undamaged, and gives how many trees they are. The
/// files are read in pieces, and nothing is changed.
pub fn verify<W: World>(
    alloc: Global,
    world: &mut W,
    store: &Path,
    image: &ImageName,
) -> Result<u64, VerifyFault>
    requires { length store.now ≤ 4096 }
    ensures steps { verifies store.now image.now (seen W.World world.old) result (seen W.World world.new) }
    ensures exactly { VerifiesExactly store.now image.now (W.tree world.old) result }
{
    let image = read_image(alloc, world, store, image)?;
    check_image(alloc, world, store, &image)
}

/// Verifies an image, and gives the text to be printed.
pub fn verify_command<W: World>(
    alloc: Global,
    options: &VerifyWords,
    world: &mut W,
) -> Result<Text, VerifyFault>
    requires { KeepsLimits options.now }
    ensures steps { verifies_command options.now (seen W.World world.old) result (seen W.World world.new) }
    ensures exactly { VerifiesPrinted options.now.store options.now.image (W.tree world.old) result }
{
    let count = verify(alloc, world, &options.store, &options.image)?;
    let text = verified_text(alloc, &options.image, count)?;
    Ok(text)
}
