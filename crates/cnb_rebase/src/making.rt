// The command `base`.
ghost use Rattle.std.specs.Prelude.{◌≤◌, All, IfOk, IsTrue, OnOk, length};
ghost use Rattle.cnb_toml.specs.Names.{is_target_name};
ghost use Rattle.cnb_words.specs.Base.{KeepsLimits};
ghost use Rattle.image_docs.specs.RunImage.{is_run_doc};
ghost use Rattle.image_files.specs.Images.{RunImageStands};
ghost use Rattle.steps.specs.Outside.{seen};
ghost use Rattle.cnb_rebase.specs.Bases.{bases_command, makes_base, puts_folders, puts_next};

use crate::refusal::BaseFault;
use crate::report::base_text;
use cnb_words::BaseWords;
use cnb_world::{Env, List, Path, Text, World};
use image_docs::RunDoc;
use image_files::save_run_image;
use std::alloc::Global;
use tree_canon::Digest;
use tree_store::{StoreFault, put_folder};

// Puts the tree of a folder, behind those of the folders before.
fn put_next<W: World>(
    alloc: Global,
    world: &mut W,
    store: &Path,
    folder: &Path,
    digests: List<Digest>,
) -> Result<List<Digest>, StoreFault>
    requires store { length store.now ≤ 4096 }
    requires folder { length folder.now ≤ 4096 }
    ensures step { puts_next store.now folder.now digests (seen W.World world.old) result (seen W.World world.new) }
{
    let mut digests = digests;
    let digest = put_folder(alloc, world, store, folder)?;
    digests.push(digest)?;
    Ok(digests)
}

// Puts the trees of folders in their order.
fn put_folders<W: World>(
    alloc: Global,
    world: &mut W,
    store: &Path,
    folders: &[Path],
) -> Result<List<Digest>, StoreFault>
    requires store { length store.now ≤ 4096 }
    requires folders { All (λ folder. length folder ≤ 4096) folders.now }
    ensures steps { puts_folders store.now folders.now (seen W.World world.old) result (seen W.World world.new) }
{
    let mut digests = List::new(alloc);
    for folder in folders {
        digests = put_next(alloc, world, store, folder, digests)?;
    }
    Ok(digests)
}

/// Puts the trees of folders into the store, and gives the run image that they make, from the lowest. After a refusal
/// the trees of a first part of the folders may stand.
pub fn base<W: World>(
    alloc: Global,
    world: &mut W,
    store: &Path,
    os: &str,
    arch: &str,
    folders: &[Path],
) -> Result<RunDoc, StoreFault>
    requires store { length store.now ≤ 4096 }
    requires folders { All (λ folder. length folder ≤ 4096) folders.now }
    ensures steps { makes_base store.now os.now arch.now folders.now
        (seen W.World world.old) result (seen W.World world.new) }
    ensures readable { IsTrue (is_target_name os.now) → IsTrue (is_target_name arch.now) → 1 ≤ length folders.now
        → IfOk result (λ image. IsTrue (is_run_doc image)) }
{
    let rows = put_folders(alloc, world, store, folders)?;
    let os = Text::of(alloc, os)?;
    let arch = Text::of(alloc, arch)?;
    let env = Env::new(alloc);
    Ok(RunDoc {
        os,
        arch,
        rows,
        env,
    })
}

/// Makes a run image of folders, writes its document, and gives the text to be printed.
pub fn base_command<W: World>(
    alloc: Global,
    options: &BaseWords,
    world: &mut W,
) -> Result<Text, BaseFault>
    requires { KeepsLimits options.now }
    ensures steps { bases_command options.now (seen W.World world.old) result (seen W.World world.new) }
    ensures stands { OnOk result (RunImageStands options.now.store options.now.run (W.tree world.new)) }
{
    let image = base(
        alloc,
        world,
        &options.store,
        options.os.as_str(),
        options.arch.as_str(),
        options.trees.as_slice(),
    )?;
    let text = base_text(alloc, &options.run, &image)?;
    save_run_image(alloc, world, &options.store, &options.run, &image)?;
    Ok(text)
}
