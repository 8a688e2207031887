// What is restored of a layer before the build.
ghost use Rattle.std.specs.Prelude.{◌≡◌, ◌≢◌, ◌↔◌, IsSome, IsSomeAnd, IsTrue};
ghost use Rattle.layer_flags.specs.Flags.{IsLaunch, IsLaunchAlone, IsLaunchUncached, IsLaunchCached, IsCachedAlone};
ghost use Rattle.layer_flags.specs.Restore.{restore_table};

use crate::flags::Flags;

/// What is restored of one layer. The metadata are those of the previous image's row where that row is for launch,
/// else those of the gathered row.
#[derive(Clone, Copy, Debug, PartialEq, Eq)]
pub enum RestoreRow {
    /// Neither the layer's document nor its contents.
    Nothing,
    /// The document with the metadata, without contents.
    Meta,
    /// The document with the metadata, and the contents that the caches hold.
    Both,
}

/// What is restored of a layer (buildpack.md, "Layer Types"; platform.md, `restorer`). `app` has the flags of the
/// previous image's row of that layer, `cache` those of the row gathered from the caches, and `same` says that both
/// rows are there with equal digests. Where one of them isn't there, `same` means nothing and isn't looked at.
pub fn restore_row(app: Option<Flags>, cache: Option<Flags>, same: bool) -> RestoreRow
    ensures table { result ≡ restore_table app cache same }

    // Which layers come back without contents, and which with them.
    ensures metadata_alone { (result ≡ RestoreRow.Meta) ↔ IsSomeAnd app IsLaunchAlone }
    ensures contents_of_launch_layer { IsSomeAnd app IsLaunch →
        ((result ≡ RestoreRow.Both) ↔ (IsSomeAnd app IsLaunchCached × IsSome cache × IsTrue same)) }
    ensures contents_of_other_layer { (¬ IsSomeAnd app IsLaunch) →
        ((result ≡ RestoreRow.Both) ↔ IsSomeAnd cache IsCachedAlone) }

    // Contents come from the caches alone, and never to a launch layer that was not to be cached.
    ensures contents_only_where_gathered { result ≡ RestoreRow.Both → IsSome cache }
    ensures no_contents_where_uncached { IsSomeAnd app IsLaunchUncached → result ≢ RestoreRow.Both }
{
    match (app, cache) {
        (Some(row), Some(_)) if row.launch && row.cache && same => RestoreRow::Both,
        (Some(row), _) if row.launch && !row.build && !row.cache => RestoreRow::Meta,
        (Some(row), _) if row.launch => RestoreRow::Nothing,
        (_, Some(row)) if row.cache && !row.launch => RestoreRow::Both,
        _ => RestoreRow::Nothing,
    }
}
