// What export does with a layer after the build.
ghost use Rattle.std.specs.Prelude.{◌≡◌, ◌≢◌, ◌↔◌, ◌⊎◌, ◌&&◌, IsTrue, IsFalse};
ghost use Rattle.layer_flags.specs.Export.{export_table, IsImageLayer};

use crate::flags::Flags;

/// What `export` does with one layer.
#[derive(Clone, Copy, Debug, PartialEq, Eq)]
pub enum ExportRow {
    /// The layer stays out of the image.
    Skip,
    /// The layer's contents go into the image.
    Add,
    /// The previous image's row of the layer goes into the image.
    Reuse,
    /// Refused: the layer is to be cached and has no contents.
    NoContents,
    /// Refused: the layer is for launch, has no contents, and the previous image hasn't got it.
    NoPrevious,
}

/// What `export` does with a layer of these flags (buildpack.md, "Layer Types"; platform.md, `exporter`). `contents`
/// says that the layer's folder is there, `previous` that the previous image has a row of that layer, and `equal` that
/// the contents have that row's digest. Without contents or without that row `equal` means nothing and isn't looked at.
pub fn export_row(flags: Flags, contents: bool, previous: bool, equal: bool) -> ExportRow
    ensures table { result ≡ export_table flags contents previous equal }
    ensures equal_counts_only_where_both { result ≡
        export_table flags contents previous (contents && previous && equal) }

    // When each refusal comes, and when the layer stays out.
    ensures no_contents { (result ≡ ExportRow.NoContents) ↔ (IsTrue flags.cache × IsFalse contents) }
    ensures no_previous { (result ≡ ExportRow.NoPrevious) ↔
        (IsTrue flags.launch × IsFalse flags.cache × IsFalse contents × IsFalse previous) }
    ensures skipped { (result ≡ ExportRow.Skip) ↔
        (IsFalse flags.launch × (IsFalse flags.cache ⊎ IsTrue contents)) }

    // What enters the image: launch layers alone, with contents or with a row to take them from.
    ensures image_layers_are_for_launch { IsImageLayer result → IsTrue flags.launch }
    ensures image_layers_have_a_source { IsImageLayer result → IsTrue contents ⊎ IsTrue previous }

    // What is added: the contents that the previous image hasn't got, whatever else it has.
    ensures added { (result ≡ ExportRow.Add) ↔
        (IsTrue flags.launch × IsTrue contents × (IsFalse previous ⊎ IsFalse equal)) }
    ensures added_where_contents_differ { IsTrue flags.launch → IsTrue contents → IsFalse equal →
        result ≡ ExportRow.Add }

    // What is reused: what the previous image has, and nothing else.
    ensures reused_only_from_previous { result ≡ ExportRow.Reuse → IsTrue previous }
    ensures reused_where_uncached { IsTrue flags.launch → IsFalse flags.cache →
        ((result ≡ ExportRow.Reuse) ↔ (IsTrue previous × (IsFalse contents ⊎ IsTrue equal))) }
    ensures reused_where_cached { IsTrue flags.launch → IsTrue flags.cache →
        ((result ≡ ExportRow.Reuse) ↔ (IsTrue contents × IsTrue previous × IsTrue equal)) }
{
    if flags.cache && !contents {
        return ExportRow::NoContents;
    }
    if !flags.launch {
        return ExportRow::Skip;
    }
    match (contents, previous) {
        (true, true) if equal => ExportRow::Reuse,
        (true, _) => ExportRow::Add,
        (false, true) => ExportRow::Reuse,
        (false, false) => ExportRow::NoPrevious,
    }
}
