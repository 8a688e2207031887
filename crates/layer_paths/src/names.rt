// The names of the layers that have a document.
ghost use Rattle.std.specs.Prelude.{◌≡◌, IfOk, OnOk, ◌++◌, ◌∷◌, [], filter, map};
ghost use Rattle.std.specs.List.{filter_map};
ghost use Rattle.std.specs.Option.{option_copied};
ghost use Rattle.cnb_toml.specs.Names.{is_layer_name};
ghost use Rattle.layer_paths.specs.Names.{layers_among, stem_of};

use cnb_toml::{LayerName, NameFault, ascending};
use cnb_world::{List, Memory, Text};
use std::alloc::Global;

#[tactic(auto, using(crate::proofs::StemLemmas::stem_is))]
fn stem_of(name: &str) -> Option<&str>
    ensures { option_copied result ≡ stem_of name.now }
{
    name.strip_suffix(".toml")
}

fn stems<'a>(alloc: Global, names: &'a [Text]) -> Result<Vec<&'a str>, Memory>
    ensures { IfOk result (λ stems. map (λ stem. stem.now) stems.items ≡ filter_map stem_of names.now) }
{
    let mut stems = Vec::new(alloc);
    for name in names {
        if let Some(stem) = stem_of(name.as_str()) {
            stems.push(stem)?;
        }
    }
    Ok(stems)
}

fn push_name(alloc: Global, names: &mut List<LayerName>, stem: &str) -> Result<(), Memory>
    ensures { OnOk result (names.new ≡ names.old ++ filter is_layer_name (stem.now ∷ [])) }
{
    match LayerName::parse(alloc, stem) {
        Ok(name) => names.push(name),
        Err(NameFault::Bad) => Ok(()),
        Err(NameFault::Memory) => Err(Memory),
    }
}

/// The layers that have a document among files of these names, ascending by layer name.
pub fn layers_among(alloc: Global, names: &List<Text>) -> Result<List<LayerName>, Memory>
    ensures { IfOk result (λ layers. layers ≡ layers_among names.now) }
{
    let stems = ascending(alloc, stems(alloc, names.as_slice())?)?;
    let mut layers = List::new(alloc);
    for stem in &stems {
        push_name(alloc, &mut layers, stem)?;
    }
    Ok(layers)
}
