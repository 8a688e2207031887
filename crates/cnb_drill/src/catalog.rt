// The catalog: for each column a composite of eight groups and their components, and the last component.
ghost use Rattle.std.specs.Prelude.{◌≡◌, ◌<◌, ◌+◌, ◌++◌, ◌∷◌, [], false, IfOk, OnOk};
ghost use Rattle.order_expand.specs.Catalog.{has_key};
ghost use Rattle.cnb_drill.specs.Buildpacks.{component, component_key, composite, entry_of};
ghost use Rattle.cnb_drill.specs.Order.{columns_below, drill_catalog};

use crate::keys::{component_key, composite_key, tail_key};
use crate::order::entry;
use bp_docs::{Body, Descriptor, Entry, Order, Targets};
use cnb_toml::Key;
use cnb_world::{List, Memory};
use order_expand::{Catalog, CatalogFault};
use std::alloc::Global;

fn component(alloc: Global, key: Key) -> Result<Descriptor, Memory>
    ensures { IfOk result (λ descriptor. descriptor ≡ component key) }
{
    let targets = Targets::new(alloc, List::new(alloc))?;
    Ok(Descriptor {
        key,
        body: Body::Component {
            clear_env: false,
            targets,
        },
    })
}

/// The group of a digit: that digit's component alone.
fn own_group(alloc: Global, column: u8, digit: u8) -> Result<List<Entry>, Memory>
    requires column { column < 4 }
    requires digit { digit < 8 }
    ensures { IfOk result (λ group. group ≡ entry_of (component_key column digit) ∷ []) }
{
    let key = component_key(alloc, column, digit)?;
    let mut group = List::new(alloc);
    group.push(entry(key))?;
    Ok(group)
}

/// The composite of a column, with a group for each digit.
fn composite(alloc: Global, column: u8) -> Result<Descriptor, Memory>
    requires { column < 4 }
    ensures { IfOk result (λ descriptor. descriptor ≡ composite column) }
{
    let mut groups: Order = List::new(alloc);
    for digit in 0..8u8 {
        let group = own_group(alloc, column, digit)?;
        groups.push(group)?;
    }
    let key = composite_key(alloc, column)?;
    Ok(Descriptor {
        key,
        body: Body::Composite(groups),
    })
}

/// Adds a descriptor whose key is new.
fn add(catalog: &mut Catalog, descriptor: Descriptor) -> Result<(), Memory>
    requires { has_key catalog.old descriptor.key ≡ false }
    ensures { OnOk result (catalog.new ≡ catalog.old ++ descriptor ∷ []) }
{
    match catalog.add(descriptor) {
        Ok(()) => Ok(()),
        Err(CatalogFault::Memory) => Err(Memory),
        Err(CatalogFault::Twice(_)) => unreachable!(),
    }
}

/// Adds a component whose key is new.
fn add_component(alloc: Global, catalog: &mut Catalog, key: Key) -> Result<(), Memory>
    requires { has_key catalog.old key ≡ false }
    ensures { OnOk result (catalog.new ≡ catalog.old ++ component key ∷ []) }
{
    let descriptor = component(alloc, key)?;
    add(catalog, descriptor)
}

/// Adds a column behind those before it.
fn add_column(alloc: Global, catalog: &mut Catalog, column: u8) -> Result<(), Memory>
    requires column { column < 4 }
    requires before { catalog.old ≡ columns_below column }
    ensures { OnOk result (catalog.new ≡ columns_below (column + 1)) }
{
    let own = composite(alloc, column)?;
    add(catalog, own)?;
    for digit in 0..8u8 {
        let key = component_key(alloc, column, digit)?;
        add_component(alloc, catalog, key)?;
    }
    Ok(())
}

pub(crate) fn catalog(alloc: Global) -> Result<Catalog, Memory>
    ensures { IfOk result (λ catalog. catalog ≡ drill_catalog) }
{
    let mut catalog = Catalog::new(alloc);
    for column in 0..4u8 {
        add_column(alloc, &mut catalog, column)?;
    }
    let key = tail_key(alloc)?;
    add_component(alloc, &mut catalog, key)?;
    Ok(catalog)
}
