// The buildpacks that an order may name.
ghost use Rattle.std.specs.Prelude.{◌≡◌, ◌++◌, ◌∷◌, [], OnErr, IfSome, IsTrue, Some};
ghost use Rattle.std.specs.Option.{option_map};
ghost use Rattle.std.specs.List.{list_any, slice_get};
ghost use Rattle.order_expand.specs.Catalog.{has_key, has_distinct_keys};
ghost use Rattle.order_expand.specs.Fingerprints.{fingerprint, descriptor_fingerprint};
ghost use Rattle.order_expand.specs.Groups.{may_mean, named};
ghost use Rattle.order_expand.specs.Places.{place_of};

use crate::fingerprints::fingerprint_of;
use crate::table::at;
use bp_docs::{Descriptor, Entry};
use cnb_toml::Key;
use std::alloc::{AllocFailed, Global};
use std::fmt;
use std::marker::Model;
use thiserror::Error;

/// The descriptors of all buildpacks at hand, of which no two have the same key, and the fingerprints of their ids.
/// Contracts see it as the list of the descriptors.
#[derive(Drop)]
pub struct Catalog {
    descriptors: Vec<Descriptor>,
    fingerprints: Vec<u32>,
}

impl Model for Catalog {
    ghost use Rattle.std.specs.Prelude.{◌≡◌, List, IsTrue, map};
    ghost use Rattle.order_expand.specs.Catalog.{has_distinct_keys};
    ghost use Rattle.order_expand.specs.Fingerprints.{descriptor_fingerprint};
    ghost use Rattle.bp_docs.specs.declared.descriptor.Descriptor.{Descriptor};

    ghost Value = { List Descriptor };

    ghost view = { λ catalog. catalog.descriptors.items };

    ghost invariant = { λ catalog. IsTrue (has_distinct_keys catalog.descriptors.items)
        × (catalog.fingerprints.items ≡ map descriptor_fingerprint catalog.descriptors.items) };
}

/// Why a descriptor is not added: one of its key is there.
#[derive(Drop, Error)]
pub enum CatalogFault {
    #[error("`{}@{}` stands twice", .0.id.as_str(), .0.version.as_str())]
    Twice(Key),
    #[error("out of memory")]
    Memory,
}

impl fmt::Debug for CatalogFault {
    fn fmt<W: fmt::Write>(&self, f: &mut fmt::Formatter<W>) -> fmt::Result {
        fmt::Display::fmt(self, f)
    }
}

impl From<AllocFailed<Descriptor>> for CatalogFault {
    ghost use Rattle.std.specs.Prelude.{◌≡◌};
    ghost use Rattle.order_expand.specs.declared.catalog.CatalogFault.TheVariants.{Memory};

    ghost from_gives = { λ _ fault. fault ≡ Memory };

    fn from(_: AllocFailed<Descriptor>) -> Self {
        CatalogFault::Memory
    }
}

/// Whether an entry may mean a descriptor.
fn may_mean(entry: &Entry, descriptor: &Descriptor) -> bool
    ensures { result ≡ may_mean entry.now descriptor.now }
{
    if entry.id != descriptor.key.id {
        return false;
    }
    match &entry.version {
        Some(version) => *version == descriptor.key.version,
        None => true,
    }
}

/// Whether an entry may mean a descriptor: their fingerprints tell most of those apart that it doesn't mean.
fn is_meant(entry: &Entry, wanted: u32, descriptor: &Descriptor, print: u32) -> bool
    requires wanted { wanted ≡ fingerprint entry.now.id }
    requires print { print ≡ descriptor_fingerprint descriptor.now }
    ensures { result ≡ may_mean entry.now descriptor.now }
{
    if print != wanted {
        return false;
    }
    may_mean(entry, descriptor)
}

/// A descriptor that an entry names, and its place in the catalog.
#[derive(Clone, Copy)]
pub(crate) struct Named<'a> {
    pub(crate) place: usize,
    pub(crate) descriptor: &'a Descriptor,
}

impl Catalog {
    ghost use Rattle.order_expand.specs.Added.{AddsTo};

    pub fn new(alloc: Global) -> Catalog
        ensures { result ≡ [] }
    {
        Catalog {
            descriptors: Vec::new(alloc),
            fingerprints: Vec::new(alloc),
        }
    }

    pub(crate) fn descriptors(&self) -> &[Descriptor]
        ensures { result.now ≡ self.now }
    {
        self.descriptors.as_slice()
    }

    fn has(&self, key: &Key) -> bool
        ensures { result ≡ has_key self.now key.now }
    {
        self.descriptors
            .iter()
            .any(|descriptor| *key == descriptor.key)
    }

    /// Adds a descriptor.
    pub fn add(&mut self, descriptor: Descriptor) -> Result<(), CatalogFault>
        ensures added { AddsTo result self.old descriptor self.new }
        ensures err { OnErr result (self.new ≡ self.old) }
    {
        if self.has(&descriptor.key) {
            let Descriptor { key, body: _ } = descriptor;
            return Err(CatalogFault::Twice(key));
        }
        let print = fingerprint_of(&descriptor.key.id);
        self.descriptors.push(descriptor)?;
        if self.fingerprints.push(print).is_err() {
            let _ = self.descriptors.pop();
            return Err(CatalogFault::Memory);
        }
        Ok(())
    }

    /// Whether an entry may mean some descriptor.
    pub(crate) fn has_meant(&self, entry: &Entry) -> bool
        ensures { result ≡ list_any (may_mean entry.now) self.now }
    {
        self.descriptors
            .iter()
            .any(|descriptor| may_mean(entry, descriptor))
    }

    /// The place of the descriptor that an entry names: the only one that it may mean. Several are none.
    fn place(&self, entry: &Entry) -> Option<usize>
        ensures { result ≡ place_of self.now entry.now }
    {
        let wanted = fingerprint_of(&entry.id);
        let mut found = None;
        for (place, descriptor) in self.descriptors.iter().enumerate() {
            let print = at(self.fingerprints.as_slice(), place);
            if is_meant(entry, wanted, descriptor, print) {
                if found.is_some() {
                    return None;
                }
                found = Some(place);
            }
        }
        found
    }

    /// The descriptor that an entry names, and its place.
    pub(crate) fn named(&self, entry: &Entry) -> Option<Named<'_>>
        ensures named { option_map (λ found. found.descriptor.now) result ≡ named self.now entry.now }
        ensures distinct { IsTrue (has_distinct_keys self.now) }
        ensures place { IfSome result (λ found. slice_get self.now found.place ≡ Some found.descriptor.now) }
    {
        match self.place(entry) {
            Some(place) => match self.descriptors.get(place) {
                Some(descriptor) => Some(Named { place, descriptor }),
                None => None,
            },
            None => None,
        }
    }
}
