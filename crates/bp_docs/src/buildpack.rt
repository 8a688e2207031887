// Descriptors from their documents.
ghost use Rattle.std.specs.Prelude.{◌≡◌};
ghost use Rattle.toml.specs.View.{table_view};
ghost use Rattle.cnb_toml.specs.Reading.{Answers};
ghost use Rattle.bp_docs.specs.Descriptor.{head_in, body_of, known_in, foreign_in, described_by, descriptor_at};
ghost use Rattle.bp_docs.specs.Descriptor.{descriptor_in};

use crate::descriptor::{Body, Descriptor, Head, Order};
use crate::order::order_at;
use crate::targets::{Targets, targets_at};
use cnb_toml::{Doc, DocFault, Key, TableForm, TableOf, is_served, required_at, truth_at};
use cnb_world::Text;
use std::alloc::Global;
use toml::Table;

impl TableForm for Head {
    type Value = Head;

    ghost value_in = { head_in };

    fn read(alloc: Global, table: &Table) -> Result<Head, DocFault> {
        let key = Key::read(alloc, table)?;
        let clear_env = truth_at(alloc, table, "clear-env")?;
        Ok(Head { key, clear_env })
    }
}

fn body(clear_env: bool, targets: Targets, order: Order) -> Body
    ensures { result ≡ body_of clear_env targets order }
{
    if order.as_slice().is_empty() {
        Body::Component { clear_env, targets }
    } else {
        Body::Composite(order)
    }
}

fn known_in(alloc: Global, table: &Table) -> Result<Descriptor, DocFault>
    ensures { Answers result (known_in (table_view table.now)) }
{
    let head = required_at::<TableOf<Head>>(alloc, table, "buildpack")?;
    let targets = targets_at(alloc, table)?;
    let order = order_at(alloc, table)?;
    let Head { key, clear_env } = head;
    Ok(Descriptor {
        key,
        body: body(clear_env, targets, order),
    })
}

fn foreign_in(alloc: Global, api: Text, table: &Table) -> Result<Descriptor, DocFault>
    ensures { Answers result (foreign_in api (table_view table.now)) }
{
    let key = required_at::<TableOf<Key>>(alloc, table, "buildpack")?;
    Ok(Descriptor {
        key,
        body: Body::Foreign(api),
    })
}

fn descriptor_at(alloc: Global, table: &Table) -> Result<Descriptor, DocFault>
    ensures { Answers result (descriptor_at (table_view table.now)) }
{
    let api = required_at::<Text>(alloc, table, "api")?;
    if is_served(api.as_str()) {
        known_in(alloc, table)
    } else {
        foreign_in(alloc, api, table)
    }
}

/// Reads a `buildpack.toml` (buildpack.md, "buildpack.toml (TOML)"). Of a descriptor of another Buildpack API than
/// `0.10` only the key is read besides.
#[tactic(auto, unfolding(crate::specs::Descriptor::descriptor_in))]
pub fn read_buildpack(alloc: Global, bytes: &[u8]) -> Result<Descriptor, DocFault>
    ensures { Answers result (descriptor_in bytes.now) }
{
    let doc = Doc::read(alloc, bytes)?;
    descriptor_at(alloc, doc.table())
}
