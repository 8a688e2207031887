// Entries that mean no buildpack, or several, or one of another Buildpack API.
ghost use Rattle.std.specs.Prelude.{◌≡◌, IfOk};
ghost use Rattle.order_expand.specs.Check.{body_fault, entry_fault};

use crate::catalog::Catalog;
use crate::order::OrderFault;
use bp_docs::{Body, Entry};
use cnb_world::Memory;
use std::alloc::Global;

/// Why an entry is refused that names a descriptor.
fn body_fault(alloc: Global, entry: &Entry, body: &Body) -> Result<Option<OrderFault>, Memory>
    ensures { IfOk result (λ fault. fault ≡ body_fault entry.now body.now) }
{
    match body {
        Body::Foreign(api) => {
            let id = entry.id.copy(alloc)?;
            Ok(Some(OrderFault::Api(id, api.copy(alloc)?)))
        },
        Body::Component { .. } => Ok(None),
        Body::Composite(_) => Ok(None),
    }
}

/// Why an entry is refused.
pub(crate) fn entry_fault(
    alloc: Global,
    catalog: &Catalog,
    entry: &Entry,
) -> Result<Option<OrderFault>, Memory>
    ensures { IfOk result (λ fault. fault ≡ entry_fault catalog.now entry.now) }
{
    if let Some(found) = catalog.named(entry) {
        return body_fault(alloc, entry, &found.descriptor.body);
    }
    let id = entry.id.copy(alloc)?;
    if catalog.has_meant(entry) {
        Ok(Some(OrderFault::Ambiguous(id)))
    } else {
        Ok(Some(OrderFault::Absent(id)))
    }
}
