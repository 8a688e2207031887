// Buildpack descriptors and orders.
use crate::targets::Targets;
use cnb_toml::{BpId, BpVersion, Key};
use cnb_world::{List, Text};

/// One entry of a group of an order (buildpack.md, "buildpack.toml (TOML)", `order.group`).
#[derive(Drop)]
pub struct Entry {
    pub id: BpId,
    pub version: Option<BpVersion>,
    pub optional: bool,
}

/// Groups, in the order in which they are tried.
pub type Order = List<List<Entry>>;

/// One of the targets of a component: the operating system and the architecture that an image has to have (buildpack.md,
/// "buildpack.toml (TOML)", `targets`). What is none may be any.
#[derive(Drop)]
pub struct TargetRule {
    pub os: Option<Text>,
    pub arch: Option<Text>,
}

/// What a descriptor describes: a component buildpack, a composite one, or one of another Buildpack API, of which
/// nothing else is known.
#[derive(Drop)]
pub enum Body {
    Component { clear_env: bool, targets: Targets },
    Composite(Order),
    Foreign(Text),
}

/// A `buildpack.toml`.
#[derive(Drop)]
pub struct Descriptor {
    pub key: Key,
    pub body: Body,
}

/// The table `buildpack` of a descriptor.
#[derive(Drop)]
pub(crate) struct Head {
    pub(crate) key: Key,
    pub(crate) clear_env: bool,
}
