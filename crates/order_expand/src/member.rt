// Listed groups.
use bp_docs::Targets;
use cnb_toml::Key;
use cnb_world::List;

/// A component buildpack in a listed group, with the targets of its descriptor.
#[derive(Drop)]
pub struct Member {
    pub key: Key,
    pub optional: bool,
    pub clear_env: bool,
    pub targets: Targets,
}

/// A listed group: components alone, in order.
pub type Group = List<Member>;
