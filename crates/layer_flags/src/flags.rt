// The flags of a layer.

/// The three flags of a layer's document (buildpack.md, "Layer Types"). A document without them has three false ones.
#[derive(Clone, Copy, Debug, Default, PartialEq, Eq)]
pub struct Flags {
    /// The app has the layer when it is launched: it is part of the image.
    pub launch: bool,
    /// Later buildpacks have the layer while they build.
    pub build: bool,
    /// The layer's contents are kept in the caches for the next build.
    pub cache: bool,
}
