// The Buildpack API.
ghost use Rattle.std.specs.Prelude.{◌≡◌};
ghost use Rattle.cnb_toml.specs.Api.{is_served};

/// The Buildpack API that is served (buildpack.md, "Buildpack API Version").
pub const BUILDPACK_API: &str = "0.10";

/// Whether a Buildpack API is served.
pub fn is_served(api: &str) -> bool
    ensures { result ≡ is_served api.now }
{
    api == BUILDPACK_API
}
