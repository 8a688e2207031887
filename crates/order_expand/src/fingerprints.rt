// Numbers that tell most ids apart, compared before their texts.
ghost use Rattle.std.specs.Prelude.{◌≡◌};
ghost use Rattle.order_expand.specs.Fingerprints.{fingerprint};

use cnb_toml::BpId;

/// The fingerprint of an id: a number that all that are this id share, and few others.
pub(crate) fn fingerprint_of(id: &BpId) -> u32
    ensures { result ≡ fingerprint id.now }
{
    let mut print = 0u32;
    for byte in id.as_str().as_bytes() {
        print = (print * 31 + u32::from(*byte)) % 65536;
    }
    print
}
