// The first character of a text.
ghost use Rattle.std.specs.Prelude.{◌≡◌, ◌∷◌, ◌<◌, [], length, chars, MatchOption};

/// The first character and what is behind it.
#[tactic(auto, using(crate::proofs::Texts::first_of))]
pub(crate) fn first(text: &str) -> Option<(char, &str)>
    ensures { MatchOption result (chars text.now ≡ [])
        (λ p. (chars text.now ≡ p.0 ∷ chars p.1.now) × (length p.1.now < length text.now)) }
{
    let mut chars = text.chars();
    match chars.next() {
        Some(c) => Some((c, chars.as_str())),
        None => None,
    }
}
