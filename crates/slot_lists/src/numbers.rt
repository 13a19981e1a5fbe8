//! A value with its number.

ghost use Rattle.std.specs.Prelude.{◌≡◌, option_map};

/// The value with its number, where there is one. It stands apart for the proofs of its callers.
pub fn numbered<K: Copy, V>(number: K, value: Option<V>) -> Option<(K, V)>
    ensures { result ≡ option_map (λ v. (number, v)) value }
{
    match value {
        Some(value) => Some((number, value)),
        None => None,
    }
}
