// Texts with a given beginning or end.

ghost use Rattle.std.specs.Prelude.{◌≡◌, ◌++◌, ℕ, List, MatchOption};

// What stands behind this beginning, if the text has it.
pub(crate) fn behind<'a>(front: &[u8], text: &'a [u8]) -> Option<&'a [u8]>
    ensures { MatchOption result ((rest : List ℕ) → text.now ≡ front.now ++ rest → ⊥) (λ r. text.now ≡ front.now ++ r.now) }
{
    text.strip_prefix(front)
}

// What stands before this end, if the text has it.
pub(crate) fn before<'a>(end: &[u8], text: &'a [u8]) -> Option<&'a [u8]>
    ensures { MatchOption result ((front : List ℕ) → text.now ≡ front ++ end.now → ⊥) (λ r. text.now ≡ r.now ++ end.now) }
{
    text.strip_suffix(end)
}
