// The form of a name.
ghost use Rattle.std.specs.Prelude.{◌≡◌, ◌↔◌, IsTrue, EachIndex, slice_index};
ghost use Rattle.file.specs.Contents.{name_byte, named};

// Whether bytes are a name: at least one letter or digit, then padding.
#[tactic(auto, using(crate::proofs::Names::named_none, crate::proofs::Names::named_first, crate::proofs::Names::padded_turn, crate::proofs::Names::padded_end))]
pub(crate) fn is_name(name: &[u8]) -> bool
    ensures { result ≡ named name.now }
{
    if name.is_empty() || !is_name_byte(name[0]) {
        return false;
    }
    for i in 1..name.len() {
        if !is_name_byte(name[i]) {
            return are_spaces(&name[i..]);
        }
    }
    true
}

// Whether a byte is one of `A`..`Z` or `0`..`9`.
#[tactic(auto, unfolding(crate::specs::Contents::name_byte))]
fn is_name_byte(c: u8) -> bool
    ensures { result ≡ name_byte c }
{
    matches!(c, b'A'..=b'Z' | b'0'..=b'9')
}

// Whether there are only spaces.
fn are_spaces(bytes: &[u8]) -> bool
    ensures { IsTrue result ↔ EachIndex bytes.now (λ k. slice_index bytes.now k ≡ 32) }
{
    bytes.iter().all(|c| *c == b' ')
}
