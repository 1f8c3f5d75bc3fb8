// Writing the contents of a file.
ghost use Rattle.std.specs.Prelude.{◌≡◌, length};
ghost use Rattle.file.specs.Contents.{content_of, contents, bodies_at};
ghost use Rattle.file.specs.Ready.{EntryReady, ContentsReady};

use crate::{CONTENT_BYTES, NAME_BYTES};
use rules::ENTRY_BYTES;

// Writes the contents: an entry for each name and number of entries. Each body begins where the one before it ends.
#[tactic(auto, using(crate::proofs::Writes::filled_more, crate::proofs::Writes::filled_all))]
pub(crate) fn write_contents(names: &[u8], counts: &[u8], part: &mut [u8])
    requires { ContentsReady names.now counts.now part.old }
    ensures { part.new ≡ contents names.now counts.now (bodies_at (length counts.now)) }
{
    let mut offset = 1 + CONTENT_BYTES * counts.len();
    for (i, n) in counts.iter().enumerate() {
        let from = i * NAME_BYTES;
        let at = i * CONTENT_BYTES;
        write_entry(
            &names[from..from + NAME_BYTES],
            offset,
            *n,
            &mut part[at..at + CONTENT_BYTES],
        );
        offset += usize::from(*n) * ENTRY_BYTES;
    }
}

// Writes an entry of the contents: name, offset of the body (low byte first), number of entries, a zero byte.
fn write_entry(name: &[u8], offset: usize, n: u8, entry: &mut [u8])
    requires { EntryReady name.now entry.old }
    ensures { entry.new ≡ content_of name.now offset n }
{
    entry[..NAME_BYTES].copy_from_slice(name);
    entry[8..10].copy_from_slice(&offset.to_le_bytes()[..2]);
    entry[10] = n;
    entry[11] = 0;
}
