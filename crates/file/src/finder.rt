// The search for a name in a sound file.
ghost use Rattle.std.specs.Prelude.{◌≡◌};
ghost use Rattle.file.specs.Check.{file_check};
ghost use Rattle.file.specs.Lookup.{placed};

use crate::{CONTENT_BYTES, NAME_BYTES, Place, contents};

// Where the body with this name is in a sound file.
#[tactic(auto, using(crate::proofs::Finds::sound_long, crate::proofs::Finds::sought_here, crate::proofs::Finds::sought_more, crate::proofs::Finds::sought_all))]
pub(crate) fn find(file: &[u8], name: &[u8]) -> Option<Place>
    requires { file_check file.now ≡ Ok tt }
    ensures { result ≡ placed file.now name.now }
{
    let count = usize::from(file[0]);
    for i in 0..count {
        let at = 1 + CONTENT_BYTES * i;
        if &file[at..at + NAME_BYTES] == name {
            return Some(contents::place_in(&file[at..]));
        }
    }
    None
}
