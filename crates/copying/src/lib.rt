// Copying bytes to the front of a slice that may be longer.
#![tactic(auto)]

ghost use Rattle.std.specs.Prelude.{◌≡◌, ◌≤◌, ◌++◌, length, take, drop};
ghost use Rattle.copying.specs.Copy.{CopyOf};

// Copies all of `from` to the front of `to`. The rest of `to` stays as it was. `copy_from_slice` alone wants slices of one length.
pub fn copy(from: &[u8], to: &mut [u8])
    requires { length from.now ≤ length to.old }
    ensures { to.new ≡ take (length from.now) from.now ++ drop (length from.now) to.old }
{
    to[0..from.len()].copy_from_slice(from);
}

// Copies all of `from` to the front of `to`, and answers how many bytes these are; an error is the room that they need, where `to` has less.
pub fn copy_if_room(from: &[u8], to: &mut [u8]) -> Result<usize, usize>
    ensures { CopyOf from.now to.old to.new result }
{
    let need = from.len();
    if to.len() < need {
        return Err(need);
    }
    copy(from, to);
    Ok(need)
}
