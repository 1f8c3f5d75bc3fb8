// Pattern files: their check, their writer, and the lookup of a body in a site file and a fleet file.
#![tactic(auto)]

mod contents;
mod finder;
mod name;
mod parts;
mod writer;

ghost use Rattle.std.specs.Prelude.{◌≡◌, ◌<◌};
ghost use Rattle.file.specs.Check.{file_check};
ghost use Rattle.file.specs.Place.{pattern_count, body_place};
ghost use Rattle.file.specs.Write.{Wrote};
ghost use Rattle.file.specs.Lookup.{finding_of, file_from, part_of};

use refusal::Refusal;

// How many bytes a name has, and an entry of the contents.
pub const NAME_BYTES: usize = 8;

pub const CONTENT_BYTES: usize = 12;

// One of the two files of a lookup.
#[derive(Clone, Copy, Debug, PartialEq, Eq)]
pub enum Whose {
    Site,
    Fleet,
}

// Where a body is in a file: at which byte it begins, and how many bytes it has.
#[derive(Clone, Copy, Debug, PartialEq, Eq)]
pub struct Place {
    pub from: usize,
    pub long: usize,
}

// What a lookup finds: the file that has the body, and where the body is in it.
#[derive(Clone, Copy, Debug, PartialEq, Eq)]
pub struct Found {
    pub whose: Whose,
    pub place: Place,
}

// Why a lookup finds nothing: a file is refused, or the name is in neither file.
#[derive(Clone, Copy, Debug, PartialEq, Eq)]
pub enum LookupError {
    Broken(Whose, Refusal),
    Absent,
}

// Checks a file: its count, its contents, where it ends, and each body.
#[tactic(auto, unfolding(crate::specs::Check::file_check))]
pub fn check_file(file: &[u8]) -> Result<(), Refusal>
    ensures { result ≡ file_check file.now }
{
    let [count, rest @ ..] = file else {
        return Err(Refusal::Count);
    };
    contents::check_rest(usize::from(*count), rest)
}

// How many patterns a file says it has; an empty file has none.
pub fn pattern_count(file: &[u8]) -> usize
    ensures { (result ≡ pattern_count file.now) × (result < 256) }
{
    match file {
        [count, ..] => usize::from(*count),
        [] => 0,
    }
}

// Where body number i of a file is, as its contents say. There is none if there is no such pattern, or the contents are cut short.
#[tactic(auto, unfolding(crate::specs::Place::body_place))]
pub fn body_at(file: &[u8], i: usize) -> Option<Place>
    ensures { result ≡ body_place file.now i }
{
    if i >= pattern_count(file) {
        return None;
    }
    let at = 1 + CONTENT_BYTES * i;
    if file.len() < at + CONTENT_BYTES {
        return None;
    }
    Some(contents::place_in(&file[at..]))
}

// Writes the file of these names, numbers of entries (one for each pattern) and bodies, all given end to end, and answers how many bytes it has.
// A refusal leaves the slice as it was.
#[tactic(auto, using(crate::proofs::Writes::wrote_refused, crate::proofs::Writes::wrote_short, crate::proofs::Checks::parts_sound))]
pub fn write_file(
    names: &[u8],
    counts: &[u8],
    bodies: &[u8],
    file: &mut [u8],
) -> Result<usize, Refusal>
    ensures { Wrote names.now counts.now bodies.now file.old file.new result }
{
    parts::check_parts(names, counts, bodies)?;
    let bodies_at = 1 + CONTENT_BYTES * counts.len();
    let needed = bodies_at + bodies.len();
    if file.len() < needed {
        return Err(Refusal::Room(needed));
    }
    file[0] = counts.len() as u8;
    writer::write_contents(names, counts, &mut file[1..bodies_at]);
    file[bodies_at..needed].copy_from_slice(bodies);
    Ok(needed)
}

// The body with this name, as a part of the site file or of the fleet file; an empty part if there is none. `looked_up` says why.
#[tactic(auto, using(crate::proofs::Placed::finding_found))]
pub fn lookup<'a>(site: &'a [u8], fleet: &'a [u8], name: &[u8]) -> &'a [u8]
    ensures { result.now ≡ part_of (finding_of site.now fleet.now name.now) site.now fleet.now }
{
    match looked_up(site, fleet, name) {
        Ok(Found { whose, place }) => {
            &file_from(whose, site, fleet)[place.from..place.from + place.long]
        }
        Err(_) => &site[..0],
    }
}

// One of the two files.
fn file_from<'a>(whose: Whose, site: &'a [u8], fleet: &'a [u8]) -> &'a [u8]
    ensures { result.now ≡ file_from whose site.now fleet.now }
{
    match whose {
        Whose::Site => site,
        Whose::Fleet => fleet,
    }
}

// Where the body with this name is. The site file is checked first and searched first.
#[tactic(auto, unfolding(crate::specs::Lookup::finding_of))]
pub fn looked_up(site: &[u8], fleet: &[u8], name: &[u8]) -> Result<Found, LookupError>
    ensures { result ≡ finding_of site.now fleet.now name.now }
{
    check_file(site).map_err(|r| LookupError::Broken(Whose::Site, r))?;
    check_file(fleet).map_err(|r| LookupError::Broken(Whose::Fleet, r))?;
    if let Some(place) = finder::find(site, name) {
        return Ok(Found {
            whose: Whose::Site,
            place,
        });
    }
    if let Some(place) = finder::find(fleet, name) {
        return Ok(Found {
            whose: Whose::Fleet,
            place,
        });
    }
    Err(LookupError::Absent)
}
