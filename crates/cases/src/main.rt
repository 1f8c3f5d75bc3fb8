// The cases at the edges that are run (docs/RULES.md). Each prints its name, then a refusal's number, place and entry: 0 0 0 if it is accepted.
#![tactic(auto)]

mod bodies;
mod files;
mod runs;
mod sets;
mod show;
mod tallies;
mod texts;
mod watches;

use std::io;

fn main(rt: HostRuntime) -> io::Result<()> {
    bodies::run(rt)?;
    texts::run(rt)?;
    watches::run(rt)?;
    sets::run(rt)?;
    tallies::run(rt)?;
    files::run(rt)?;
    runs::run(rt)
}
