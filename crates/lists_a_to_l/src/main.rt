// Runs lists a to l of document 01, and writes the answer to each: its number, count and place,
// and of each event the kind, the span and, where it is not 0, the number. Where it cannot be written
// the program ends with the error.
#![tactic(auto)]

mod build;
mod lists;
mod long;
mod show;

use std::io;

fn main(rt: HostRuntime) -> io::Result<()> {
    lists::first(&rt)?;
    lists::flow(&rt)?;
    lists::names(&rt)?;
    long::most(&rt)?;
    long::too_many(&rt)?;
    lists::short_of_room(&rt)
}
