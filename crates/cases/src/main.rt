// The cases of document 01 that are not proved, and those of the requests: each call is made, and what it answers is printed.
// The expected lines stand in the file stdout.
#![tactic(auto)]

mod documents;
mod ends;
mod files;
mod largest;
mod lines;
mod missing;
mod readings;
mod rules;
mod stores;

use std::io;

fn main(rt: HostRuntime) -> io::Result<()> {
    files::rule_checks(&rt)?;
    files::writings(&rt)?;
    files::openings(&rt)?;
    files::unopened(&rt)?;
    largest::letters(&rt)?;
    largest::trees(&rt)?;
    ends::cases(&rt)?;
    documents::cases(&rt)?;
    documents::full_case(&rt)?;
    missing::moves(&rt)?;
    readings::refusals(&rt)
}
