//! Opens damaged session files, each at a limit of a rule or one past it, and prints what becomes of it.
#![tactic(auto)]

mod files;
mod sample;

fn run(rt: &HostRuntime) -> anyhow::Result<()> {
    files::lengths(rt)?;
    files::editions(rt)?;
    files::counts(rt)?;
    files::sections(rt)?;
    files::orders(rt)?;
    files::codes(rt)?;
    files::events(rt)?;
    files::prices(rt)?;
    files::times(rt)?;
    files::full(rt)?;
    files::readers(rt)
}

fn main(rt: HostRuntime) -> anyhow::Result<()> {
    run(&rt)
}
