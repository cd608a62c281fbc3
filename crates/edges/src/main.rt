//! Every denial and fault at its edge: each case prints one line, which is held to the file `stdout`.

#![tactic(auto)]

mod files;
mod kinds;
mod number;
mod two_media;

fn main(rt: HostRuntime) -> anyhow::Result<()> {
    kinds::kinds(&rt)?;
    two_media::surveys(&rt)?;
    two_media::writes(&rt)?;
    files::lengths(&rt)?;
    files::trailers(&rt)?;
    files::settings(&rt)?;
    files::requests(&rt)
}
