// The lines that a sequence prints: one at its beginning, one of digests at each interval.
ghost use Rattle.std.specs.Prelude.{◌<◌, length};

use crate::digests::Digest;
use crate::{Sequence, State};
use std::io;

pub fn title_line(rt: &impl Print, s: Sequence) -> io::Result<()> {
    let g = s.geometry;
    println!(rt;
        "replay {},{},{} seed {}",
        g.head, g.ratio, g.levels, s.seed
    )
}

pub fn digest_line(
    rt: &impl Print,
    calls: u32,
    store: &[u32],
    work: &[u32],
    state: &State,
) -> io::Result<()>
    requires { 3 < length store.now }
{
    let live = store[geometry::LIVE];
    print!(rt; "calls {calls} live {live}")?;
    print_digest(rt, " store ", Digest::of(store))?;
    print_digest(rt, " work ", Digest::of(work))?;
    print_digest(rt, " replies ", state.replies)?;
    println!(rt)
}

fn print_digest(rt: &impl Print, name: &str, digest: Digest) -> io::Result<()> {
    print!(rt; "{name}{:016x}", digest.0)
}
