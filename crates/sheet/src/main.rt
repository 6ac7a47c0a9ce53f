// The sheet program: reads a sheet from standard input and prints its text.
#![tactic(auto)]

use std::io;
use std::io::Read;

// One byte more than a sheet may have.
const MOST_BYTES: u64 = 16385;

fn main(rt: HostRuntime) -> io::Result<()> {
    let mut input = Vec::new(rt.alloc());
    rt.stdin().take(MOST_BYTES).read_to_end(&mut input)?;
    let mut out = [0u8; sheet_text::TEXT_ROOM];
    let length = sheet_text::run_sheet(&input, &mut out);
    rt.write_all(&out[..length])
}
