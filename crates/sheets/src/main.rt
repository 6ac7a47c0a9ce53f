// Runs many sheets. Standard input is a list of sheets, each behind its length, a 32-bit number with the lowest byte first; of each this
// prints its number, from 1, and its text.
#![tactic(auto)]

use script::field_end;
use sheet_text::TEXT_ROOM;
use std::io;
use std::io::Read;

// The most bytes of the list that are read.
const MOST_BYTES: u64 = 262144;

fn main(rt: HostRuntime) -> io::Result<()> {
    let mut input = Vec::new(rt.alloc());
    rt.stdin().take(MOST_BYTES).read_to_end(&mut input)?;
    let mut out = [0u8; TEXT_ROOM];
    run_sheets(&rt, &input, &mut out)
}

fn run_sheets(rt: &impl Print, sheets: &[u8], out: &mut [u8]) -> io::Result<()> {
    let mut at = 0;
    let mut number: usize = 0;
    while at + 4 <= sheets.len() {
        let from = at + 4;
        let to = field_end(sheets, from, at);
        number += 1;
        title_line(rt, number)?;
        run_one(rt, &sheets[from..to], out)?;
        at = to;
    }
    Ok(())
}

fn title_line(rt: &impl Print, number: usize) -> io::Result<()> {
    println!(rt; "sheet {number}")
}

fn run_one(rt: &impl Print, sheet: &[u8], out: &mut [u8]) -> io::Result<()> {
    let length = sheet_text::run_sheet(sheet, out);
    rt.write_all(&out[..length])
}
