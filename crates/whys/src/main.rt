// Runs the text of `why` on many inputs. Standard input is a list of inputs: each is three lengths, 32-bit numbers with the lowest byte
// first, and then the bytes that they count: those of the badge, of the floor and of the chip. Of each input this prints its number, from
// 1, with `out` or `err` for the stream that its text is for, and then the text.
#![tactic(auto)]

use script::field_end;
use std::io;
use std::io::Read;
use why_text::{Stream, tell_why};

// The most bytes of the list that are read.
const MOST_BYTES: u64 = 262144;

fn main(rt: HostRuntime) -> io::Result<()> {
    let mut input = Vec::new(rt.alloc());
    rt.stdin().take(MOST_BYTES).read_to_end(&mut input)?;
    let mut words = vec![in rt.alloc(); 0u32; 123088]?;
    let mut out = [0u8; 512];
    run_whys(&rt, &input, &mut words, &mut out)
}

fn run_whys(rt: &impl Print, inputs: &[u8], words: &mut [u32], out: &mut [u8]) -> io::Result<()> {
    let mut at = 0;
    let mut number: usize = 0;
    while at + 12 <= inputs.len() {
        let badge = at + 12;
        let floor = field_end(inputs, badge, at);
        let chip = field_end(inputs, floor, at + 4);
        let to = field_end(inputs, chip, at + 8);
        number += 1;
        run_one(
            rt,
            number,
            &inputs[badge..floor],
            &inputs[floor..chip],
            &inputs[chip..to],
            words,
            out,
        )?;
        at = to;
    }
    Ok(())
}

fn run_one(
    rt: &impl Print,
    number: usize,
    badge: &[u8],
    floor: &[u8],
    chip: &[u8],
    words: &mut [u32],
    out: &mut [u8],
) -> io::Result<()> {
    let told = tell_why(badge, floor, chip, words, out);
    title_line(rt, number, told.stream)?;
    rt.write_all(&out[..told.length])
}

fn title_line(rt: &impl Print, number: usize, stream: Stream) -> io::Result<()> {
    let name = match stream {
        Stream::Output => "out",
        Stream::Error => "err",
    };
    println!(rt; "why {number} {name}")
}
