// The tool for the service desk: tells why a badge may call a floor or not, from a chip's bytes on standard input.
#![tactic(auto)]

ghost use Rattle.std.specs.Prelude.{◌≤◌, ◌≡◌, length, vec_capacity, vec_len, IfOk};

use std::alloc::{AllocError, Global};
use std::env::Env;
use std::io;
use std::io::Read;
use why_text::{Stream, tell_why};

// One byte more than a chip may have.
const CHIP_ROOM: usize = 492353;

fn main(rt: HostRuntime) -> io::Result<()> {
    let mut badge_room = [0u8; 16];
    let badge = argument(&rt, 1, &mut badge_room);
    let mut floor_room = [0u8; 16];
    let floor = argument(&rt, 2, &mut floor_room);
    let mut chip = chip_room(rt.alloc())?;
    rt.stdin().take(CHIP_ROOM as u64).read_to_end(&mut chip)?;
    let mut words = word_room();
    let mut out = [0u8; 512];
    let told = tell_why(badge, floor, &chip, &mut words, &mut out);
    let text = &out[..told.length];
    match told.stream {
        Stream::Output => rt.stdout().write_all(text),
        Stream::Error => rt.stderr().write_all(text),
    }
}

// An argument, which is put into the buffer: no bytes where there is none, or it is longer than the buffer.
fn argument<'a>(rt: &impl Env, number: usize, room: &'a mut [u8]) -> &'a [u8]
    ensures { length result.now ≤ length room.old }
{
    let n = rt.arg(number, room).unwrap_or(0);
    &room[..n]
}

// Room for a chip and one byte more, with no byte in it yet.
fn chip_room(alloc: Global) -> Result<Vec<u8>, AllocError>
    ensures { IfOk result (λ v. (492353 ≤ vec_capacity v) × (vec_len v ≡ 0)) }
{
    Vec::with_capacity(alloc, CHIP_ROOM)
}

fn word_room() -> [u32; 123088] {
    [0; 123088]
}
