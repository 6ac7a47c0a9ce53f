// The calls of a sheet, made one by one on a lent store and work area, and what they have come to so far.
#![tactic(auto)]

ghost use Rattle.std.specs.Prelude.{◌*◌, ◌≤◌, ◌≡◌, replicate};
ghost use Rattle.geometry.specs.Geometry.{InRange};
ghost use Rattle.geometry.specs.Places.{store_words};
ghost use Rattle.call_ask.specs.Ask.{ask_reply};
ghost use Rattle.call_put.specs.Edit.{edited_reply};
ghost use Rattle.sheet_calls.specs.Calls.{held_number, made};
ghost use Rattle.sheet_calls.specs.Stepping.{only_told, Changing, Counted, Calling};
ghost use Rattle.sheet_calls.specs.First.{Begun};

use call_ask::Refusal;
use call_put::Changed;
use geometry::Geometry;
use reading::{Operation, Request};
use walk::Found;

// What the calls made so far come to: the number that the last one told, the pages that all of them wrote, and the index entries in each level.
#[derive(Clone, Copy)]
pub struct Progress {
    pub told: u64,
    pub pages: u64,
    pub entries: [u32; 4],
}

// Formats the store for the first call.
pub fn begin(store: &mut [u32], g: Geometry) -> Progress
    requires in_range { InRange g }
    requires store_value { store.old ≡ replicate (store_words g) 0 }
    ensures { Begun g store.new result }
{
    let _ = index::format(store, g);
    Progress {
        told: 0,
        pages: 0,
        entries: [0; 4],
    }
}

// Makes the call that a request asks for.
pub fn make_call(
    store: &mut [u32],
    work: &mut [u32],
    request: Request,
    progress: Progress,
) -> Progress
    requires counted { Counted progress store.old }
    requires pages_bound { progress.pages ≤ 4294967296 * 16384 }
    ensures { Calling (made request store.old work.old) store.old progress store.new work.new result }
{
    match request.operation {
        Operation::Put => after_change(index::put(store, work, request.pair), progress),
        Operation::Drop => after_change(index::drop(store, work, request.pair), progress),
        Operation::Ask => only_told(held_number(index::ask(store, request.pair)), progress),
    }
}

// The progress after a put or drop: an accepted one adds its pages and tells the counts anew, and a refused one only tells its number.
fn after_change(changed: Changed, progress: Progress) -> Progress
    requires { progress.pages ≤ 4294967296 * 16384 }
    ensures { Changing (edited_reply changed.answer changed.entries) changed.entries progress result }
{
    let entries = changed.entries;
    match changed.answer {
        Ok(done) => Progress {
            told: 0,
            pages: progress.pages + u64::from(done.pages),
            entries,
        },
        Err(_) => only_told(u64::from(index::edit_reply(changed).number), progress),
    }
}

// The progress after a call that changed nothing.
fn only_told(number: u64, progress: Progress) -> Progress
    ensures { result ≡ only_told number progress }
{
    Progress {
        told: number,
        ..progress
    }
}

// 1 if the pair is held, 0 if not.
fn held_number(answer: Result<Found, Refusal>) -> u64
    ensures { (result ≡ held_number (ask_reply answer)) × (result ≤ 1) }
{
    match answer {
        Ok(found) => u64::from(found.held),
        Err(_) => 0,
    }
}
