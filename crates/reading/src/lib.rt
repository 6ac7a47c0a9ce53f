// A sheet read and judged: its geometry, and its requests one after another.
#![tactic(auto)]

ghost use Rattle.std.specs.Prelude.{◌≤◌, ◌<◌, length};
ghost use Rattle.lines.specs.Lines.{Endless};
ghost use Rattle.lines.specs.Told.{ReadAs};
ghost use Rattle.reading.specs.Sheet.{ranged};
ghost use Rattle.reading.specs.Told.{OperationAs, NamedAs, GroupAs, RequestsAs, GeometryAs, Judges};

use geometry::{Geometry, MOST_HEAD, MOST_LEVELS, MOST_RATIO};
use lines::{line_end, read_value};
use slot::{Pair, Rid};

// The most bytes of a sheet, and the most words of its store.
pub const MOST_BYTES: usize = 16384;

pub const MOST_WORDS: u32 = 4096;

// The line of each operation.
const PUT: &[u8] = b"op=put";

const DROP: &[u8] = b"op=drop";

const ASK: &[u8] = b"op=ask";

// The most bytes of such a line, its byte 10 included: a line's end is sought in no more, however long the line is.
const MOST_OPERATION: usize = 8;

// What a request wants done.
#[derive(Clone, Copy, PartialEq, Eq)]
pub enum Operation {
    Put,
    Drop,
    Ask,
}

#[derive(Clone, Copy)]
pub struct Request {
    pub operation: Operation,
    pub pair: Pair,
}

// The first three lines of a sheet, and the place of the first request.
#[derive(Clone, Copy)]
pub struct Heading {
    pub geometry: Geometry,
    pub next: usize,
}

// A request, and the place behind its group of lines.
#[derive(Clone, Copy)]
pub struct Group {
    pub request: Request,
    pub next: usize,
}

// Judges every line of a sheet; the error is the number of the first faulty line.
pub fn judge(input: &[u8]) -> Result<Heading, u32>
    ensures { Judges input.now result }
{
    if MOST_BYTES < input.len() {
        return Err(0);
    }
    let heading = read_geometry(input)?;
    judge_requests(input, heading.next)?;
    Ok(heading)
}

// The first three lines, judged with the store's length.
fn read_geometry(input: &[u8]) -> Result<Heading, u32>
    ensures { GeometryAs input.now result }
{
    let (head, ratio_at) = read_ranged(input, 0, b"head=", 1, MOST_HEAD).ok_or(1u32)?;
    let (ratio, levels_at) = read_ranged(input, ratio_at, b"ratio=", 2, MOST_RATIO).ok_or(2u32)?;
    let (levels, next) = read_ranged(input, levels_at, b"levels=", 2, MOST_LEVELS).ok_or(3u32)?;
    let geometry = Geometry {
        head,
        ratio,
        levels,
    };
    let plan = geometry::plan_for(geometry);
    if MOST_WORDS < plan.store_words {
        return Err(3);
    }
    Ok(Heading { geometry, next })
}

// Judges the requests from a place on, the first of which stands in line 4.
fn judge_requests(input: &[u8], from: usize) -> Result<(), u32>
    requires { (from ≤ length input.now) × (length input.now ≤ 16384) }
    ensures { RequestsAs input.now from result }
{
    let mut at = from;
    let mut line = 4;
    while at < input.len() {
        match read_group(input, at) {
            Ok(group) => at = group.next,
            Err(behind) => return Err(line + behind),
        }
        line += 3;
    }
    Ok(())
}

// Reads the group of lines at a place; the error is how many of them stand before the faulty one.
pub fn read_group(input: &[u8], at: usize) -> Result<Group, u32>
    requires { at < length input.now }
    ensures { GroupAs input.now at result }
{
    let (operation, badge_at) = read_operation(input, at).ok_or(0u32)?;
    let (badge, floor_at) = read_value(input, badge_at, b"badge=").ok_or(1u32)?;
    let (floor, next) = read_value(input, floor_at, b"floor=").ok_or(2u32)?;
    let pair = Pair {
        badge,
        floor: Rid(floor),
    };
    let request = Request { operation, pair };
    Ok(Group { request, next })
}

// The operation that a line names, and the place of the next line.
fn read_operation(input: &[u8], at: usize) -> Option<(Operation, usize)>
    requires { at ≤ length input.now }
    ensures { NamedAs input.now at result }
{
    let near = &input[..(at + MOST_OPERATION).min(input.len())];
    let end = line_end(near, at)?;
    let operation = operation_named(&input[at..end])?;
    Some((operation, end + 1))
}

// The operation that the bytes of a line name.
fn operation_named(line: &[u8]) -> Option<Operation>
    ensures { OperationAs line.now result }
{
    if line == PUT {
        Some(Operation::Put)
    } else if line == DROP {
        Some(Operation::Drop)
    } else if line == ASK {
        Some(Operation::Ask)
    } else {
        None
    }
}

// Reads a line like `read_value`; a number outside the range is a fault.
fn read_ranged(input: &[u8], at: usize, name: &[u8], least: u32, most: u32) -> Option<(u32, usize)>
    requires at_in_bounds { at ≤ length input.now }
    requires endless { Endless name.now }
    ensures { ReadAs input.now at (length name.now) (ranged least most name.now) result }
{
    let (n, next) = read_value(input, at, name)?;
    (least..=most).contains(&n).then_some((n, next))
}
