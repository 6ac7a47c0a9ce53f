// Lines of a text, each ended by byte 10, and the decimal numbers in them.
#![tactic(auto)]

ghost use Rattle.std.specs.Prelude.{◌≤◌, ◌≡◌, length, drop};
ghost use Rattle.lines.specs.Lines.{Endless, begins};
ghost use Rattle.lines.specs.Number.{is_digit, number_from, numeral, number_in, value};
ghost use Rattle.lines.specs.Told.{ReadAs, LineEnds, NumeralAs};

// Reads the line at a place: this name, and behind it a number below 2^32 in decimal without leading zeros. The place of the next line comes with it.
pub fn read_value(input: &[u8], at: usize, name: &[u8]) -> Option<(u32, usize)>
    requires at_in_bounds { at ≤ length input.now }
    requires endless { Endless name.now }
    ensures { ReadAs input.now at (length name.now) (value name.now) result }
{
    if !begins(input, at, name) {
        return None;
    }
    read_number(input, at + name.len())
}

// Whether the input has these bytes at a place.
pub fn begins(input: &[u8], at: usize, bytes: &[u8]) -> bool
    requires { at ≤ length input.now }
    ensures { result ≡ begins bytes.now (drop at input.now) }
{
    input[at..].starts_with(bytes)
}

// The number that a line is, and the place of the next line.
fn read_number(input: &[u8], at: usize) -> Option<(u32, usize)>
    requires { at ≤ length input.now }
    ensures { ReadAs input.now at 0 number_in result }
{
    let end = line_end(input, at)?;
    let number = read_numeral(&input[at..end])?;
    Some((number, end + 1))
}

// The place of the byte 10 that ends the line at a place.
pub fn line_end(input: &[u8], at: usize) -> Option<usize>
    requires { at ≤ length input.now }
    ensures { LineEnds input.now at result }
{
    let length = input[at..].iter().position(|byte| *byte == b'\n')?;
    Some(at + length)
}

// Reads bytes as a number below 2^32 in decimal: a zero stands alone, and any other number does not begin with one.
pub fn read_numeral(bytes: &[u8]) -> Option<u32>
    ensures { NumeralAs (numeral bytes.now) result }
{
    match bytes {
        [] | [b'0', _, ..] => None,
        _ => read_digits(bytes),
    }
}

// The number that digits make.
fn read_digits(bytes: &[u8]) -> Option<u32>
    ensures { NumeralAs (number_from 0 bytes.now) result }
{
    let mut n: u32 = 0;
    for byte in bytes {
        if !is_digit(*byte) {
            return None;
        }
        n = n.checked_mul(10)?.checked_add(u32::from(*byte - b'0'))?;
    }
    Some(n)
}

fn is_digit(byte: u8) -> bool
    ensures { result ≡ is_digit byte }
{
    48 <= byte && byte <= 57
}
