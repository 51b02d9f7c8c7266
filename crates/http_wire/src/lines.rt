//! The lines of a head, whole or not.

ghost use Rattle.std.specs.Prelude.{◌≡◌, ◌==◌, ◌<◌, true, false, length, position, MatchOption};
ghost use Rattle.http_wire.specs.Head.{after_empty_lines, has_line_end, without_return, first_line, has_version, is_bad, is_many};

/// How many line ends are too many.
const TOO_MANY_LINES: usize = 67;

/// The bytes from the first line on that isn't empty.
pub fn skip_empty_lines(bytes: &[u8]) -> &[u8]
    ensures { result.now ≡ after_empty_lines bytes.now }
{
    let mut left = bytes;
    'lines: while let Some(rest) = after_empty_line(left) {
        left = rest;
    }
    left
}

/// Whether the first line is whole and doesn't end as a request's does.
pub fn is_bad(lines: &[u8]) -> bool
    ensures { result ≡ is_bad lines.now }
{
    match first_line(lines) {
        Some(line) => !(line.ends_with(b" HTTP/1.0") || line.ends_with(b" HTTP/1.1")),
        None => false,
    }
}

/// Whether more lines end than in a head of 64 fields.
pub fn has_too_many_lines(lines: &[u8]) -> bool
    ensures { result ≡ is_many lines.now }
{
    lines.iter().filter(|b| **b == b'\n').count() >= TOO_MANY_LINES
}

/// What follows an empty line at the front, where there is one.
fn after_empty_line(bytes: &[u8]) -> Option<&[u8]>
    ensures { MatchOption result
        (after_empty_lines bytes.now ≡ bytes.now)
        (λ rest. (after_empty_lines bytes.now ≡ after_empty_lines rest.now)
        × (length rest.now < length bytes.now)) }
{
    if bytes.is_empty() {
        return None;
    }
    if bytes[0] == b'\n' {
        return Some(&bytes[1..]);
    }
    if bytes.len() > 1 && bytes[0] == b'\r' && bytes[1] == b'\n' {
        return Some(&bytes[2..]);
    }
    None
}

/// The first line without its end, where it is whole.
fn first_line(lines: &[u8]) -> Option<&[u8]>
    ensures { MatchOption result
        (has_line_end lines.now ≡ false)
        (λ line. (has_line_end lines.now ≡ true) × (line.now ≡ first_line lines.now)) }
{
    let place = line_end(lines)?;
    Some(trimmed(&lines[..place]))
}

/// Where the first line ends.
fn line_end(lines: &[u8]) -> Option<usize>
    ensures { result ≡ position (λ b. b == 10) lines.now }
{
    lines.iter().position(|b| *b == b'\n')
}

/// A line without one 0x0D at its end.
fn trimmed(line: &[u8]) -> &[u8]
    ensures { result.now ≡ without_return line.now }
{
    match line {
        [front @ .., b'\r'] => front,
        _ => line,
    }
}
