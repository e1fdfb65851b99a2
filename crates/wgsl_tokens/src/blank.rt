// Blankspace and comments between tokens.
ghost use Rattle.std.specs.Prelude.{◌≤◌, ◌<◌, ◌+◌, length, IfSome};

// The length of the line break that begins here, in bytes, or 0.
fn break_length(text: &[u8], at: usize) -> usize
    requires { at ≤ length text.now }
    ensures { at + result ≤ length text.now }
{
    match &text[at..] {
        [0x0a..=0x0d, ..] => 1,
        [0xc2, 0x85, ..] => 2,
        [0xe2, 0x80, 0xa8 | 0xa9, ..] => 3,
        _ => 0,
    }
}

// The length of the blankspace character that begins here, in bytes, or 0.
fn blank_length(text: &[u8], at: usize) -> usize
    requires { at ≤ length text.now }
    ensures { at + result ≤ length text.now }
{
    match &text[at..] {
        [0x09 | 0x20, ..] => 1,
        [0xe2, 0x80, 0x8e | 0x8f, ..] => 3,
        _ => break_length(text, at),
    }
}

// The end of the current line.
fn line_end(text: &[u8], start: usize) -> usize
    requires { start ≤ length text.now }
    ensures more { start ≤ result }
    ensures within { result ≤ length text.now }
{
    for at in start..text.len() {
        if break_length(text, at) != 0 {
            return at;
        }
    }
    text.len()
}

// The end of the block comment that begins here, unless it is unterminated. Block comments nest.
fn comment_end(text: &[u8], start: usize) -> Option<usize>
    requires { start + 2 ≤ length text.now }
    ensures { IfSome result (λ end. (start < end) × (end ≤ length text.now)) }
{
    let mut depth: usize = 1;
    let mut last = start + 2;
    for at in start + 2..text.len() {
        if at < last {
            continue;
        }
        match &text[at..] {
            [b'*', b'/', ..] if depth == 1 => return Some(at + 2),
            [b'*', b'/', ..] => {
                depth = depth.saturating_sub(1);
                last = at + 2;
            }
            [b'/', b'*', ..] => {
                depth = depth.saturating_add(1);
                last = at + 2;
            }
            _ => {}
        }
    }
    None
}

// The byte after the comment that begins here, or this byte if there is none.
fn after_comment(text: &[u8], at: usize) -> usize
    requires { at ≤ length text.now }
    ensures more { at ≤ result }
    ensures within { result ≤ length text.now }
{
    match &text[at..] {
        [b'/', b'/', ..] => line_end(text, at),
        [b'/', b'*', ..] => comment_end(text, at).unwrap_or(at),
        _ => at,
    }
}

// The first byte of the next token.
pub(crate) fn after_blank(text: &[u8], start: usize) -> usize
    requires { start ≤ length text.now }
    ensures more { start ≤ result }
    ensures within { result ≤ length text.now }
{
    let mut at = start;
    while at < text.len() {
        let blank = blank_length(text, at);
        let next = if blank > 0 {
            at + blank
        } else {
            after_comment(text, at)
        };
        if next == at {
            break;
        }
        at = next;
    }
    at
}
