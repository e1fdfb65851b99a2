// The next value of a JSON text, token by token.
ghost use Rattle.std.specs.Prelude.{◌≡◌, ◌≤◌, length};

// The state of a scan in a value.
#[derive(Clone, Copy, PartialEq, Eq)]
enum Mode {
    // Outside strings.
    Plain,
    // In a string.
    Quoted,
    // In a string, after a backslash.
    Escaped,
}

// The role of the next byte for a value.
enum Step {
    // A part of it.
    Inside,
    // Its last byte.
    Last,
    // The first one after it.
    After,
}

// The progress of reading a value.
#[derive(Clone, Copy)]
struct Scan {
    mode: Mode,
    // The number of open arrays and objects.
    depth: usize,
}

fn is_space(byte: u8) -> bool {
    matches!(byte, b' ' | b'\t' | b'\n' | b'\r')
}

impl Scan {
    // Scans a byte in a string.
    fn take_quoted(&mut self, byte: u8) -> Step {
        match byte {
            b'\\' => self.mode = Mode::Escaped,
            b'"' => {
                self.mode = Mode::Plain;
                if self.depth == 0 {
                    return Step::Last;
                }
            }
            _ => {}
        }
        Step::Inside
    }

    // Scans a closing bracket.
    fn close(&mut self) -> Step {
        match self.depth {
            0 => Step::After,
            1 => Step::Last,
            _ => {
                self.depth -= 1;
                Step::Inside
            }
        }
    }

    // Scans a byte outside strings.
    fn take_plain(&mut self, byte: u8) -> Step {
        match byte {
            b'"' => self.mode = Mode::Quoted,
            b'[' | b'{' => self.depth = self.depth.saturating_add(1),
            b']' | b'}' => return self.close(),
            b',' | b':' | b' ' | b'\t' | b'\n' | b'\r' if self.depth == 0 => return Step::After,
            _ => {}
        }
        Step::Inside
    }

    // Scans the next byte.
    fn take(&mut self, byte: u8) -> Step {
        match self.mode {
            Mode::Plain => self.take_plain(byte),
            Mode::Quoted => self.take_quoted(byte),
            Mode::Escaped => {
                self.mode = Mode::Quoted;
                Step::Inside
            }
        }
    }
}

/// The first byte from this one on that is not whitespace, or the end.
pub(crate) fn after_space(text: &[u8], from: usize) -> usize
    requires { from ≤ length text.now }
    ensures least { from ≤ result }
    ensures within { result ≤ length text.now }
{
    for at in from..text.len() {
        if !is_space(text[at]) {
            return at;
        }
    }
    text.len()
}

/// The end of the value that begins at this byte. If there is no value, it is an arbitrary byte.
pub(crate) fn after_value(text: &[u8], from: usize) -> usize
    requires { from ≤ length text.now }
    ensures least { from ≤ result }
    ensures within { result ≤ length text.now }
{
    let mut scan = Scan {
        mode: Mode::Plain,
        depth: 0,
    };
    for at in from..text.len() {
        match scan.take(text[at]) {
            Step::Inside => {}
            Step::Last => return at + 1,
            Step::After => return at,
        }
    }
    text.len()
}
