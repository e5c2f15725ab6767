//! Where the head of a request ends, and how long its body is (RFC 9112, 2.1, 2.2 and 6.2).
//!
//! This says which bytes a run is given at a time, and when it waits. The server judges each request by itself: one that it
//! does not refuse, and after whose answer the connection goes on, has its head and its body as they are found here.

// The field's name, and the colon after it.
const NAME: &[u8] = b"content-length:";

// What has come of a line.
#[derive(Clone, Copy)]
enum Line {
    // Nothing, nor of the lines before it: these are blank.
    Blank,
    // The same, and a CR.
    BlankReturn,
    // Nothing, after a line that has bytes.
    Empty,
    // The same, and a CR.
    Return,
    // So many bytes of the field's name.
    Name(usize),
    // The name, and after it the digits of this number.
    Length(u64),
    // Anything else.
    Other,
}

/// What has come of a head.
#[derive(Clone, Copy)]
pub struct Head {
    line: Line,
    length: u64,
}

/// What a byte makes of it.
#[derive(Clone, Copy)]
pub enum Reach {
    /// It goes on.
    Open(Head),
    /// It is whole, and its body has this length.
    Whole(u64),
}

// The line that has so many bytes of the name, and then this byte.
fn named(count: usize, byte: u8) -> Line {
    if NAME.get(count).copied() != Some(byte.to_ascii_lowercase()) {
        Line::Other
    } else if count.saturating_add(1) == NAME.len() {
        Line::Length(0)
    } else {
        Line::Name(count.saturating_add(1))
    }
}

// The number with one digit more.
fn with_digit(number: u64, byte: u8) -> u64 {
    number
        .saturating_mul(10)
        .saturating_add(u64::from(byte.saturating_sub(b'0')))
}

impl Head {
    /// Nothing yet.
    pub fn new() -> Head {
        Head {
            line: Line::Blank,
            length: 0,
        }
    }

    // The same at another line.
    fn at(self, line: Line) -> Reach {
        Reach::Open(Head {
            line,
            length: self.length,
        })
    }

    /// Whether this byte makes nothing else of it: one inside a line that says no length.
    pub fn passes(self, byte: u8) -> bool {
        matches!(self.line, Line::Other) && byte != b'\n'
    }

    /// What this byte makes of it.
    pub fn with(self, byte: u8) -> Reach {
        match (self.line, byte) {
            (Line::Blank | Line::BlankReturn, b'\n') => self.at(Line::Blank),
            (Line::Blank, b'\r') => self.at(Line::BlankReturn),
            (Line::Blank | Line::BlankReturn, _) => self.at(Line::Other),
            (Line::Empty | Line::Return, b'\n') => Reach::Whole(self.length),
            (Line::Empty, b'\r') => self.at(Line::Return),
            (Line::Length(length), b'\n') => Reach::Open(Head {
                line: Line::Empty,
                length,
            }),
            (_, b'\n') => self.at(Line::Empty),
            (Line::Empty, _) => self.at(named(0, byte)),
            (Line::Name(count), _) => self.at(named(count, byte)),
            (Line::Length(number), b'0'..=b'9') => self.at(Line::Length(with_digit(number, byte))),
            (Line::Length(number), _) => self.at(Line::Length(number)),
            (Line::Return | Line::Other, _) => self.at(Line::Other),
        }
    }
}
