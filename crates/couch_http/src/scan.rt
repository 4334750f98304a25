/// What has come of a line.
#[derive(Clone, Copy, Debug, PartialEq, Eq)]
pub enum Line {
    /// Nothing.
    Empty,
    /// A carriage return alone.
    Return,
    /// More than that.
    Text,
}

/// How far the search for the end of a head has come.
#[derive(Clone, Copy, Debug)]
pub struct Scan {
    /// How many lines that aren't empty have ended.
    pub lines: usize,
    pub line: Line,
}

/// A head that is whole.
#[derive(Clone, Copy, Debug)]
pub struct WholeHead {
    /// How many lines it has that aren't empty.
    pub lines: usize,
    /// Where it ends.
    pub len: usize,
}

/// What a search for the end of a head finds.
#[derive(Clone, Copy, Debug)]
pub enum Scanned {
    Within(Scan),
    Complete(WholeHead),
}

impl Line {
    ghost use Rattle.std.specs.Prelude.{◌≡◌};
    ghost use Rattle.couch_http.specs.Head.{is_empty_so_far, line_with};

    /// Tells whether the line would be empty if it ended here.
    fn is_empty_so_far(self) -> bool
        ensures { result ≡ is_empty_so_far self }
    {
        match self {
            Line::Empty | Line::Return => true,
            Line::Text => false,
        }
    }

    /// Returns the line with one more byte. A line feed begins the next.
    fn with(self, byte: u8) -> Line
        ensures { result ≡ line_with self byte }
    {
        match self {
            _ if byte == b'\n' => Line::Empty,
            Line::Empty if byte == b'\r' => Line::Return,
            _ => Line::Text,
        }
    }
}

impl Scan {
    ghost use Rattle.std.specs.Prelude.{◌≡◌, ◌+◌, ◌^◌, ◌<◌, ◌≤◌, length};
    ghost use Rattle.couch_http.specs.Head.{scan_from, ends_head, lines_with, line_with};
    ghost use Rattle.couch_http.specs.Scanning.{scan_found, IsScanOf};
    ghost use Rattle.couch_http.specs.declared.scan.Line.TheVariants.{Empty};

    /// Begins at the front of a stream.
    pub fn start() -> Scan
        ensures lines { result.lines ≡ 0 }
        ensures line { result.line ≡ Empty }
    {
        Scan {
            lines: 0,
            line: Line::Empty,
        }
    }

    /// Tells whether a head ends with this byte.
    fn ends_with(self, byte: u8) -> bool
        ensures { result ≡ ends_head self.lines self.line byte }
    {
        byte == b'\n' && self.line.is_empty_so_far() && self.lines > 0
    }

    /// Returns the search with one more byte, which ends no head.
    fn after(self, byte: u8) -> Scan
        requires { self.lines + 1 < 2 ^ 64 }
        ensures lines { result.lines ≡ lines_with self.lines self.line byte }
        ensures line { result.line ≡ line_with self.line byte }
    {
        let ends_text = byte == b'\n' && !self.line.is_empty_so_far();
        Scan {
            lines: if ends_text {
                self.lines + 1
            } else {
                self.lines
            },
            line: self.line.with(byte),
        }
    }

    /// Searches on in the bytes that come next.
    pub fn run(self, bytes: &[u8]) -> Scanned
        requires { self.lines + length bytes.now < 2 ^ 64 }
        ensures found { scan_found bytes.now result ≡ scan_from self.lines self.line bytes.now }
        ensures within { IsScanOf self.lines bytes.now result }
    {
        let mut scan = self;
        for (i, byte) in bytes.iter().enumerate() {
            if scan.ends_with(*byte) {
                return Scanned::Complete(WholeHead {
                    lines: scan.lines,
                    len: i + 1,
                });
            }
            scan = scan.after(*byte);
        }
        Scanned::Within(scan)
    }
}
