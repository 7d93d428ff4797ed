ghost use Rattle.std.specs.Prelude.{◌≡◌, ◌-◌, ◌<◌, ◌≤◌, ◌^◌, length};
ghost use Rattle.lp_text.specs.Places.{place_in};

/// Where a byte stands in a text: both numbers count from 1, the column in bytes.
#[derive(Clone, Copy, Debug)]
pub struct Place {
    /// The line, from 1.
    pub line: u32,
    /// The column in bytes, from 1.
    pub column: u32,
}

impl Place {
    /// The place of the byte at an index of a text, or of its end. Takes time in proportion to the index.
    pub fn of(text: &[u8], index: usize) -> Place
        requires within { index ≤ length text.now }
        requires small { length text.now < 2 ^ 32 - 1 }
        ensures { result ≡ place_in text.now index }
    {
        let mut line = 1;
        let mut column = 1;
        for byte in &text[..index] {
            if *byte == b'\n' {
                line += 1;
                column = 1;
            } else {
                column += 1;
            }
        }
        Place { line, column }
    }
}
