//! A line that was refused, as it stands in its file.

use script_text::cut_line;

/// A line of a file, and what an editor may have left in it that nobody sees.
#[derive(Clone, Copy)]
pub struct RefusedLine<'a> {
    /// The line, without its line feed.
    pub text: &'a [u8],
    /// It ends with a carriage return, as lines written on Windows do.
    pub has_carriage_return: bool,
    /// It is the file's first line and begins with a byte-order mark.
    pub has_byte_order_mark: bool,
}

/// The line of this number, counted from 1, of what a file holds; behind the last line feed stands one more line.
pub fn refused_line(file: &[u8], number: u32) -> RefusedLine<'_> {
    let mut text = file;
    let mut rest = file;
    for _ in 0..number {
        match cut_line(rest) {
            Some((line, behind)) => {
                text = line;
                rest = behind;
            }
            None => {
                text = rest;
                rest = &[];
            }
        }
    }
    RefusedLine {
        text,
        has_carriage_return: text.ends_with(b"\r"),
        has_byte_order_mark: number == 1 && text.starts_with(b"\xEF\xBB\xBF"),
    }
}
