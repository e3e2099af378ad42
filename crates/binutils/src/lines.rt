// One line of the input: a word in eight hexadecimal digits, a space, and what binutils prints for the word.
use hex::FromHex;

// What a line says.
#[derive(Clone, Copy)]
pub(crate) struct Line<'a> {
    pub(crate) word: u32,
    pub(crate) text: &'a [u8],
}

// Reads a line, without its end; none where it is not in this form. The text has one byte at least.
pub(crate) fn read(line: &[u8]) -> Option<Line<'_>> {
    let digits = line.get(..8)?;
    let text = line.get(8..)?.strip_prefix(b" ")?;
    if text.is_empty() {
        return None;
    }
    let bytes = <[u8; 4] as FromHex>::from_hex(digits).ok()?;
    Some(Line {
        word: u32::from_be_bytes(bytes),
        text,
    })
}
