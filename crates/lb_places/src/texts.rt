//! A text that is explained.

/// A text and the name of its file.
#[derive(Drop)]
pub struct Text<'a> {
    /// The path of the file, or `-` for standard input.
    pub name: &'a str,
    pub bytes: &'a [u8],
    /// The number of lines of the file before the text. In a part of a file of traces these are
    /// the lines that the part leaves out behind the header.
    pub lines_before: u64,
    /// The number of records that a part of a file of traces leaves out behind the header.
    pub records_before: u64,
}
