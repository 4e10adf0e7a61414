//! What a reader hands out, and why it stops.

/// The bytes of a word, or of a text in quotes without these.
#[derive(Clone, Copy, Debug)]
pub enum TextValue<'a> {
    Word(&'a [u8]),
    Quoted(&'a [u8]),
}

/// A field with a value, or the beginning or the end of a block. A line is that of the field's name.
#[derive(Clone, Copy, Debug)]
pub enum TextItem<'a> {
    Single {
        line: u32,
        name: &'a [u8],
        value: TextValue<'a>,
    },
    Begin {
        line: u32,
        name: &'a [u8],
    },
    End,
}

/// The text is of this form no more at this line, counted from 1.
#[derive(Clone, Copy, Debug, PartialEq, Eq)]
pub struct BadText {
    pub line: u32,
}
