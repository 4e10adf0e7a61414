//! Where the reading of a text stands, and what it does at a byte.

/// Where the reading stands. `field` is the number of the field that is being read.
#[derive(Clone, Copy, Debug, PartialEq, Eq)]
pub(crate) enum Mode {
    /// A field has to begin here, or may: right behind a brace the message may end too.
    Start { opened: bool },
    /// In the number of a field.
    Field { field: u32 },
    /// Behind the colon.
    Value { field: u32 },
    /// Behind a value that begins with 0.
    Zero { field: u32 },
    /// In a value that begins with another digit.
    Digits { field: u32, value: u64 },
    /// In a quoted text.
    Text { field: u32 },
    /// Behind the quote that ends a text.
    Quoted { field: u32 },
    /// Behind the star.
    Star { field: u32 },
    /// In the number of repetitions.
    Times { field: u32, times: u32 },
    /// Behind the `x`.
    Tick { field: u32 },
    /// Between pairs of hexadecimal digits.
    Pairs { field: u32 },
    /// Behind the first digit of a pair.
    Half { field: u32, high: u8 },
    /// Behind the tick that ends the pairs.
    Packed { field: u32 },
    /// Behind a field that has ended.
    After,
}

/// What is done at a byte.
#[derive(Clone, Copy, Debug, PartialEq, Eq)]
pub(crate) enum Action {
    /// The text begins no fields with this byte.
    Refuse,
    /// The reading goes on in this mode.
    Go(Mode),
    /// The byte joins the text that is being read.
    Keep(Mode, u8),
    /// A nested message of this field begins.
    Open(u32),
    /// The innermost message ends.
    Close,
}
