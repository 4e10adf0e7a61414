//! The nodes of a tree of fields.
ghost use Rattle.std.specs.Prelude.{◌≡◌};

/// A field, or the end of a nested message.
#[derive(Clone, Copy, Debug, PartialEq, Eq)]
pub enum FieldNode {
    Number { field: u32, value: u64 },
    /// A text, so many times over.
    Bytes { field: u32, times: u32 },
    /// The fields of a nested message follow, up to the `End` that belongs to it.
    Begin { field: u32 },
    End,
}
