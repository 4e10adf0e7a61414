//! What is kept of a block while the text is read: names are parts of the text, and the entries of
//! all filters stand behind one another in one list, of which a source has a part.

use trace_base::numeral::Numeral;
use trace_base::policy::FullPolicy;

/// What the fields of a buffer have said.
#[derive(Clone, Copy)]
pub(crate) struct BufferSaid {
    pub size_kb: Option<Numeral>,
    pub policy: FullPolicy,
}

#[derive(Clone, Copy)]
pub(crate) struct KeptProducer<'t> {
    pub name: &'t [u8],
    pub shm_size_kb: Numeral,
    pub page_size_kb: Numeral,
}

#[derive(Clone, Copy)]
pub(crate) struct KeptSource<'t> {
    pub name: &'t [u8],
    pub target: Numeral,
    /// Where its entries begin in the list of all.
    pub from: usize,
    pub to: usize,
}

#[derive(Clone, Copy)]
pub(crate) enum KeptWhat<'t> {
    Buffer(BufferSaid),
    Producer(KeptProducer<'t>),
    Source(KeptSource<'t>),
}

/// A block: the line of its name, and whether each field of the table in it has its kind.
#[derive(Clone, Copy)]
pub(crate) struct KeptBlock<'t> {
    pub line: u32,
    pub fits: bool,
    pub what: KeptWhat<'t>,
}

/// Where the next field stands: at the top, in a block, or in the `config` of one.
#[derive(Clone, Copy)]
pub(crate) enum KeptLevel<'t> {
    Top,
    Block(KeptBlock<'t>),
    Config(KeptBlock<'t>),
}
