//! A configuration.
ghost use Rattle.std.specs.Prelude.{◌≡◌, List, IfOk};

use std::alloc::{AllocError, Global};
use std::marker::Model;
use trace_base::policy::FullPolicy;

/// A name. Contracts see the list of its bytes.
#[derive(Debug, Drop)]
pub struct Name {
    bytes: Vec<u8>,
}

impl Model for Name {
    ghost use Rattle.std.specs.Prelude.{ℕ, List};

    ghost Value = { List ℕ };

    ghost view = { λ name. name.bytes.items };
}

impl Name {
    /// A copy of these bytes.
    pub fn new(alloc: Global, bytes: &[u8]) -> Result<Name, AllocError>
        ensures { IfOk result (λ name. name ≡ bytes.now) }
    {
        let bytes = Vec::from_slice(alloc, bytes)?;
        Ok(Name { bytes })
    }

    pub fn as_bytes(&self) -> &[u8]
        ensures { result.now ≡ self.now }
    {
        &self.bytes
    }
}

/// A buffer of so many times 1,024 bytes, and what it does when it is full.
#[derive(Clone, Copy, Debug, PartialEq, Eq)]
pub struct ConfigBuffer {
    pub size_kb: u32,
    pub policy: FullPolicy,
}

/// A producer, with its shared memory and the size of its pages, each in units of 1,024 bytes.
#[derive(Debug, Drop)]
pub struct ConfigProducer {
    pub name: Name,
    pub shm_size_kb: u32,
    pub page_size_kb: u32,
}

/// A data source. Its target counts buffers from 0, and its producer counts from 1.
#[derive(Debug, Drop)]
pub struct ConfigSource {
    pub name: Name,
    pub target_buffer: u8,
    pub producer: u16,
}

/// What a configuration text says.
#[derive(Debug, Drop)]
pub struct Config {
    pub buffers: Vec<ConfigBuffer>,
    pub producers: Vec<ConfigProducer>,
    pub sources: Vec<ConfigSource>,
}
