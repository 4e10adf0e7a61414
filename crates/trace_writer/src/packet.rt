//! How long the packet is that is begun, and which of its messages are open: what the refusals of
//! field calls rest on, whether the packet is written or thrown away.
ghost use Rattle.std.specs.Prelude.{◌≡◌, ℕ, ◌+◌, ◌-◌, ◌<◌, ◌≤◌, [], ◌∷◌, ◌++◌, length, Some, None, IfOk, MatchResult};
ghost use Rattle.trace_base.specs.declared.limits.TheConstants.{MAX_PACKET_LEN, MAX_OPEN_HOLES};
ghost use Rattle.trace_writer.specs.Refusals.{field_refusal, nested_refusal};

use crate::fault::CallFault;
use arrayvec::ArrayVec;
use trace_base::limits::{MAX_OPEN_HOLES, MAX_PACKET_LEN};
use trace_base::reserved::is_reserved;

/// The bytes of a nested length.
const LENGTH_SIZE: u32 = 4;

/// A packet that is begun.
#[derive(Debug, Drop)]
pub(crate) struct OpenPacket {
    /// The length of its encoding so far.
    pub len: u32,
    /// The length behind each open nested length, the innermost last.
    pub starts: ArrayVec<u32, MAX_OPEN_HOLES>,
    ghost most: { len ≤ MAX_PACKET_LEN },
}

impl OpenPacket {
    pub fn new() -> OpenPacket
        ensures len { result.len ≡ 0 }
        ensures starts { result.starts.items ≡ [] }
    {
        OpenPacket {
            len: 0,
            starts: ArrayVec::new(),
        }
    }

    /// Open nested messages.
    pub fn depth(&self) -> usize
        ensures depth { result ≡ length self.now.starts.items }
        ensures most { result ≤ MAX_OPEN_HOLES }
    {
        self.starts.len()
    }

    /// Whether a field of so many bytes may come next.
    #[inline(always)]
    pub fn check_field(&self, field: u32, more: u64) -> Result<(), CallFault>
        ensures { MatchResult result (λ _. field_refusal (length self.now.starts.items) self.now.len field more
            ≡ None) (λ fault. field_refusal (length self.now.starts.items) self.now.len field more ≡ Some fault) }
    {
        if self.starts.is_empty() && is_reserved(field) {
            return Err(CallFault::Reserved { field });
        }
        if more > u64::from(MAX_PACKET_LEN - self.len) {
            return Err(CallFault::PacketTooLong);
        }
        Ok(())
    }

    /// Whether a nested message may be begun next, whose tag has so many bytes.
    #[inline(always)]
    pub fn check_nested(&self, field: u32, tag_len: u32) -> Result<(), CallFault>
        requires { tag_len ≤ 10 }
        ensures refusal { MatchResult result (λ _. nested_refusal (length self.now.starts.items) self.now.len field tag_len
            ≡ None) (λ fault. nested_refusal (length self.now.starts.items) self.now.len field tag_len ≡ Some fault) }
        ensures shallow { IfOk result (λ _. length self.now.starts.items < MAX_OPEN_HOLES) }
    {
        if self.starts.is_empty() && is_reserved(field) {
            return Err(CallFault::Reserved { field });
        }
        if self.starts.len() == MAX_OPEN_HOLES {
            return Err(CallFault::TooDeep);
        }
        if tag_len + LENGTH_SIZE > MAX_PACKET_LEN - self.len {
            return Err(CallFault::PacketTooLong);
        }
        Ok(())
    }

    /// Adds a field of so many bytes.
    pub fn add_field(&mut self, more: u64)
        requires { self.old.len + more ≤ MAX_PACKET_LEN }
        ensures len { self.new.len ≡ self.old.len + more }
        ensures starts { self.new.starts.items ≡ self.old.starts.items }
    {
        self.len += more as u32;
    }

    /// Begins a nested message, whose tag has so many bytes.
    pub fn add_nested(&mut self, tag_len: u32)
        requires len { self.old.len + (tag_len + 4) ≤ MAX_PACKET_LEN }
        requires depth { length self.old.starts.items < MAX_OPEN_HOLES }
        ensures len { self.new.len ≡ self.old.len + (tag_len + 4) }
        ensures starts { self.new.starts.items ≡ self.old.starts.items ++ self.new.len ∷ [] }
    {
        self.len += tag_len + LENGTH_SIZE;
        self.starts.push(self.len);
    }

    /// Ends the innermost message, and answers its length.
    pub fn end_nested(&mut self) -> u32
        requires some { 0 < length self.old.starts.items }
        requires within { (start : ℕ) (outer : _) → self.old.starts.items ≡ outer ++ start ∷ [] → start ≤ self.old.len }
        ensures len { self.new.len ≡ self.old.len }
        ensures starts { (start : ℕ) (outer : _) → self.old.starts.items ≡ outer ++ start ∷ [] → (self.new.starts.items ≡ outer)
            × (result ≡ self.old.len - start) }
    {
        let Some(start) = self.starts.pop() else {
            unreachable!()
        };
        self.len - start
    }
}
