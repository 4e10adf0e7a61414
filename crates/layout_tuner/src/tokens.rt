//! What a user has of a page between two calls. A token is handed to the next call on what it is
//! about: it can't be dropped. Pages and places count from 0.
ghost use Rattle.std.specs.Prelude.{◌≡◌, ◌+◌, ◌≤◌, ◌↔◌, IfSome, IfNone, OnSome, IsNone};

use thiserror::Error;

/// A chunk that a user claimed and hasn't begun.
#[derive(Debug)]
pub struct TuneClaimed {
    pub page: u8,
    pub place: u8,
}

/// A chunk that a user holds.
#[derive(Debug)]
pub struct TuneHeld {
    pub page: u8,
    pub place: u8,
}

/// The chunks of a page that its user partitioned anew, which has claimed them all. The first ones of
/// them were handed out.
#[derive(Debug)]
pub struct TunePage {
    pub page: u8,
    pub handed: u8,
    pub chunks: u8,
    ghost most: { handed ≤ chunks },
}

impl TunePage {
    /// The next chunk of the page.
    pub fn next(&mut self) -> Option<TuneClaimed>
        ensures page { self.new.page ≡ self.old.page }
        ensures chunks { self.new.chunks ≡ self.old.chunks }
        ensures none { IsNone result ↔ (self.old.handed ≡ self.old.chunks) }
        ensures last { IfNone result (self.new.handed ≡ self.old.handed) }
        ensures chunk { IfSome result (λ claimed. (claimed.page ≡ self.old.page) × (claimed.place ≡ self.old.handed)) }
        ensures handed { OnSome result (self.new.handed ≡ self.old.handed + 1) }
    {
        if self.handed == self.chunks {
            return None;
        }
        let place = self.handed;
        self.handed += 1;
        Some(TuneClaimed {
            page: self.page,
            place,
        })
    }

    /// Spends the token, whose chunks were all handed out.
    pub fn done(self)
        requires { self.handed ≡ self.chunks }
    {
        let TunePage {
            page: _,
            handed: _,
            chunks: _,
        } = self;
    }
}

/// Why a page wasn't partitioned anew. What this call had claimed is given back.
#[derive(Clone, Copy, Debug, PartialEq, Eq, Error)]
pub enum TuneFault {
    /// A chunk of the page was claimed, as this word of the page says.
    #[error("the page is busy")]
    Busy { word: u64 },
    /// The page was partitioned so often that its word can't count once more.
    #[error("the page is worn")]
    Worn,
}
