//! What a frame or a block has.
ghost use Rattle.std.specs.Prelude.{◌≡◌, option_map};
ghost use Rattle.run_notes.specs.Sights as spec;
ghost use Rattle.run_notes.specs.Sights.{held};

use cloak_base::PageId;

/// What the kernel sees in a frame or a block.
#[derive(Clone, Copy, Debug, PartialEq, Eq)]
pub enum Look {
    Zeros,
    /// Memory that is not cloaked.
    Open,
    Cipher,
    /// Ciphertext that no page takes any more.
    Old,
    /// Ciphertext into which was stored.
    Altered,
    /// Ciphertext into which was stored, and that no page would take any more.
    OldAltered,
    /// In use by its program, as it was last shown.
    Used,
    /// In use by its program, and newer than what was last shown.
    Changed,
    /// The items of its program do not fit.
    Lost,
}

/// A ciphertext: what the kernel was shown of a page for the time of this number.
#[derive(Clone, Copy, Debug, PartialEq, Eq)]
pub struct CipherId {
    pub page: PageId,
    pub number: u32,
}

/// What is known of a frame or a block.
#[derive(Clone, Copy, Debug, PartialEq, Eq)]
pub struct Sight {
    pub look: Look,
    /// The page of what is there; of ciphertext, the one that it was made of.
    pub page: Option<PageId>,
    /// The number of the ciphertext that is there, or of which the page in use has the bytes; of a changed page, how often it
    /// was shown; 0 if there is none.
    pub number: u32,
}

impl Sight {
    /// Nothing of a page.
    pub fn bare(look: Look) -> Sight
        ensures { result ≡ spec.bare look }
    {
        Sight {
            look,
            page: None,
            number: 0,
        }
    }

    /// This ciphertext; one that is not known, if there is none.
    pub fn cipher(id: Option<CipherId>) -> Sight
        ensures { result ≡ spec.cipher id }
    {
        match id {
            Some(id) => Sight {
                look: Look::Cipher,
                page: Some(id.page),
                number: id.number,
            },
            None => Sight::bare(Look::Cipher),
        }
    }

    /// A page in use that has the bytes of a ciphertext.
    pub fn used(page: PageId, takes: Option<CipherId>) -> Sight {
        Sight {
            look: Look::Used,
            page: Some(page),
            number: match takes {
                Some(id) if id.page == page => id.number,
                _ => 0,
            },
        }
    }

    /// A page in use that is newer than all that was shown of it, and how often that was.
    pub fn changed(page: PageId, shown: u32) -> Sight
        ensures { result ≡ spec.changed page shown }
    {
        Sight {
            look: Look::Changed,
            page: Some(page),
            number: shown,
        }
    }

    /// The same once something was stored there in the open.
    pub fn stored(self) -> Sight
        ensures { result ≡ spec.stored self }
    {
        match self.look {
            Look::Zeros => Sight::bare(Look::Open),
            Look::Cipher => Sight {
                look: Look::Altered,
                ..self
            },
            Look::Old => Sight {
                look: Look::OldAltered,
                ..self
            },
            _ => self,
        }
    }

    /// The same once no page takes what is there.
    pub fn aged(self) -> Sight
        ensures { result ≡ spec.aged self }
    {
        match self.look {
            Look::Cipher => Sight {
                look: Look::Old,
                ..self
            },
            Look::Altered => Sight {
                look: Look::OldAltered,
                ..self
            },
            _ => self,
        }
    }

    /// The page that is in use there, if it is newer than what was shown of it.
    pub fn held(&self) -> Option<PageId>
        ensures { result ≡ held self.now }
    {
        match self.look {
            Look::Changed => self.page,
            _ => None,
        }
    }

    /// It is ciphertext, as it was made or changed since.
    pub fn is_cipher(&self) -> bool
        ensures { result ≡ spec.is_cipher self.now.look }
    {
        matches!(
            self.look,
            Look::Cipher | Look::Old | Look::Altered | Look::OldAltered
        )
    }

    /// It is ciphertext as it was made.
    pub fn is_whole_cipher(&self) -> bool
        ensures { result ≡ spec.is_whole_cipher self.now.look }
    {
        matches!(self.look, Look::Cipher | Look::Old)
    }

    /// The ciphertext that is there, if it is known.
    pub fn cipher_id(&self) -> Option<CipherId> {
        let page = self.page?;
        if self.is_cipher() {
            Some(CipherId {
                page,
                number: self.number,
            })
        } else {
            None
        }
    }

    /// The program whose page is there.
    pub fn domain(&self) -> Option<u32>
        ensures { result ≡ option_map (λ page. page.domain) self.now.page }
    {
        match self.page {
            Some(page) => Some(page.domain),
            None => None,
        }
    }
}
