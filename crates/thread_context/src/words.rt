//! Words of cloaked pages, which contexts reserve.
ghost use Rattle.std.specs.Prelude.{◌≡◌};
ghost use Rattle.cloak_model.specs.Contexts as spec;

use cloak_base::PageId;
use cloak_model::PageWord;

/// The word in which an address of a page lies.
#[inline]
pub fn word_of_page(q: PageId, va: u32) -> PageWord
    ensures { result ≡ spec.word_of_page q va }
{
    PageWord {
        resource: q.resource,
        page: q.page,
        at: va % 4096 / 4 * 4,
    }
}

/// This word is the reserved one.
#[inline]
pub fn is_reserved(word: PageWord, mark: Option<PageWord>) -> bool
    ensures { result ≡ spec.is_reserved word mark }
{
    match mark {
        None => false,
        Some(mark) => {
            mark.resource == word.resource && mark.page == word.page && mark.at == word.at
        }
    }
}
