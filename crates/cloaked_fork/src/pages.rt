//! What is asked for the pages of whole resources.
ghost use Rattle.std.specs.Prelude.{◌≡◌, ◌<◌, ℕ, All, false, true, slice_index_or};
ghost use Rattle.cloak_model.specs.Asking.{Follows};
ghost use Rattle.cloak_model.specs.Fork as spec;
ghost use Rattle.what_stays.specs.Staying.{SideStays, IsAny};
ghost use Rattle.cloaked_fork.specs.Marks.{marked_numbers, AreCleared};
ghost use Rattle.cloak_model.specs.Script.{played};

use cloak_model::PageSide;

/// Makes the copies of resources, one after another: each from the first number of a pair to the second.
pub fn copy_all<M: PageSide>(domain: u32, copies: &[(u32, u32)], m: &mut M)
    requires domain { domain ≡ M.serves m.old }
    requires to { All (λ copy. copy.1 < 16) copies.now }
    requires unused { All (λ copy. M.is_unused m.old copy.1) copies.now }
    requires cleared { All (λ copy. M.is_cleared m.old copy.0) copies.now }
    ensures follows { Follows M.stands_for m.old m.new tt (played (spec.copy_each domain copies.now)) }
    ensures side { SideStays M.PageSide IsAny m.old m.new }
{
    for copy in copies {
        m.copy(domain, copy.0, copy.1);
    }
}

/// Drops the pages of the marked resources, by rising number.
pub fn forget_all<M: PageSide>(domain: u32, marked: &[bool; 16], m: &mut M)
    requires domain { domain ≡ M.serves m.old }
    requires cleared { AreCleared (M.is_cleared m.old) marked.now }
    ensures follows { Follows M.stands_for m.old m.new tt (played (spec.forget_each domain (marked_numbers marked.now))) }
    ensures side { SideStays M.PageSide IsAny m.old m.new }
    ensures dropped { (n : ℕ) → slice_index_or marked.now n false ≡ true → M.is_unused m.new n }
{
    for n in 0..16 {
        if marked[n as usize] {
            m.forget(domain, n);
        }
    }
}
