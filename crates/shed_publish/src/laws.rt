//! Laws of published lists. They compute nothing: each is the contract of a function without result.
ghost use Rattle.std.specs.Prelude.{◌≡◌, ◌+◌, ◌≤◌, ℕ, List, [], ◌∷◌, ◌++◌, length, drop, slice_get, Some};
ghost use Rattle.shed_publish.specs.Ends.{EndsWith};
ghost use Rattle.shed_publish.specs.Versions.{IsPrefix, IsPublished};
ghost use Rattle.shed_publish.specs.declared.newest.Version.{Version};

/// Entry k of a published list has version k, and any two entries have cards of one design.
pub fn entries_are_numbered_and_alike()
    ensures version { (list : List Version) (k : ℕ) (v : Version) → IsPublished list → slice_get list k ≡ Some v
        → v.version ≡ k }
    ensures design { (list : List Version) (j k : ℕ) (u v : Version) → IsPublished list → slice_get list j ≡ Some u
        → slice_get list k ≡ Some v → u.cards.design ≡ v.cards.design }
{}

/// The last entry of a published list has the last version, and stands in the list at the place of that number.
pub fn the_last_entry_has_the_last_version()
    ensures version { (list : List Version) (v : Version) → IsPublished list → EndsWith list v
        → v.version + 1 ≡ length list }
    ensures entry { (list : List Version) (v : Version) → IsPublished list → EndsWith list v
        → slice_get list v.version ≡ Some v }
{}

/// A longer list has the entries of what it begins with, at the same places. Two lists that begin with one list and are
/// the same behind it are one list.
pub fn entries_stay_where_a_list_grows()
    ensures entry { (shorter longer : List Version) (k : ℕ) (v : Version) → IsPrefix shorter longer
        → slice_get shorter k ≡ Some v → slice_get longer k ≡ Some v }
    ensures length { (shorter longer : List Version) → IsPrefix shorter longer → length shorter ≤ length longer }
    ensures same { (known one other : List Version) → IsPrefix known one → IsPrefix known other
        → drop (length known) one ≡ drop (length known) other → one ≡ other }
{}

/// What a published list begins with is published.
pub fn a_prefix_is_published()
    ensures { (shorter longer : List Version) → IsPublished longer → IsPrefix shorter longer → IsPublished shorter }
{}

/// A list of one entry of version 0 is published; and a published list with one entry more, where that has the next
/// number and cards of the design of entry 0.
pub fn the_next_entry_goes_on()
    ensures first { (v : Version) → v.version ≡ 0 → IsPublished (v ∷ []) }
    ensures next { (list : List Version) (first next : Version) → IsPublished list → slice_get list 0 ≡ Some first
        → next.version ≡ length list → next.cards.design ≡ first.cards.design → IsPublished (list ++ next ∷ []) }
{}
