//! Laws of session files: the bytes of a file, and what stands under the name of its image, decide the answer. They compute nothing: each
//! is the contract of a function without result. The clauses `files` speak of the files of a shelf, and the clauses `contents` of any
//! function that gives the content under a name, or none.
ghost use Rattle.std.specs.Prelude.{◌≡◌, ◌⊎◌, ℕ, List, Option, Some};
ghost use Rattle.mill_base.specs.declared.limits.TheConstants.{MAX_FILE_BYTES};
ghost use Rattle.mill_io.specs.Files.{File};
ghost use Rattle.mill_io.specs.Reads.{HoldsMore};
ghost use Rattle.session_rules.specs.declared.fault.SessionFault.{SessionFault};
ghost use Rattle.session_file.specs.Readings.{HeldIn};
ghost use Rattle.session_file.specs.Sessions.{Breaks, Denotes, Wants};
ghost use Rattle.session_file.specs.declared.session.Session.{Session};

/// The bytes of a session file denote no two sessions.
pub fn a_file_denotes_one_session()
    ensures files { (files : List File) (bytes : List ℕ) (one other : Session)
        → Denotes (HeldIn (Some files)) bytes one → Denotes (HeldIn (Some files)) bytes other → one ≡ other }
    ensures contents { (content_under : List ℕ → Option (List ℕ)) (bytes : List ℕ) (one other : Session)
        → Denotes (λ name content. content_under name ≡ Some content) bytes one
        → Denotes (λ name content. content_under name ≡ Some content) bytes other → one ≡ other }
{
    tiff_palette::laws::every_file_is_one_image_or_has_a_fault();
}

/// Bytes that denote a session break no rule.
pub fn what_denotes_a_session_breaks_no_rule()
    ensures files { (files : List File) (bytes : List ℕ) (session : Session) (broken : SessionFault)
        → Denotes (HeldIn (Some files)) bytes session → Breaks (HeldIn (Some files)) bytes broken → ⊥ }
    ensures contents { (content_under : List ℕ → Option (List ℕ)) (bytes : List ℕ) (session : Session) (broken : SessionFault)
        → Denotes (λ name content. content_under name ≡ Some content) bytes session
        → Breaks (λ name content. content_under name ≡ Some content) bytes broken → ⊥ }
{
    tiff_palette::laws::every_file_is_one_image_or_has_a_fault();
}

/// Of the bytes of a session file no two rules are the first that is broken.
pub fn one_first_fault()
    ensures files { (files : List File) (bytes : List ℕ) (one other : SessionFault)
        → Breaks (HeldIn (Some files)) bytes one → Breaks (HeldIn (Some files)) bytes other → one ≡ other }
    ensures contents { (content_under : List ℕ → Option (List ℕ)) (bytes : List ℕ) (one other : SessionFault)
        → Breaks (λ name content. content_under name ≡ Some content) bytes one
        → Breaks (λ name content. content_under name ≡ Some content) bytes other → one ≡ other }
{
    tiff_palette::laws::every_file_is_one_image_or_has_a_fault();
}

/// Bytes denote a session or break a rule, where the file of the image that they name, if they name one, has a content.
pub fn bytes_are_a_session_or_break_a_rule()
    ensures files { (files : Option (List File)) (bytes : List ℕ)
        → ((name : List ℕ) → Wants bytes name → (content : List ℕ) × HeldIn files name content)
        → ((session : Session) × Denotes (HeldIn files) bytes session) ⊎ ((broken : SessionFault) × Breaks (HeldIn files) bytes broken) }
    ensures contents { (content_under : List ℕ → Option (List ℕ)) (bytes : List ℕ)
        → ((name : List ℕ) → Wants bytes name → (content : List ℕ) × (content_under name ≡ Some content))
        → ((session : Session) × Denotes (λ name content. content_under name ≡ Some content) bytes session)
        ⊎ ((broken : SessionFault) × Breaks (λ name content. content_under name ≡ Some content) bytes broken) }
{
    tiff_palette::laws::every_file_is_one_image_or_has_a_fault();
}

/// Where bytes name the file of an image, they denote a session or break a rule only if that file has a content. They name no two files.
pub fn a_session_has_its_image()
    ensures files { (files : Option (List File)) (bytes name : List ℕ) (session : Session)
        → Denotes (HeldIn files) bytes session → Wants bytes name → (content : List ℕ) × HeldIn files name content }
    ensures contents { (content_under : List ℕ → Option (List ℕ)) (bytes name : List ℕ) (session : Session)
        → Denotes (λ name content. content_under name ≡ Some content) bytes session → Wants bytes name
        → (content : List ℕ) × (content_under name ≡ Some content) }
    ensures broken { (files : Option (List File)) (bytes name : List ℕ) (broken : SessionFault)
        → Breaks (HeldIn files) bytes broken → Wants bytes name → (content : List ℕ) × HeldIn files name content }
    ensures named { (bytes one other : List ℕ) → Wants bytes one → Wants bytes other → one ≡ other }
{}

/// Of all files only that of the image which the bytes name is looked at, so bytes that name none have one answer beside any files.
pub fn no_file_but_the_image_decides()
    ensures session { (files others : Option (List File)) (bytes : List ℕ) (session : Session)
        → ((name content : List ℕ) → Wants bytes name → HeldIn files name content → HeldIn others name content)
        → Denotes (HeldIn files) bytes session → Denotes (HeldIn others) bytes session }
    ensures broken { (files others : Option (List File)) (bytes : List ℕ) (broken : SessionFault)
        → ((name content : List ℕ) → Wants bytes name → HeldIn files name content → HeldIn others name content)
        → Breaks (HeldIn files) bytes broken → Breaks (HeldIn others) bytes broken }
{}

/// A shelf that tells its files has no two contents under one name.
pub fn a_shelf_holds_one_content()
    ensures { (files : List File) (name one other : List ℕ) → HeldIn (Some files) name one → HeldIn (Some files) name other → one ≡ other }
{}

/// A file that a shelf tells of is not both short enough to be read and too long.
pub fn a_file_is_not_both_read_and_too_long()
    ensures { (files : List File) (name content : List ℕ)
        → HeldIn (Some files) name content → HoldsMore (Some files) name MAX_FILE_BYTES → ⊥ }
{}
