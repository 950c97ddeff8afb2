//! Reading a session.
ghost use Rattle.std.specs.Prelude.{◌≡◌, ◌<◌, ◌≤◌, List, ℕ, length, IfOk, IfErr};
ghost use Rattle.mill_base.specs.declared.limits.TheConstants.{MAX_COLOURS};
ghost use Rattle.point_paper.specs.Papers.{paper_by};
ghost use Rattle.session_file.specs.Plans.{Fits};
ghost use Rattle.session_file.specs.Readings.{HeldIn, IsRefusal, IsRefusalOf, name_after, reads_after};
ghost use Rattle.session_file.specs.Sessions.{Denotes, Opens, Says};
ghost use Rattle.session_file.specs.inner.Drafts.{FitsNumbers, FitsValues};
ghost use Rattle.session_file.specs.inner.Images.{HasColours};
ghost use Rattle.session_file.specs.inner.Files.{IsUnread, TellsDocument, TellsOpening};

use crate::assembly::make_session;
use crate::document::read_draft;
use crate::draft::{Opening, SessionDraft};
use crate::image::read_paper;
use crate::session::Session;
use mill_base::limits::MAX_FILE_BYTES;
use mill_base::memory::OutOfMemory;
use mill_base::name_text::NameText;
use mill_base::size::Size;
use mill_io::shelf::{Shelf, ShelfRefusal};
use point_paper::laws::the_paper_of_a_formula_has_its_cells;
use point_paper::paper::Paper;
use session_rules::fault::{SessionFaultKind, SessionRefusal};
use session_rules::path::Path;
use std::alloc::Global;

impl Session {
    /// Reads the session file of that name, and the image that it names as its opening paper. A refusal tells the first rule that a file
    /// breaks, with the path of the value that breaks it, or which file could not be read or has more than
    /// [`MAX_FILE_BYTES`](mill_base::limits::MAX_FILE_BYTES) bytes. The rules are this project's own.
    #[tactic(auto, using(crate::proofs::Readings::file_refused, crate::proofs::Readings::bytes_refused, crate::proofs::Readings::bytes_denote))]
    pub fn read<H: Shelf>(
        alloc: Global,
        shelf: &mut H,
        name: &str,
    ) -> Result<Session, SessionRefusal>
        ensures files { H.files shelf.new ≡ H.files shelf.old }
        ensures writes { H.write_faults shelf.new ≡ H.write_faults shelf.old }
        ensures reads { H.read_faults shelf.new ≡ reads_after (H.read_faults shelf.old) result }
        ensures later { H.read_faults shelf.old ≤ H.read_faults shelf.new }
        ensures failed { H.failed_name shelf.new ≡ name_after (H.failed_name shelf.old) result }
        ensures session { IfOk result (λ session. (bytes : List ℕ) × HeldIn (H.files shelf.old) name.now bytes × Denotes (HeldIn (H.files shelf.old)) bytes session) }
        ensures fits { IfOk result Fits }
        ensures refusal { IfErr result (IsRefusal (H.files shelf.old) name.now) }
    {
        let bytes = read_file(alloc, shelf, name)?;
        Session::of_bytes(alloc, &bytes, shelf)
    }

    /// The session that the bytes of a session file denote, with the image that they name read from the shelf; a refusal as by `read`.
    #[tactic(auto, using(crate::proofs::Readings::document_refused, crate::proofs::Readings::document_reads, crate::proofs::Readings::document_name, crate::proofs::Readings::opening_refused, crate::proofs::Readings::denoted))]
    pub fn of_bytes<H: Shelf>(
        alloc: Global,
        bytes: &[u8],
        shelf: &mut H,
    ) -> Result<Session, SessionRefusal>
        ensures files { H.files shelf.new ≡ H.files shelf.old }
        ensures writes { H.write_faults shelf.new ≡ H.write_faults shelf.old }
        ensures reads { H.read_faults shelf.new ≡ reads_after (H.read_faults shelf.old) result }
        ensures later { H.read_faults shelf.old ≤ H.read_faults shelf.new }
        ensures failed { H.failed_name shelf.new ≡ name_after (H.failed_name shelf.old) result }
        ensures session { IfOk result (Denotes (HeldIn (H.files shelf.old)) bytes.now) }
        ensures fits { IfOk result Fits }
        ensures refusal { IfErr result (IsRefusalOf (H.files shelf.old) bytes.now) }
    {
        let draft = read_document(alloc, bytes)?;
        let opening = open_paper(alloc, shelf, &draft)?;
        let session = make_session(alloc, draft, opening)?;
        Ok(session)
    }
}

// The content of a file. The name that a refusal tells is copied first, so that out of memory for it is told before a fault.
fn read_file<H: Shelf>(alloc: Global, shelf: &mut H, name: &str) -> Result<Vec<u8>, SessionRefusal>
    ensures files { H.files shelf.new ≡ H.files shelf.old }
    ensures writes { H.write_faults shelf.new ≡ H.write_faults shelf.old }
    ensures reads { H.read_faults shelf.new ≡ reads_after (H.read_faults shelf.old) result }
    ensures later { H.read_faults shelf.old ≤ H.read_faults shelf.new }
    ensures failed { H.failed_name shelf.new ≡ name_after (H.failed_name shelf.old) result }
    ensures content { IfOk result (λ bytes. HeldIn (H.files shelf.old) name.now bytes.items) }
    ensures refusal { IfErr result (IsUnread (H.files shelf.old) name.now) }
{
    let copied = NameText::of(alloc, name)?;
    match shelf.read(alloc, name, MAX_FILE_BYTES) {
        Ok(bytes) => Ok(bytes),
        Err(ShelfRefusal::Failed) => Err(SessionRefusal::ReadFault(copied)),
        Err(ShelfRefusal::TooLong) => Err(SessionRefusal::TooLong(copied)),
        Err(ShelfRefusal::OutOfMemory) => Err(SessionRefusal::OutOfMemory),
    }
}

// What the bytes of a session file say.
#[tactic(auto, unfolding(session_rules::specs::Paths::path_of))]
fn read_document(alloc: Global, bytes: &[u8]) -> Result<SessionDraft, SessionRefusal>
    ensures draft { IfOk result (Says bytes.now) }
    ensures values { IfOk result FitsValues }
    ensures numbers { IfOk result FitsNumbers }
    ensures refusal { IfErr result (TellsDocument bytes.now) }
{
    match toml::table_from_slice(alloc, bytes) {
        Ok(table) => read_draft(alloc, &Path::Top, &table),
        Err(error) => {
            if error.is_memory() {
                return Err(SessionRefusal::OutOfMemory);
            }
            Err(Path::Top.refusal(alloc, SessionFaultKind::NotToml))
        }
    }
}

// The opening paper: of one colour, or from the file of an image.
fn open_paper<H: Shelf>(
    alloc: Global,
    shelf: &mut H,
    draft: &SessionDraft,
) -> Result<Paper, SessionRefusal>
    requires { FitsValues draft.now }
    ensures files { H.files shelf.new ≡ H.files shelf.old }
    ensures writes { H.write_faults shelf.new ≡ H.write_faults shelf.old }
    ensures reads { H.read_faults shelf.new ≡ reads_after (H.read_faults shelf.old) result }
    ensures later { H.read_faults shelf.old ≤ H.read_faults shelf.new }
    ensures failed { H.failed_name shelf.new ≡ name_after (H.failed_name shelf.old) result }
    ensures paper { IfOk result (Opens (HeldIn (H.files shelf.old)) draft.now draft.now.opening) }
    ensures sized { IfOk result (λ paper. (paper.columns ≡ draft.now.design.size.columns) × (paper.picks ≡ draft.now.design.size.picks)) }
    ensures colours { IfOk result (HasColours draft.now.design.size (length draft.now.colours)) }
    ensures refusal { IfErr result (TellsOpening (H.files shelf.old) draft.now draft.now.opening) }
{
    let size = draft.design.size;
    let colours = draft.colours.len() as u32;
    match &draft.opening {
        Opening::Plain(colour) => {
            let paper = plain_paper(alloc, size, colours, *colour)?;
            Ok(paper)
        }
        Opening::Image(name) => {
            let bytes = read_file(alloc, shelf, name.as_str())?;
            read_paper(alloc, &bytes, size, colours)
        }
    }
}

pub(crate) fn plain_paper(
    alloc: Global,
    size: Size,
    colours: u32,
    colour: u32,
) -> Result<Paper, OutOfMemory>
    requires colour { colour < colours }
    requires few { colours ≤ MAX_COLOURS }
    ensures paper { IfOk result (λ paper. paper ≡ paper_by size.columns size.picks (λ column pick. colour)) }
    ensures colours { IfOk result (HasColours size colours) }
{
    the_paper_of_a_formula_has_its_cells();
    Paper::blank(alloc, size, colour as u8)
}
