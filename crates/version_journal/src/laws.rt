//! Laws of replies and versions, for every design, every paper and every list of acts. They compute nothing: each is the contract of a
//! function without result.
ghost use Rattle.std.specs.Prelude.{◌≡◌, ◌+◌, ◌<◌, ◌≤◌, ℕ, false, true, List, [], ◌∷◌, ◌++◌, length, take, count_by, slice_get, Some, None, is_some, All};
ghost use Rattle.point_paper.specs.Papers.{PaperCells};
ghost use Rattle.point_paper.specs.declared.paper.Span.{Span};
ghost use Rattle.mill_base.specs.declared.size.Size.{Size};
ghost use Rattle.strokes.specs.Paints.{after};
ghost use Rattle.strokes.specs.Places.{HasColour};
ghost use Rattle.strokes.specs.Spans.{AreSpansOf};
ghost use Rattle.strokes.specs.declared.act.Act.{Act};
ghost use Rattle.strokes.specs.declared.motifs.NamedMotif.{NamedMotif};
ghost use Rattle.draft_model.specs.Designs.{Fits, IsPaperOf};
ghost use Rattle.draft_model.specs.Drawdowns.{bound};
ghost use Rattle.draft_model.specs.Floats.{keeps};
ghost use Rattle.draft_model.specs.declared.design.Design.{Design};
ghost use Rattle.draft_model.specs.declared.float_run.FloatRun.{FloatRun};
ghost use Rattle.version_journal.specs.Entries.{is_accepted};
ghost use Rattle.version_journal.specs.Journals.{ActWithMotif, HasColours, IsActOf, float_kept, gone_on, history, is_commit, paper_after, replies, step, versions, with_motif};
ghost use Rattle.version_journal.specs.declared.entry.Reply.TheVariants.{Painted, Accepted, Refused};

/// The acts of two lists, one list after the other, are those of the first and then those of the second from where the first has come
/// to; one act more is one step more. What was replied stays, and so does each version.
pub fn acts_go_on_from_where_others_ended()
    ensures joined { (design : Design) (opening : PaperCells) (one other : List ActWithMotif)
        → history design opening (one ++ other) ≡ gone_on design (history design opening one) other }
    ensures one_more { (design : Design) (opening : PaperCells) (acts : List ActWithMotif) (act : ActWithMotif)
        → history design opening (acts ++ act ∷ []) ≡ step design (history design opening acts) act }
    ensures replies { (design : Design) (opening : PaperCells) (one other : List ActWithMotif)
        → take (length one) (replies design opening (one ++ other)) ≡ replies design opening one }
    ensures versions { (design : Design) (opening : PaperCells) (one other : List ActWithMotif)
        → take (length (versions design opening one)) (versions design opening (one ++ other)) ≡ versions design opening one }
{}

/// A paint is replied to with `Painted`, changes the paper by what it paints, and makes no version.
pub fn a_paint_changes_the_paper()
    ensures reply { (design : Design) (opening : PaperCells) (acts : List ActWithMotif) (act : ActWithMotif) → is_commit act.act ≡ false
        → replies design opening (acts ++ act ∷ []) ≡ replies design opening acts ++ Painted ∷ [] }
    ensures paper { (design : Design) (opening : PaperCells) (acts : List ActWithMotif) (act : ActWithMotif) → is_commit act.act ≡ false
        → paper_after design opening (acts ++ act ∷ []) ≡ after act.motif (paper_after design opening acts) act.act }
    ensures versions { (design : Design) (opening : PaperCells) (acts : List ActWithMotif) (act : ActWithMotif) → is_commit act.act ≡ false
        → versions design opening (acts ++ act ∷ []) ≡ versions design opening acts }
{}

/// A commit where the bound paper keeps no float is accepted with the number of the versions before it, and the paper as it is becomes
/// the next version.
pub fn a_commit_without_a_float_is_accepted()
    ensures reply { (design : Design) (opening : PaperCells) (acts : List ActWithMotif) (act : ActWithMotif) → is_commit act.act ≡ true
        → float_kept design (paper_after design opening acts) ≡ None
        → replies design opening (acts ++ act ∷ []) ≡ replies design opening acts ++ Accepted (length (versions design opening acts)) ∷ [] }
    ensures paper { (design : Design) (opening : PaperCells) (acts : List ActWithMotif) (act : ActWithMotif) → is_commit act.act ≡ true
        → paper_after design opening (acts ++ act ∷ []) ≡ paper_after design opening acts }
    ensures versions { (design : Design) (opening : PaperCells) (acts : List ActWithMotif) (act : ActWithMotif) → is_commit act.act ≡ true
        → float_kept design (paper_after design opening acts) ≡ None
        → versions design opening (acts ++ act ∷ []) ≡ versions design opening acts ++ paper_after design opening acts ∷ [] }
{}

/// A commit where the bound paper keeps a float is refused with the first one, and makes no version.
pub fn a_commit_with_a_float_is_refused()
    ensures reply { (design : Design) (opening : PaperCells) (acts : List ActWithMotif) (act : ActWithMotif) (float : FloatRun) → is_commit act.act ≡ true
        → float_kept design (paper_after design opening acts) ≡ Some float
        → replies design opening (acts ++ act ∷ []) ≡ replies design opening acts ++ Refused float ∷ [] }
    ensures paper { (design : Design) (opening : PaperCells) (acts : List ActWithMotif) (act : ActWithMotif) → is_commit act.act ≡ true
        → paper_after design opening (acts ++ act ∷ []) ≡ paper_after design opening acts }
    ensures versions { (design : Design) (opening : PaperCells) (acts : List ActWithMotif) (act : ActWithMotif) (float : FloatRun) → is_commit act.act ≡ true
        → float_kept design (paper_after design opening acts) ≡ Some float
        → versions design opening (acts ++ act ∷ []) ≡ versions design opening acts }
{}

/// The float that refuses a commit is there exactly where the cloth of the bound paper keeps one over its limit.
pub fn a_commit_is_refused_where_a_float_is_kept()
    ensures { (design : Design) (paper : PaperCells) → Fits design → IsPaperOf design paper → is_some (float_kept design paper) ≡ keeps design (bound design paper) }
{
    draft_model::laws::a_cloth_keeps_a_float_where_one_is_told();
}

/// Each act has one reply.
pub fn each_act_has_a_reply()
    ensures { (design : Design) (opening : PaperCells) (acts : List ActWithMotif) → length (replies design opening acts) ≡ length acts }
{}

/// There is one version more than there are accepted commits: the opening paper.
pub fn each_accepted_commit_makes_a_version()
    ensures { (design : Design) (opening : PaperCells) (acts : List ActWithMotif)
        → length (versions design opening acts) ≡ count_by is_accepted (replies design opening acts) + 1 }
{}

/// Version 0 is the opening paper. The bound paper of every later version keeps no float over its limit.
pub fn versions_keep_no_float()
    ensures opening { (design : Design) (opening : PaperCells) (acts : List ActWithMotif) → slice_get (versions design opening acts) 0 ≡ Some opening }
    ensures later { (design : Design) (opening : PaperCells) (acts : List ActWithMotif) (k : ℕ) (version : PaperCells) → Fits design → IsPaperOf design opening
        → 0 < k → slice_get (versions design opening acts) k ≡ Some version → keeps design (bound design version) ≡ false }
    ensures all { (design : Design) (opening : PaperCells) (acts : List ActWithMotif) → Fits design → IsPaperOf design opening
        → keeps design (bound design opening) ≡ false → All (λ version. keeps design (bound design version) ≡ false) (versions design opening acts) }
{
    draft_model::laws::a_cloth_keeps_a_float_where_one_is_told();
}

/// Acts of the design leave papers of the design: the paper that is painted, and each version.
pub fn versions_are_papers_of_the_design()
    ensures paper { (design : Design) (opening : PaperCells) (acts : List ActWithMotif) → IsPaperOf design opening → All (IsActOf design) acts
        → IsPaperOf design (paper_after design opening acts) }
    ensures versions { (design : Design) (opening : PaperCells) (acts : List ActWithMotif) → IsPaperOf design opening → All (IsActOf design) acts
        → All (IsPaperOf design) (versions design opening acts) }
{}

/// Where the colour that an act names and those of all motifs are in the book, the act with its motif is one of the design, and so is
/// the colour of each span that paints it.
pub fn acts_of_the_design_paint_colours_of_its_book()
    ensures acts { (design : Design) (motifs : List NamedMotif) (act : Act) → HasColour (length design.book) act
        → All (λ named. HasColours (length design.book) named.motif) motifs → IsActOf design (with_motif motifs act) }
    ensures spans { (design : Design) (act : ActWithMotif) (size : Size) (spans : List Span) → IsActOf design act → AreSpansOf act.motif size act.act spans
        → All (λ span. span.colour < length design.book) spans }
{}
