//! Laws of all interleavings. They compute nothing: each is the contract of a function without result.
ghost use Rattle.std.specs.Prelude.{◌≡◌, ◌<◌, ℕ, false, List, [], ◌∷◌, None, length, map, slice_index_or, All};
ghost use Rattle.std.specs.List.Sorted.{IsNonDecreasing};
ghost use Rattle.mill_base.specs.declared.face.Face.{Face};
ghost use Rattle.casting_out.specs.Castings.{IsCasting};
ghost use Rattle.point_paper.specs.Papers.{PaperCells};
ghost use Rattle.draft_model.specs.Designs.{Fits, IsPaperOf};
ghost use Rattle.draft_model.specs.Drawdowns.{bound};
ghost use Rattle.draft_model.specs.Floats.{keeps};
ghost use Rattle.draft_model.specs.declared.design.Design.{Design};
ghost use Rattle.version_journal.specs.Journals.{IsActOf, float_kept, replies, versions};
ghost use Rattle.version_journal.specs.declared.entry.Entry.{Entry};
ghost use Rattle.session_file.specs.Plans.{Fits as FitsSession};
ghost use Rattle.session_file.specs.declared.session.Session.{Session};
ghost use Rattle.shift_model.specs.Logs.{Legal};
ghost use Rattle.shift_model.specs.Steps.{Event, HasRun, IsDrawdown, IsOfItsShift, acts_of, after_events, begun_on, log_of_world, loom_at};
ghost use Rattle.shift_model.specs.WorkedSteps.{worked_entries, worked_events, worked_plan, worked_world};

/// The interleaving law. In whatever order acts, rebuilt tiles, publications, looms and ends of shifts come, the acts are done one after
/// another, with the replies and the versions that they have by themselves. Each repeat that a loom has ended, read on the loom's face, is
/// the drawdown of one version. The versions that a loom takes never fall; each is no older than the last one accepted before the shift in
/// which its repeat was begun, and no newer than the last one accepted in it. Where the opening's cloth keeps no float over its limit, no
/// version's does. Where the events ran a session, the entries of its acts and the repeats that were ended are a legal log.
pub fn every_interleaving_weaves_drawdowns()
    ensures acts { (design : Design) (opening : PaperCells) (faces : List Face) (events : List Event)
        → (after_events design opening faces events).acts ≡ acts_of events }
    ensures replies { (design : Design) (opening : PaperCells) (faces : List Face) (events : List Event)
        → ((after_events design opening faces events).history.replies ≡ replies design opening (acts_of events))
        × ((after_events design opening faces events).history.versions ≡ versions design opening (acts_of events)) }
    ensures woven { (design : Design) (opening : PaperCells) (faces : List Face) (events : List Event) (loom : ℕ) → Fits design → IsCasting design.casting
        → IsPaperOf design opening → All (IsActOf design) (acts_of events) → loom < length faces
        → All (IsDrawdown design (slice_index_or faces loom Face.Up) (after_events design opening faces events).history.versions)
        (loom_at (after_events design opening faces events) loom).ended }
    ensures current { (design : Design) (opening : PaperCells) (faces : List Face) (events : List Event) (loom : ℕ) → loom < length faces
        → IsNonDecreasing (map (λ weaving. weaving.version) (begun_on (loom_at (after_events design opening faces events) loom)))
        × All (IsOfItsShift (after_events design opening faces events)) (begun_on (loom_at (after_events design opening faces events) loom)) }
    ensures free { (design : Design) (opening : PaperCells) (faces : List Face) (events : List Event) → Fits design → IsPaperOf design opening
        → keeps design (bound design opening) ≡ false
        → All (λ version. keeps design (bound design version) ≡ false) (after_events design opening faces events).history.versions }
    ensures legal { (session : Session) (entries : List Entry) (events : List Event) → FitsSession session
        → HasRun session entries (after_events session.design session.opening session.faces events)
        → Legal session (log_of_world session entries (after_events session.design session.opening session.faces events)) }
{
    version_journal::laws::versions_keep_no_float();
    version_journal::laws::versions_are_papers_of_the_design();
    version_journal::laws::acts_of_the_design_paint_colours_of_its_book();
    loom_threads::laws::lifted_rows_are_the_drawdown();
}

/// A run by hand: events of every kind do what they say, and nothing where their condition does not hold. So a list of events can run a
/// session, as the law of legal logs supposes.
pub fn events_run_a_session_of_two_shifts()
    ensures world { (design : Design) (opening : PaperCells) (face : Face) → float_kept design opening ≡ None → design.size.picks ≡ 1
        → after_events design opening (face ∷ []) worked_events ≡ worked_world design opening face }
    ensures run { (session : Session) (face : Face) → float_kept session.design session.opening ≡ None → session.design.size.picks ≡ 1
        → session.looms ≡ 1 → session.faces ≡ face ∷ [] → session.shifts ≡ worked_plan ∷ worked_plan ∷ []
        → HasRun session worked_entries (after_events session.design session.opening session.faces worked_events) }
{}
