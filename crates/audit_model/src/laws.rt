//! What holds of the lines of a report. These functions compute nothing: each is the contract of a function without result.
ghost use Rattle.std.specs.Prelude.{◌≡◌, true, ◌+◌, ◌<◌, ℕ, List, [], ◌∷◌, ◌++◌, length};
ghost use Rattle.session_file.specs.declared.session.Session.{Session};
ghost use Rattle.version_journal.specs.declared.run_log.RunLog.{RunLog};
ghost use Rattle.report_text.specs.Reports.{last_version, report};
ghost use Rattle.shift_model.specs.Logs.{Legal, accepted_before};
ghost use Rattle.audit_model.specs.Audits.{Begins, IsNo, IsYes, Passes};
ghost use Rattle.audit_model.specs.Pieces.{IsLine, IsPiece, Plain};
ghost use Rattle.audit_model.specs.Reads.{Cut, IsNext, MayCome, Reaches};
ghost use Rattle.audit_model.specs.States.{Can, IsSmall, Move, Part, State, entries_of, go, line, log_of, more_lines, start, text, versions_of};
ghost use Rattle.audit_model.specs.Lines.{design_line, first_line, shift_head};

/// Whatever part of a legal log was reported, a legal log goes on from it: by the missing acts in plain order, and by the newest version
/// for each missing repeat.
pub fn a_part_can_be_finished()
    ensures { (session : Session) (state : State) → Part session state → Passes session (text session state) }
{}

/// A line, or a rest that may come next, is what some legal log's report has there.
pub fn a_piece_passes_exactly_where_it_may_come()
    ensures passes { (session : Session) (bytes : List ℕ) (state : State) (coming : List (List ℕ)) (piece : List ℕ)
        → Reaches session bytes state coming → MayCome session state coming piece → Passes session (bytes ++ piece) }
    ensures comes { (session : Session) (bytes : List ℕ) (state : State) (coming : List (List ℕ)) (piece : List ℕ)
        → Reaches session bytes state coming → IsPiece piece → 0 < length piece → Passes session (bytes ++ piece) → MayCome session state coming piece }
{}

/// How the lines that were read lead from state to state: before the first line, by a line that was to come, and by the first line of a
/// move.
pub fn lines_lead_on()
    ensures start { (session : Session) → 0 < length session.shifts
        → Reaches session [] (start session) (first_line ∷ design_line session ∷ shift_head 0 ∷ []) }
    ensures line { (session : Session) (bytes : List ℕ) (state : State) (next : List ℕ) (coming : List (List ℕ))
        → Reaches session bytes state (next ∷ coming) → Reaches session (bytes ++ next) state coming }
    ensures moved { (session : Session) (bytes : List ℕ) (state : State) (move : Move)
        → Reaches session bytes state [] → IsSmall session state → Can session state move
        → Reaches session (bytes ++ line session state move) (go session state move) (more_lines move) }
{}

/// A line that begins another is that line.
pub fn a_line_begins_no_other()
    ensures { (line piece : List ℕ) → IsLine line → IsLine piece → Begins piece line → piece ≡ line }
{}

/// Where the report has ended, its bytes are those of the state's log alone.
pub fn an_ended_report_has_one_log()
    ensures yes { (session : Session) (bytes : List ℕ) (state : State) → Reaches session bytes state [] → state.ended ≡ true → IsYes session bytes (log_of session state) }
    ensures only { (session : Session) (bytes : List ℕ) (state : State) (coming : List (List ℕ)) (log : RunLog)
        → Reaches session bytes state coming → IsYes session bytes log → (state.ended ≡ true) × (coming ≡ []) × (log ≡ log_of session state) }
{}

/// There is one version more than commits that were accepted, in the shifts so far and in all entries so far.
pub fn accepted_commits_made_the_versions()
    ensures shifts { (session : Session) (state : State) → Part session state
        → length (versions_of session state) ≡ accepted_before (state.shift + 1) (entries_of state) + 1 }
    ensures all { (session : Session) (state : State) → Part session state → length (versions_of session state) ≡ last_version (entries_of state) + 1 }
{}

/// The first line that breaks a report: where the next one does not pass; where the last one is a rest, of which no report is made; and
/// where all lines pass and the report has not ended. The bytes are cut where they were read to.
pub fn the_first_line_that_breaks()
    ensures start { (bytes : List ℕ) → Cut bytes 0 [] bytes }
    ensures line { (bytes read piece rest : List ℕ) (k : ℕ) → Cut bytes k read (piece ++ rest) → IsLine piece → Cut bytes (k + 1) (read ++ piece) rest }
    ensures here { (session : Session) (bytes read left piece rest : List ℕ) (state : State) (coming : List (List ℕ)) (k : ℕ)
        → Cut bytes k read left → IsNext left piece rest → Reaches session read state coming → (Passes session (read ++ piece) → ⊥) → IsNo session bytes k }
    ensures rest { (session : Session) (bytes read piece : List ℕ) (state : State) (coming : List (List ℕ)) (k : ℕ)
        → Cut bytes k read piece → IsNext piece piece [] → Plain piece → 0 < length piece → Reaches session read state coming
        → Passes session (read ++ piece) → IsNo session bytes (k + 1) }
    ensures end { (session : Session) (bytes read : List ℕ) (state : State) (coming : List (List ℕ)) (k : ℕ)
        → Cut bytes k read [] → Reaches session read state coming → ((state.ended ≡ true) × (coming ≡ []) → ⊥) → IsNo session bytes k }
    ensures next { (piece rest : List ℕ) → IsLine piece → IsNext (piece ++ rest) piece rest }
    ensures last { (piece : List ℕ) → Plain piece → 0 < length piece → IsNext piece piece [] }
{}
