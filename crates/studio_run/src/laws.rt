//! The law that words and files decide the answer of the studio, where nothing fails outside. It computes nothing: it is the contract of a
//! function without result.
ghost use Rattle.std.specs.Prelude.{◌≡◌, ◌↔◌, ◌⊎◌, ℕ, List, Option, Some};
ghost use Rattle.mill_base.specs.Causes.{Rose};
ghost use Rattle.mill_io.specs.Files.{File};
ghost use Rattle.version_journal.specs.declared.run_log.RunLog.{RunLog};
ghost use Rattle.report_text.specs.declared.cause.Cause.{Cause};
ghost use Rattle.studio_run.specs.Answers.{IsCausedBy, IsGood, Outside};
ghost use Rattle.studio_run.specs.Commands.{command_of};

/// Over a shelf that tells its files, and where no count of faults rose, all is done exactly where words and files are good; or memory was
/// refused.
pub fn words_and_files_decide()
    ensures { (words : List (List ℕ)) (o : Outside) (run_log : Option RunLog) (cause : Cause) (held : List File)
        → o.shelf_before.files ≡ Some held → ¬ Rose o.shelf_before.reads o.shelf.reads → ¬ Rose o.shelf_before.writes o.shelf.writes
        → ¬ Rose o.sink_before.faults o.sink.faults → IsCausedBy (command_of words) words o run_log cause
        → (cause ≡ Cause.OutOfMemory) ⊎ ((cause ≡ Cause.Done) ↔ IsGood words held) }
{
    session_file::laws::a_file_denotes_one_session();
    session_file::laws::what_denotes_a_session_breaks_no_rule();
    session_file::laws::a_session_has_its_image();
    session_file::laws::a_shelf_holds_one_content();
    session_file::laws::a_file_is_not_both_read_and_too_long();
}
