//! The line on standard error for each cause.
ghost use Rattle.std.specs.Prelude.{◌≡◌, ◌≤◌, ◌⊎◌, ◌++◌, codes};
ghost use Rattle.mill_base.specs.Causes.{HasCause, Rose, faults_after};
ghost use Rattle.mill_io.specs.Names.{shown_name};
ghost use Rattle.mill_io.specs.Takes.{Took, TookAll, TookPart};
ghost use Rattle.report_text.specs.Causes.{line as line_of};
ghost use Rattle.report_text.specs.inner.Tellings.{words_of};

use crate::cause::Cause;
use crate::telling::Telling;
use mill_io::faults::Failed;
use mill_io::phrases::put_told;
use mill_io::sink::Sink;

/// Puts the line of a cause, as one piece where it has at most 8,192 bytes, and else up to the first piece that fails. It takes no
/// memory, and where all was done it puts nothing.
pub fn fault_line<E: Sink>(cause: &Cause, err: &mut E)
    ensures later { E.faults err.old ≤ E.faults err.new }
    ensures silent { cause.now ≡ Cause.Done → (E.taken err.new ≡ E.taken err.old) × (E.faults err.new ≡ E.faults err.old) }

    // The whole line was taken and the count stays, or the count rose.
    ensures line { (TookAll (E.taken err.old) (E.taken err.new) (line_of cause.now) × (E.faults err.new ≡ E.faults err.old))
        ⊎ (Rose (E.faults err.old) (E.faults err.new) × TookPart (E.taken err.old) (E.taken err.new) (line_of cause.now)) }
{
    let _ = put_line(cause, err);
}

fn put_line<E: Sink>(cause: &Cause, err: &mut E) -> Result<(), Failed>
    ensures silent { cause.now ≡ Cause.Done → (E.taken err.new ≡ E.taken err.old) × (E.faults err.new ≡ E.faults err.old) }
    ensures faults { E.faults err.new ≡ faults_after (E.faults err.old) result }
    ensures cause { HasCause (E.faults err.old) (E.faults err.new) result }
    ensures taken { Took (E.taken err.old) (E.taken err.new) (line_of cause.now) result }
{
    match cause {
        Cause::Done => Ok(()),
        _ => put_telling(&cause.telling(), err),
    }
}

fn put_telling<E: Sink>(telling: &Telling<'_>, err: &mut E) -> Result<(), Failed>
    ensures faults { E.faults err.new ≡ faults_after (E.faults err.old) result }
    ensures cause { HasCause (E.faults err.old) (E.faults err.new) result }
    ensures taken { Took (E.taken err.old) (E.taken err.new) (codes "studio: " ++ words_of shown_name telling.now ++ codes "\n") result }
{
    put_told(
        err,
        &[b"studio: ".as_slice(), telling.before.as_bytes()],
        telling.name,
        telling.between.as_bytes(),
        &telling.phrase,
        b"\n",
    )
}
