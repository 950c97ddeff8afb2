//! Texts of words and numbers that a sink takes without memory.
ghost use Rattle.std.specs.Prelude.{◌≡◌, ◌++◌, map};
ghost use Rattle.std.specs.List.{concat};
ghost use Rattle.mill_base.specs.Causes.{HasCause, faults_after};
ghost use Rattle.mill_base.specs.Phrases.{number_text, phrase_text};
ghost use Rattle.mill_io.specs.Names.{shown_name};
ghost use Rattle.mill_io.specs.Takes.{Took};

use crate::faults::Failed;
use crate::line_room::LineRoom;
use crate::names::put_name;
use crate::pieces::{put_all, put_pieces};
use crate::sink::Sink;
use itoa::Buffer;
use mill_base::phrase::{Number, Phrase};

/// Puts the text of a phrase, up to the piece that fails. It takes no memory.
pub fn put_phrase<K: Sink>(out: &mut K, phrase: &Phrase) -> Result<(), Failed>
    ensures faults { K.faults out.new ≡ faults_after (K.faults out.old) result }
    ensures cause { HasCause (K.faults out.old) (K.faults out.new) result }
    ensures taken { Took (K.taken out.old) (K.taken out.new) (phrase_text phrase.now) result }
{
    let mut first = Buffer::new();
    let mut second = Buffer::new();
    let mut third = Buffer::new();
    match phrase {
        Phrase::Plain(a) => put_pieces(out, a.as_bytes()),
        Phrase::One(a, m, b) => put_all(out, &[a.as_bytes(), digits(&mut first, *m), b.as_bytes()]),
        Phrase::Two(a, m, b, n, c) => put_all(
            out,
            &[
                a.as_bytes(),
                digits(&mut first, *m),
                b.as_bytes(),
                digits(&mut second, *n),
                c.as_bytes(),
            ],
        ),
        Phrase::Three(a, m, b, n, c, o, d) => put_all(
            out,
            &[
                a.as_bytes(),
                digits(&mut first, *m),
                b.as_bytes(),
                digits(&mut second, *n),
                c.as_bytes(),
                digits(&mut third, *o),
                d.as_bytes(),
            ],
        ),
    }
}

fn digits(buffer: &mut Buffer, number: Number) -> &[u8]
    ensures { result.now ≡ number_text number }
{
    match number {
        Number::Whole(number) => buffer.format(number).as_bytes(),
        Number::Signed(number) => buffer.format(number).as_bytes(),
    }
}

/// Puts a line: some texts, a name as [`put_name`] tells it, another text, the text of a phrase and a last text. The line goes in one
/// piece where it has at most 8,192 bytes, and else it stops at the piece that fails. It takes no memory.
pub fn put_told<K: Sink>(
    out: &mut K,
    before: &[&[u8]],
    name: &str,
    between: &[u8],
    phrase: &Phrase,
    after: &[u8],
) -> Result<(), Failed>
    ensures faults { K.faults out.new ≡ faults_after (K.faults out.old) result }
    ensures cause { HasCause (K.faults out.old) (K.faults out.new) result }
    ensures taken { Took (K.taken out.old) (K.taken out.new)
        (concat (map (λ text. text.now) before.now) ++ shown_name name.now ++ between.now ++ phrase_text phrase.now ++ after.now) result }
{
    let mut line = LineRoom::new();
    if put_told_in_pieces(&mut line, before, name, between, phrase, after).is_ok() {
        return put_pieces(out, line.bytes());
    }
    put_told_in_pieces(out, before, name, between, phrase, after)
}

fn put_told_in_pieces<K: Sink>(
    out: &mut K,
    before: &[&[u8]],
    name: &str,
    between: &[u8],
    phrase: &Phrase,
    after: &[u8],
) -> Result<(), Failed>
    ensures faults { K.faults out.new ≡ faults_after (K.faults out.old) result }
    ensures cause { HasCause (K.faults out.old) (K.faults out.new) result }
    ensures taken { Took (K.taken out.old) (K.taken out.new)
        (concat (map (λ text. text.now) before.now) ++ shown_name name.now ++ between.now ++ phrase_text phrase.now ++ after.now) result }
{
    put_named(out, before, name, between)?;
    put_phrase(out, phrase)?;
    put_pieces(out, after)
}

fn put_named<K: Sink>(
    out: &mut K,
    before: &[&[u8]],
    name: &str,
    between: &[u8],
) -> Result<(), Failed>
    ensures faults { K.faults out.new ≡ faults_after (K.faults out.old) result }
    ensures cause { HasCause (K.faults out.old) (K.faults out.new) result }
    ensures taken { Took (K.taken out.old) (K.taken out.new) (concat (map (λ text. text.now) before.now) ++ shown_name name.now ++ between.now) result }
{
    put_all(out, before)?;
    put_name(out, name)?;
    put_pieces(out, between)
}
