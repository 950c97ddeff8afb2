//! Names and keys in a line.
ghost use Rattle.std.specs.Prelude.{◌≡◌, ◌≤◌, ◌<◌, length, OnOk, OnErr};
ghost use Rattle.std.specs.Char.{digit_char};
ghost use Rattle.mill_base.specs.Causes.{HasCause, faults_after};
ghost use Rattle.mill_io.specs.Names.{shown_char, shown_name};
ghost use Rattle.mill_io.specs.Takes.{Took, TookPart};
ghost use Rattle.mill_io.specs.inner.Waiting.{Waits};
ghost use Rattle.mill_io.specs.declared.names.TheConstants.{BLOCK};

use crate::faults::Failed;
use crate::pieces::put_pieces;
use crate::sink::Sink;
use arrayvec::ArrayVec;

// How many bytes of a name are put at once.
const BLOCK: usize = 1_024;

/// Puts a name as a line tells it: each control character (below 32, 127, and from 128 to 159) as `\x` and two lower-case hexadecimal
/// digits, all others as they are. It stops at the piece that fails, and takes no memory.
pub fn put_name<K: Sink>(out: &mut K, name: &str) -> Result<(), Failed>
    ensures faults { K.faults out.new ≡ faults_after (K.faults out.old) result }
    ensures cause { HasCause (K.faults out.old) (K.faults out.new) result }
    ensures taken { Took (K.taken out.old) (K.taken out.new) (shown_name name.now) result }
{
    let mut block = ArrayVec::new();
    for c in name.chars() {
        put_char(out, &mut block, c)?;
    }
    put_pieces(out, block.as_slice())
}

// Tells a character behind what waits in the block.
fn put_char<K: Sink>(out: &mut K, block: &mut ArrayVec<u8, BLOCK>, c: char) -> Result<(), Failed>
    ensures faults { K.faults out.new ≡ faults_after (K.faults out.old) result }
    ensures cause { HasCause (K.faults out.old) (K.faults out.new) result }
    ensures ok { OnOk result (Waits (K.taken out.old) block.old.items (K.taken out.new) block.new.items (shown_char c)) }
    ensures err { OnErr result (TookPart (K.taken out.old) (K.taken out.new) block.old.items) }
{
    if c.is_control() {
        let code = c as u32;
        let told = [b'\\', b'x', digit(code / 16), digit(code % 16)];
        return gather(out, block, told.as_slice());
    }
    let mut room = [0; 4];
    gather(out, block, c.encode_utf8(&mut room).as_bytes())
}

fn digit(value: u32) -> u8
    requires { value < 16 }
    ensures { result ≡ digit_char value }
{
    if value < 10 {
        return b'0' + value as u8;
    }
    b'a' + (value - 10) as u8
}

// Adds a piece to what waits in the block, which is put first where it has no room left.
fn gather<K: Sink>(out: &mut K, block: &mut ArrayVec<u8, BLOCK>, piece: &[u8]) -> Result<(), Failed>
    requires { length piece.now ≤ 4 }
    ensures faults { K.faults out.new ≡ faults_after (K.faults out.old) result }
    ensures cause { HasCause (K.faults out.old) (K.faults out.new) result }
    ensures ok { OnOk result (Waits (K.taken out.old) block.old.items (K.taken out.new) block.new.items piece.now) }
    ensures err { OnErr result (TookPart (K.taken out.old) (K.taken out.new) block.old.items) }
{
    if block.try_extend_from_slice(piece).is_ok() {
        return Ok(());
    }
    out.put(block.as_slice())?;
    block.clear();
    block.try_extend_from_slice(piece).unwrap();
    Ok(())
}
