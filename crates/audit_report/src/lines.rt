//! Lines of bytes.
ghost use Rattle.std.specs.Prelude.{◌≡◌, ◌<◌, ◌≤◌, ◌++◌, ℕ, List, true, false, length, take};
ghost use Rattle.audit_model.specs.Audits.{Begins};
ghost use Rattle.audit_model.specs.Pieces.{IsLine, Plain};

/// How many bytes the first line has, and whether it ends with a line feed; a rest without one is a line.
pub fn first_piece(bytes: &[u8]) -> (usize, bool)
    requires { 0 < length bytes.now }
    ensures some { 0 < result.0 }
    ensures within { result.0 ≤ length bytes.now }
    ensures line { result.1 ≡ true → IsLine (take result.0 bytes.now) }
    ensures rest { result.1 ≡ false → (result.0 ≡ length bytes.now) × Plain bytes.now }
{
    for k in 0..bytes.len() {
        if bytes[k] == b'\n' {
            return (k + 1, true);
        }
    }
    (bytes.len(), false)
}

/// Whether the line begins with the piece.
pub fn begins(line: &[u8], piece: &[u8]) -> bool
    ensures yes { result ≡ true → Begins piece.now line.now }
    ensures no { result ≡ false → Begins piece.now line.now → ⊥ }
{
    if line.len() < piece.len() {
        return false;
    }
    for k in 0..piece.len() {
        if line[k] != piece[k] {
            return false;
        }
    }
    true
}

/// Whether a line with this head may begin with the piece, so far as the head says.
pub fn may_begin(head: &[u8], piece: &[u8]) -> bool
    ensures { result ≡ false → (rest : List ℕ) → Begins piece.now (head.now ++ rest) → ⊥ }
{
    for k in 0..head.len() {
        if k >= piece.len() {
            return true;
        }
        if head[k] != piece[k] {
            return false;
        }
    }
    true
}
