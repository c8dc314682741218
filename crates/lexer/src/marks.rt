// The bytes that part a file into lines and a line into fields.
ghost use Rattle.std.specs.Prelude.{◌≡◌, ◌≤◌, length, ◌==◌};
ghost use Rattle.std.specs.List.{prefix_len};
ghost use Rattle.lexer.specs.Bytes.{other_than};
ghost use Rattle.lexer.specs.Marks.{code};

// What a run of bytes ends at.
#[derive(Clone, Copy)]
pub(crate) enum Mark {
    // The space between two fields.
    Space,
    // The end of a line.
    LineEnd,
}

// Whether `byte` is this mark.
fn is_mark(mark: Mark, byte: u8) -> bool
    ensures { result ≡ (byte == code mark) }
{
    match (mark, byte as char) {
        (Mark::Space, ' ') | (Mark::LineEnd, '\n') => true,
        _ => false,
    }
}

// How many bytes stand before the next mark, or before the end where there is none.
pub(crate) fn run(bytes: &[u8], mark: Mark) -> usize
    ensures value { result ≡ prefix_len (other_than (code mark)) bytes.now }
    ensures within { result ≤ length bytes.now }
{
    let mark_at = bytes.iter().position(|byte| is_mark(mark, *byte));
    mark_at.unwrap_or(bytes.len())
}
