// Lines and columns.
ghost use Rattle.std.specs.Prelude.{◌≡◌};
ghost use Rattle.ml_lines.specs.Reading as reading;
ghost use Rattle.ml_spec.specs.Places.{column_at, line_at};

/// The line and the column of the byte with this place, counted from 0, each from 1 on. A column counts bytes. A place behind
/// the text's last byte is that of its end.
///
/// Cost: linear in the place.
pub fn line_and_column(text: &[u8], at: usize) -> (u64, u64)
    ensures line { result.0 ≡ line_at text.now at }
    ensures column { result.1 ≡ column_at text.now at }
{
    let front = &text[..at.min(text.len())];
    let mut line = 1;
    let mut column = 1;
    for byte in front {
        if is_line_end(*byte) {
            line += 1;
            column = 1;
        } else {
            column += 1;
        }
    }
    (line, column)
}

fn is_line_end(byte: u8) -> bool
    ensures { result ≡ reading.is_line_end byte }
{
    byte == b'\n'
}
