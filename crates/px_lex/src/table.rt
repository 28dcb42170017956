// Tables of spellings.
ghost use Rattle.std.specs.Prelude.{◌≡◌, map};
ghost use Rattle.std.specs.Str.{bytes_eq};
ghost use Rattle.px_lex.specs.Table.{row_of};

/// What the first row with this spelling stands for.
pub(crate) fn row_of<K: Copy>(mut table: &[(&[u8], K)], spelling: &[u8]) -> Option<K>
    ensures { result ≡ row_of (map (λ row. (row.0.now, row.1)) table.entry.now) spelling.now }
{
    while let [row, rest @ ..] = table {
        if is_same(row.0, spelling) {
            return Some(row.1);
        }
        table = rest;
    }
    None
}

/// Whether two spellings are the same. Most rows differ in their length or in their first byte, which are compared here; the
/// rest is a call.
fn is_same(spelling: &[u8], other: &[u8]) -> bool
    ensures { result ≡ bytes_eq spelling.now other.now }
{
    if spelling.len() != other.len() {
        return false;
    }
    match (spelling, other) {
        ([first, ..], [other_first, ..]) => *first == *other_first && spelling == other,
        _ => true,
    }
}
