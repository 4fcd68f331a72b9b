// Sheets of runoff in bytes.
#![tactic(auto)]

ghost use Rattle.std.specs.Prelude.{◌≡◌, ◌≤◌, ◌<◌, ◌^◌, length};
ghost use Rattle.sheets.specs.Sheets.{sheet_size, sheet_of};

use numbers::bytes::le32;

// The bytes of a sheet.
pub fn sheet_size(rows: usize) -> usize
    requires { rows < 2 ^ 62 }
    ensures { result ≡ sheet_size rows }
{
    4 * rows
}

// A sheet's bytes as its numbers, one to a station. They are read by index: of what is written through a `zip` of `iter_mut` with
// `chunks_exact` a proof knows nothing.
pub fn decode(bytes: &[u8], runoff: &mut [u32])
    requires { sheet_size (length runoff.old) ≤ length bytes.now }
    ensures { runoff.new ≡ sheet_of (length runoff.old) bytes.now }
{
    for (row, number) in runoff.iter_mut().enumerate() {
        *number = le32(bytes, 4 * row);
    }
}
