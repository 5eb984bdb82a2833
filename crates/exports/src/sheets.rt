// The sheet library. A sheet is the same struct on both sides.
ghost use Rattle.std.specs.Prelude.{◌≡◌, length};
ghost use Rattle.lines.specs.Calls.{open_sheet, fill_end};
ghost use Rattle.exports.specs.Crossing.{fill_told};

use crate::Reply;
use lines::Sheet;

#[repr(C)]
#[derive(Clone, Copy)]
pub struct Filled {
    pub refusal: u64,
    pub bytes: u64,
    pub sheet: Sheet,
}

#[unsafe(no_mangle)]
pub extern "C" fn spire_sheet_open(input: &[u8]) -> Sheet
    ensures { result ≡ open_sheet input.now }
{
    Sheet::open(input)
}

#[unsafe(no_mangle)]
pub extern "C" fn spire_sheet_fill(sheet: Sheet, out: &mut [u8]) -> Filled
    ensures value { result ≡ fill_told sheet (length out.old) }
    ensures out_after { out.new ≡ fill_end sheet out.old }
{
    let filled = sheet.fill(out);
    let reply = Reply::from(filled.bytes);
    Filled {
        refusal: reply.refusal,
        bytes: reply.value,
        sheet: filled.sheet,
    }
}
