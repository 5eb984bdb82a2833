// What a record is asked before its places are looked at.
ghost use Rattle.std.specs.Prelude.{◌≡◌, ◌^◌};
ghost use Rattle.record.specs.Record.{fill};
ghost use Rattle.record.specs.Calls.{layout_check};

use shape::Refusal;

// The size is the first byte without its last two bits, which are the mark.
#[tactic(auto, using(crate::proofs::Parts::found))]
pub(crate) fn check(bytes: &[u8]) -> Result<(), Refusal>
    ensures { result ≡ layout_check bytes.now }
{
    if bytes.is_empty() {
        return Err(Refusal::Record);
    }
    let size = (bytes[0] / 4) as usize;
    if size == 0 || size > 35 {
        return Err(Refusal::Size);
    }
    if bytes[0] % 4 != 0 {
        return Err(Refusal::Record);
    }
    if bytes.len() != 1 + (size + 3) / 4 {
        return Err(Refusal::Record);
    }
    if bytes[bytes.len() - 1] % fill_unit(size) != 0 {
        return Err(Refusal::Record);
    }
    Ok(())
}

// What the pattern's last place counts in the last byte, where the fill stands behind it: a byte takes the places of four nodes.
#[tactic(auto, using(crate::proofs::Parts::units))]
fn fill_unit(size: usize) -> u8
    ensures { result ≡ 2 ^ fill size }
{
    match size % 4 {
        0 => 1,
        1 => 64,
        2 => 16,
        _ => 4,
    }
}
