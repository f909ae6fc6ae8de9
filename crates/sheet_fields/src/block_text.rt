// Blocks as texts of a run sheet: three numbers with commas.
ghost use Rattle.std.specs.Prelude.{◌≡◌};
ghost use Rattle.values.specs.Blocks.{block_bytes};
ghost use Rattle.sheet_fields.specs.Cuts.{understood_as};
ghost use Rattle.sheet_fields.specs.Texts.{block_from, block_text};

use crate::cuts::cut;
use crate::fault::FieldFault;
use crate::number::read_number;
use crate::value_text::SheetValue;
use values::block::Block;

// The block with these three numbers, if its bytes can hold them.
fn read_block(first: &[u8], count: &[u8], party: &[u8]) -> Result<Block, FieldFault>
    ensures { understood_as block_bytes result ≡ block_from first.now count.now party.now }
{
    let first = read_number(first)?;
    let count = u32::try_from(read_number(count)?).map_err(|_| FieldFault::TooLarge)?;
    let party = u16::try_from(read_number(party)?).map_err(|_| FieldFault::TooLarge)?;
    Ok(Block {
        first,
        count,
        party,
    })
}

impl SheetValue for Block {
    ghost reads = { block_text };

    fn read_text(s: &[u8]) -> Result<Block, FieldFault> {
        let one = cut(s, b',').ok_or(FieldFault::WrongCount)?;
        let two = cut(one.rest, b',').ok_or(FieldFault::WrongCount)?;
        read_block(one.front, two.front, two.rest)
    }
}
