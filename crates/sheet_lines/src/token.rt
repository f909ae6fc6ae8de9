// A part of a line, with its bytes borrowed from the sheet.
ghost use Rattle.std.specs.Prelude.{◌≡◌};
ghost use Rattle.sheet_fields.specs.Cuts.{understood};
ghost use Rattle.sheet_lines.specs.Tokens.{token_bytes, token_number};

use sheet_fields::fault::FieldFault;
use sheet_fields::number::read_number;

#[derive(Clone, Copy)]
pub enum Token<'a> {
    // the part before the `=`
    Name(&'a [u8]),
    // a number after the `=`, as it stands and as it counts
    Number(&'a [u8], u64),
    // another part after the `=`
    Value(&'a [u8]),
}

impl<'a> Token<'a> {
    // The bytes as they stand in the sheet.
    pub fn text(self) -> &'a [u8]
        ensures { result.now ≡ token_bytes self.entry }
    {
        match self {
            Token::Name(s) | Token::Number(s, _) | Token::Value(s) => s,
        }
    }

    // The number that the bytes write.
    pub fn count(self) -> Result<u64, FieldFault>
        ensures { understood result ≡ token_number self.entry }
    {
        match self {
            Token::Number(_, n) => Ok(n),
            Token::Name(s) | Token::Value(s) => read_number(s),
        }
    }
}
