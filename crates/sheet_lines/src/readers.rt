// Readers of one line each.
ghost use Rattle.std.specs.Prelude.{◌≡◌, if◌then◌else◌, Some, None, codes};
ghost use Rattle.sheet_fields.specs.Cuts.{understood, has, before};
ghost use Rattle.sheet_lines.specs.Tokens.{found_bytes, found_number};
ghost use Rattle.sheet_lines.specs.Readings.{field, number_line, kind_line, parties_line, faults_here, faulty_line};

use crate::call::Call;
use crate::cursor::Line;
use crate::fault::LineFault;
use crate::kind::Kind;
use crate::token::Token;
use sheet_fields::cuts::cut;
use sheet_fields::fault::FieldFault;
use sheet_fields::number::read_number;
use sheet_fields::parties::read_parties;
use sheet_fields::texts::is_text;

impl<'a> Line<'a> {
    // The part before the `=`.
    pub fn name(self) -> Result<Token<'a>, LineFault>
        ensures { found_bytes result ≡ (if has 61 self.entry.text.now then Some (before 61 self.entry.text.now) else None) }
    {
        let halves = cut(self.text, b'=').ok_or(LineFault::NoName)?;
        Ok(Token::Name(halves.front))
    }

    // The part after the `=` of a line with this name.
    pub fn value(self, name: &[u8]) -> Result<Token<'a>, LineFault>
        ensures { found_bytes result ≡ field name.now self.entry.text.now }
    {
        let halves = cut(self.text, b'=').ok_or(LineFault::NoName)?;
        if !is_text(halves.front, name) {
            return Err(LineFault::OtherName);
        }
        Ok(Token::Value(halves.rest))
    }

    // The number after the `=` of a line with this name, as a token: a reader that wants the count alone asks it.
    pub fn number(self, name: &[u8]) -> Result<Token<'a>, LineFault>
        ensures { found_number result ≡ number_line name.now self.entry.text.now }
    {
        let text = self.value(name)?.text();
        let n = read_number(text)?;
        Ok(Token::Number(text, n))
    }
}

// `kind=block` or `kind=order`. By tests of a text: the last arm of a match on byte strings was not proved.
pub fn read_kind(line: Line) -> Result<Kind, LineFault>
    ensures { understood result ≡ kind_line line.entry.text.now }
{
    let text = line.value(b"kind")?.text();
    if is_text(text, b"block") {
        return Ok(Kind::Blocks);
    }
    if is_text(text, b"order") {
        return Ok(Kind::Orders);
    }
    Err(FieldFault::UnknownText.into())
}

// `parties=N`, at most 8.
pub fn read_count(line: Line) -> Result<u64, LineFault>
    ensures { understood result ≡ parties_line line.entry.text.now }
{
    let n = line.number(b"parties")?.count()?;
    if n > 8 {
        return Err(FieldFault::TooLarge.into());
    }
    Ok(n)
}

// Whether this is a line of faults.
pub fn is_faults(line: Line) -> bool
    ensures { result ≡ faults_here line.entry.text.now }
{
    cut(line.text, b'=').is_some_and(|halves| is_text(halves.front, b"faults"))
}

// `faults=F`.
pub fn read_faults(line: Line) -> Result<u64, LineFault>
    ensures { understood result ≡ number_line (codes "faults") line.entry.text.now }
{
    Ok(line.number(b"faults")?.count()?)
}

// `faulty=none`, or rising parties with commas.
pub fn read_faulty(line: Line) -> Result<u64, LineFault>
    ensures { understood result ≡ faulty_line line.entry.text.now }
{
    let text = line.value(b"faulty")?.text();
    Ok(read_parties(text)?)
}
