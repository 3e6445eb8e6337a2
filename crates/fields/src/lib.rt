// Fields of a record: numbers in groups of seven bits, each in its range.
#![tactic(auto)]

ghost use Rattle.std.specs.Prelude.{◌≡◌};
ghost use Rattle.rules.specs.Setup.{within};
ghost use Rattle.journal.specs.Numbers.{number_at};
ghost use Rattle.journal.specs.Records.{any_size, ranged};
ghost use Rattle.fields.specs.Fields.{told};

use rules::Refusal;

// A field: its number, and the offset behind it.
#[derive(Clone, Copy)]
pub struct Field {
    pub value: u64,
    pub next: usize,
}

// The field at an offset, of any size.
pub fn number(journal: &[u8], offset: usize) -> Result<Field, Refusal>
    ensures { told result ≡ ranged any_size (number_at journal.now offset) }
{
    let n = journal.len();
    if n <= offset {
        return Err(Refusal::CutShort);
    }
    let first = u64::from(journal[offset]);
    if first < 128 {
        return Ok(Field {
            value: first,
            next: offset + 1,
        });
    }
    let mut value = first - 128;
    let mut place: u64 = 128;
    for at in offset + 1..offset + 5 {
        if n <= at {
            return Err(Refusal::CutShort);
        }
        let b = u64::from(journal[at]);
        if b < 128 {
            value += b * place;
            if b == 0 || 4294967295 < value {
                return Err(Refusal::Number);
            }
            return Ok(Field {
                value,
                next: at + 1,
            });
        }
        value += (b - 128) * place;
        place *= 128;
    }
    Err(Refusal::Number)
}

// A field from low to high.
pub fn ranged(journal: &[u8], offset: usize, low: u64, high: u64) -> Result<Field, Refusal>
    ensures { told result ≡ ranged (within low high) (number_at journal.now offset) }
{
    let f = number(journal, offset)?;
    if f.value < low || high < f.value {
        return Err(Refusal::OutOfRange);
    }
    Ok(f)
}
