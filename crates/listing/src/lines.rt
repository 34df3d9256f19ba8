// The lines of a listing.
ghost use Rattle.listing.specs.Internal.{Writes};
ghost use Rattle.listing.specs.Listing.{number_line, answer_line, line_of};

use crate::text::Writer;
use bundle::Entry;
use refusal::Refusal;

// A word and a number.
pub fn numbered(text: &mut Writer<'_>, word: &[u8], n: u32)
    ensures { Writes text.old (number_line word.now n) text.new }
{
    text.ascii(word);
    text.decimal(n, b'\n');
}

// The line of an ordinal that stands for an entry, and nothing for another.
pub fn ordinal(text: &mut Writer<'_>, number: u32, answer: Result<Entry, Refusal>)
    ensures { Writes text.old (answer_line number answer) text.new }
{
    if let Ok(e) = answer {
        line(text, number, e);
    }
}

#[tactic(auto, unfolding(crate::specs::Listing::line_of))]
fn line(text: &mut Writer<'_>, number: u32, e: Entry)
    ensures { Writes text.old (line_of number e) text.new }
{
    text.decimal(number, b' ');
    text.decimal(e.segment as u32, b':');
    text.hex(4, e.offset as u32, b' ');
    text.hex(2, e.flag as u32, b'\n');
}
