ghost use Rattle.std.specs.Prelude.{◌≡◌, Ok, Err, MatchResult};
ghost use Rattle.script_text.specs.Reading.{one_word, five_words, three_settled, one_settled, caused};

use crate::fault::Refusal;
use key_tables::three_words;
use knx_base::Cause;
use text_lines::Words;

// The one word that is left.
pub(crate) fn one_word<'a>(words: &mut Words<'a>) -> Result<&'a str, Cause>
    ensures { MatchResult result (λ one. one_word words.old ≡ Ok one.now) (λ why. one_word words.old ≡ Err why) }
{
    match (words.next(), words.next()) {
        (Some(first), None) => Ok(first),
        _ => Err(Cause::Words),
    }
}

// The words that are left, where they are five: two, and the three after them.
pub(crate) fn five_words<'a>(
    words: &mut Words<'a>,
) -> Result<((&'a str, &'a str), &'a str, &'a str, &'a str), Cause>
    ensures { MatchResult result (λ five. five_words words.old
        ≡ Ok ((five.0.0.now, five.0.1.now), five.1.now, five.2.now, five.3.now))
        (λ why. five_words words.old ≡ Err why) }
{
    let (Some(first), Some(second)) = (words.next(), words.next()) else {
        return Err(Cause::Words);
    };
    match (words.next(), words.next(), words.next(), words.next()) {
        (Some(third), Some(fourth), Some(fifth), None) => {
            Ok(((first, second), third, fourth, fifth))
        },
        _ => Err(Cause::Words),
    }
}

// The words of a line that comes after the nodes, once their number is right.
pub(crate) fn three_settled<'a>(
    settled: Result<(), Refusal>,
    words: &mut Words<'a>,
) -> Result<(&'a str, &'a str, &'a str), Refusal>
    ensures { MatchResult result (λ three. three_settled settled words.old ≡ Ok (three.0.now, three.1.now, three.2.now))
        (λ why. three_settled settled words.old ≡ Err why) }
{
    let three = three_words(words)?;
    settled?;
    Ok(three)
}

pub(crate) fn one_settled<'a>(
    settled: Result<(), Refusal>,
    words: &mut Words<'a>,
) -> Result<&'a str, Refusal>
    ensures { MatchResult result (λ one. one_settled settled words.old ≡ Ok one.now)
        (λ why. one_settled settled words.old ≡ Err why) }
{
    let one = one_word(words)?;
    settled?;
    Ok(one)
}
