// The answers of print and parse as the one word that C is given.
#![tactic(auto)]

ghost use Rattle.std.specs.Prelude.{◌≡◌};
ghost use Rattle.parlog.specs.Numbers.{word};
ghost use Rattle.text_words.specs.Numbers.{ParseFits, parse_numbers, print_numbers};

use parlog::Answer;
use words::ACCEPTED;

// Of a print: how many bytes the text has.
// Kept beside `replay::replay_word`, like the words of crate `words`: each call has numbers by a definition of its own.
pub fn print_word(a: Answer<usize>) -> u64
    ensures { result ≡ word (print_numbers a) }
{
    match a {
        Ok(n) => words::word(ACCEPTED, 0, 0, words::told_number(n)),
        Err(r) => words::refused(words::told_refusal(r)),
    }
}

// Of a parse: how many bytes the image has, in two parts, and the names.
pub fn parse_word(a: Answer<(usize, usize)>) -> u64
    requires { ParseFits a }
    ensures { result ≡ word (parse_numbers a) }
{
    match a {
        Ok((n, m)) => {
            let [low, high] = (n as u16).to_le_bytes();
            words::word(
                ACCEPTED,
                usize::from(low),
                usize::from(high),
                words::told_number(m),
            )
        }
        Err(r) => words::refused(words::told_refusal(r)),
    }
}
