//! A number of the command line.

ghost use Rattle.std.specs.Prelude.{◌↔◌, IsTrue, pos};
ghost use Rattle.std.specs.Str.Parse.{AllDigits};
ghost use Rattle.command_line.specs.Invocations.{Finds};
ghost use Rattle.command_line.specs.Numbers.{IsNumberIn};

/// The most digits of a number, leading zeros among them.
const MOST_DIGITS: usize = 10;

/// The number that a text of 1 to 10 decimal digits writes, where it lies in its range.
pub(crate) fn number_in(text: &str, least: u64, most: u64) -> Option<u64>
    ensures { Finds result (λ number. IsNumberIn least most text.now (pos number)) }
{
    if text.len() > MOST_DIGITS || !is_all_digits(text) {
        return None;
    }
    let number = text.parse::<u64>().ok()?;
    if least <= number && number <= most {
        Some(number)
    } else {
        None
    }
}

/// The text has decimal digits and nothing else.
fn is_all_digits(text: &str) -> bool
    ensures { IsTrue result ↔ AllDigits 10 text.now }
{
    text.bytes().all(|byte| byte.is_ascii_digit())
}
