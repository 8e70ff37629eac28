//! The numbers of options.
ghost use Rattle.std.specs.Prelude.{◌≡◌, ◌≤◌, ℕ, Option, Some, MatchOption, MatchResult, IfOk, IfSome};
ghost use Rattle.std.specs.Char.{is_ascii_digit};
ghost use Rattle.std.specs.List.{list_all};
ghost use Rattle.clap.specs.Words.{first_value, found_of};
ghost use Rattle.coco_words.specs.Options.{missing_of, IsNumberOf, Left, NumberOption, WritesNumber};

use clap::ArgMatches;

// The value of an option isn't the number that it has to be.
pub(crate) struct NotANumber;

// The number of an option: what its value writes, or the default where it isn't given. Without a default it has to be given.
pub(crate) fn number_of(
    matches: &ArgMatches<'_>,
    name: &str,
    default: Option<u64>,
    least: u64,
    most: u64,
) -> Option<u64>
    requires { IfSome default (λ n. (least ≤ n) × (n ≤ most)) }
    ensures number { let o : NumberOption = record { name = name.now; missing = missing_of default; least = least; most = most } in
        let value = first_value (found_of matches.now) name.now in
        MatchOption result ((n : Option ℕ) → IsNumberOf o value n → ⊥) (λ n. IsNumberOf o value (Some n)) }
    ensures above { IfSome result (λ n. least ≤ n) }
    ensures below { IfSome result (λ n. n ≤ most) }
{
    match found_number(matches, name, least, most) {
        Ok(Some(number)) => Some(number),
        Ok(None) => default,
        Err(NotANumber) => None,
    }
}

// The number of an option that may be left out: what its value writes, or none where it isn't given.
pub(crate) fn found_number(
    matches: &ArgMatches<'_>,
    name: &str,
    least: u64,
    most: u64,
) -> Result<Option<u64>, NotANumber>
    ensures number { let o : NumberOption = record { name = name.now; missing = Left; least = least; most = most } in
        let value = first_value (found_of matches.now) name.now in
        MatchResult result (IsNumberOf o value) (λ _. (n : Option ℕ) → IsNumberOf o value n → ⊥) }
    ensures above { IfOk result (λ number. IfSome number (λ n. least ≤ n)) }
    ensures below { IfOk result (λ number. IfSome number (λ n. n ≤ most)) }
{
    let Some(text) = matches.get_str(name) else {
        return Ok(None);
    };
    match number_in(text, least, most) {
        Some(number) => Ok(Some(number)),
        None => Err(NotANumber),
    }
}

// The number that 1 to 19 ASCII digits write, where it is in the range.
fn number_in(text: &str, least: u64, most: u64) -> Option<u64>
    ensures { MatchOption result ((n : ℕ) → WritesNumber least most text.now n → ⊥) (WritesNumber least most text.now) }
{
    if text.len() > 19 {
        return None;
    }
    if !is_digits(text) {
        return None;
    }
    match text.parse::<u64>() {
        Ok(number) if least <= number && number <= most => Some(number),
        Ok(_) => None,
        Err(_) => None,
    }
}

fn is_digits(text: &str) -> bool
    ensures { result ≡ list_all is_ascii_digit text.now }
{
    text.bytes().all(|byte| byte.is_ascii_digit())
}
