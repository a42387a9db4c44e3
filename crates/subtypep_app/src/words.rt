ghost use Rattle.std.specs.Prelude.{MatchOption, ◌≡◌, ◌≤◌, ◌^◌, ℕ, decimal, bytes_eq};
ghost use Rattle.subtypep_app.specs.Words.{texts, Writes, MeanBudget, MeanCount, Means, MeanNothing};

use itoa::Buffer;

/// The budget of a query where the words name none.
const DEFAULT_BUDGET: u64 = 4_194_304;

/// The greatest budget that the words may name.
const GREATEST_BUDGET: u64 = 1_073_741_824;

/// The greatest count for which a text is generated.
const GREATEST_COUNT: u64 = 4096;

/// What the words of the command line ask for.
#[derive(Clone, Copy, Debug, PartialEq, Eq)]
pub enum Command {
    /// To answer the queries of a text, each within the budget.
    Ask { budget: u64 },
    /// To count the answers to the queries of the text that is generated for the count, each within the budget.
    Gen { count: u64, budget: u64 },
}

/// Whether the word is the number in decimal digits, without a leading zero.
fn is_decimal(word: &str, number: u64) -> bool
    ensures { result ≡ bytes_eq word.now (decimal number) }
{
    let mut buffer = Buffer::new();
    word == buffer.format(number)
}

/// The number that the word writes, in decimal digits without a sign or a leading zero, from 1 to the greatest.
fn number_in(word: &str, greatest: u64) -> Option<u64>
    requires { greatest ≤ 2 ^ 30 }
    ensures { MatchOption result ((n : ℕ) → Writes greatest word.now n → ⊥) (Writes greatest word.now) }
{
    let Ok(number) = word.parse::<u64>() else {
        return None;
    };
    if number == 0 || number > greatest || !is_decimal(word, number) {
        return None;
    }
    Some(number)
}

/// The budget that the words behind a command mean.
fn budget_in(options: &[String]) -> Option<u64>
    ensures { MatchOption result ((n : ℕ) → MeanBudget (texts options.now) n → ⊥) (MeanBudget (texts options.now)) }
{
    match options {
        [] => Some(DEFAULT_BUDGET),
        [flag, number] if flag.as_str() == "--budget" => number_in(
            number.as_str(),
            GREATEST_BUDGET,
        ),
        _ => None,
    }
}

/// The count and the budget that the words behind `gen` mean.
fn count_in(options: &[String]) -> Option<(u64, u64)>
    ensures { MatchOption result ((n b : ℕ) → MeanCount (texts options.now) n b → ⊥) (λ m. MeanCount (texts options.now) m.0 m.1) }
{
    let [number, options @ ..] = options else {
        return None;
    };
    let count = number_in(number.as_str(), GREATEST_COUNT)?;
    let budget = budget_in(options)?;
    Some((count, budget))
}

/// The command that the words mean, or `None` where they mean none.
pub(crate) fn command_of(words: &[String]) -> Option<Command>
    ensures { MatchOption result (MeanNothing (texts words.now)) (Means (texts words.now)) }
{
    match words {
        [ask, options @ ..] if ask.as_str() == "ask" => match budget_in(options) {
            Some(budget) => Some(Command::Ask { budget }),
            None => None,
        },
        [generate, options @ ..] if generate.as_str() == "gen" => match count_in(options) {
            Some((count, budget)) => Some(Command::Gen { count, budget }),
            None => None,
        },
        _ => None,
    }
}
