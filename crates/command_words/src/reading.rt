//! From the words of the command line to the order that they give.

ghost use Rattle.std.specs.Prelude.{◌≡◌, ◌⊎◌, [], List, ℕ, map, option_map, IfOk, Err, Ok};
ghost use Rattle.clap.specs.Words.{first_value, found_of};
ghost use Rattle.command_words.specs.declared.order.Action.{Action as GivenAction};
ghost use Rattle.command_words.specs.declared.order.Order.{Order as GivenOrder};
ghost use Rattle.command_words.specs.Panc.{faults, given};
ghost use Rattle.command_words.specs.Words.{action_word, first_name, second_name, Says, Gives, IsOrder};

use crate::command::panc_command;
use crate::error::{WordsError, words_error};
use crate::options::read_options;
use crate::order::{Action, Order};
use clap::ArgMatches;
use pan_base::Text;
use std::alloc::{AllocError, Global};

/// The action of this name on files of these names, if there is such an action and it takes so many.
fn action_on(
    alloc: Global,
    word: &str,
    first: &str,
    second: Option<&str>,
) -> Result<Action, WordsError>
    ensures says { IfOk result (λ action. (word.now ≡ action_word action) × (first.now ≡ first_name action)
        × (option_map (λ name. name.now) second.entry ≡ second_name action)) }
    ensures refused { result ≡ Err WordsError.Usage → (action : GivenAction) → word.now ≡ action_word action
        → ¬ (option_map (λ name. name.now) second.entry ≡ second_name action) }
{
    let first = Text::from_str(alloc, first)?;
    match (word, second) {
        ("compile", Some(second)) => Ok(Action::Compile {
            source: first,
            image: Text::from_str(alloc, second)?,
        }),
        ("check", None) => Ok(Action::Check { source: first }),
        ("run", Some(second)) => Ok(Action::Run {
            image: first,
            script: Text::from_str(alloc, second)?,
        }),
        ("meaning", Some(second)) => Ok(Action::Meaning {
            source: first,
            script: Text::from_str(alloc, second)?,
        }),
        ("show", None) => Ok(Action::Show { source: first }),
        ("dis", None) => Ok(Action::Dis { image: first }),
        ("bound", None) => Ok(Action::Bound { source: first }),
        _ => Err(WordsError::Usage),
    }
}

/// The action that the matches say.
fn read_action(alloc: Global, matches: &ArgMatches<'_>) -> Result<Action, WordsError>
    ensures says { IfOk result (Says (first_value (found_of matches.now))) }
    ensures refused { result ≡ Err WordsError.Usage
        → (action : GivenAction) → ¬ Says (first_value (found_of matches.now)) action }
{
    let word = matches.get_str("ACTION").ok_or(WordsError::Usage)?;
    let first = matches.get_str("FIRST").ok_or(WordsError::Usage)?;
    action_on(alloc, word, first, matches.get_str("SECOND"))
}

/// The order that the matches give.
fn read_order(alloc: Global, matches: &ArgMatches<'_>) -> Result<Order, WordsError>
    ensures says { IfOk result (λ order. Says (first_value (found_of matches.now)) order.action) }
    ensures gives { IfOk result (λ order. Gives (first_value (found_of matches.now)) order.options) }
    ensures refused { result ≡ Err WordsError.Usage → (order : GivenOrder)
        → Says (first_value (found_of matches.now)) order.action → ¬ Gives (first_value (found_of matches.now)) order.options }
{
    let options = read_options(matches).ok_or(WordsError::Usage)?;
    let action = read_action(alloc, matches)?;
    Ok(Order { action, options })
}

/// The words as `clap` takes them.
fn texts_of<'a>(alloc: Global, words: &'a [Text]) -> Result<Vec<&'a str>, AllocError>
    ensures { IfOk result (λ texts. map (λ text. text.now) texts.items ≡ words.now) }
{
    let mut texts = Vec::new(alloc);
    for word in words {
        texts.push(word.as_str())?;
    }
    Ok(texts)
}

/// What `clap` matches, where it finds nothing wrong with the words.
fn match_words<'a>(alloc: Global, words: &'a [&'a str]) -> Result<ArgMatches<'a>, WordsError>
    ensures formed { IfOk result (λ _. faults (map (λ word. word.now) words.now) ≡ []) }
    ensures values { IfOk result (λ matches. (name : List ℕ)
        → first_value (found_of matches) name ≡ given (map (λ word. word.now) words.now) name) }
    ensures refused { result ≡ Err WordsError.Usage → ¬ (faults (map (λ word. word.now) words.now) ≡ []) }
{
    let command = panc_command(alloc)?;
    match command.try_get_matches_from(words) {
        Ok(matches) => Ok(matches),
        Err(error) => Err(words_error(&error)),
    }
}

/// The order that the words of the command line give, the program's own name left out.
///
/// They are an action with the names of its files, `compile SRC IMG`, `check SRC`, `run IMG SCRIPT`, `meaning SRC SCRIPT`,
/// `show SRC`, `dis IMG` or `bound SRC`, and options anywhere among them, each at most once and with one value, as `--name VALUE` or
/// `--name=VALUE`:
/// - `--stack`, bytes of stack: a multiple of 16 and at most 67,108,864; 65,536 where it isn't given;
/// - `--local`, bytes of local memory: a multiple of 8 and at most 67,108,864; 65,536 where it isn't given;
/// - `--steps`, the most instructions of a run, and the fuel of a meaning; 1,000,000 where it isn't given;
/// - `--stage`, `parse` or `code`; `code` where it isn't given.
///
/// A number is decimal digits, or `0x` and hexadecimal digits of either case, below 2^64. A word that begins with `-` is an
/// option, unless it is `-` alone or stands after `--`. All options are checked, also those that the action doesn't use.
///
/// # Errors
///
/// `Usage` for all other words, and `NoMemory` for want of memory.
pub fn read_words(alloc: Global, words: &[Text]) -> Result<Order, WordsError>
    ensures asked { IfOk result (IsOrder words.now) }
    ensures refused { result ≡ Err WordsError.Usage → (order : GivenOrder) → ¬ IsOrder words.now order }
    ensures exact { (order : GivenOrder) → IsOrder words.now order
        → (result ≡ Ok order) ⊎ (result ≡ Err WordsError.NoMemory) }
    ensures exact_usage { ((order : GivenOrder) → ¬ IsOrder words.now order)
        → (result ≡ Err WordsError.Usage) ⊎ (result ≡ Err WordsError.NoMemory) }
{
    let texts = texts_of(alloc, words)?;
    let matches = match_words(alloc, texts.as_slice())?;
    read_order(alloc, &matches)
}
