//! The words of a trial.
use crate::fault::TrialFault;
use crate::trial::{Trial, TrialCoin, TrialSetting};
use gate_lines::{read_number, read_small_number};
use gate_register::Setting;
use gate_release::Release;
use std::alloc::{AllocError, Global};

/// The words of `--coin`.
const COIN: &str = "TXID:N,VALUE,HEIGHT,SCRIPT";

fn usage(text: Result<String, AllocError>) -> TrialFault {
    match text {
        Ok(text) => TrialFault::Usage(text),
        Err(_) => TrialFault::Memory,
    }
}

/// The number that a word behind an option says.
fn number_in(alloc: Global, option: &str, word: &str, what: &str) -> Result<u32, TrialFault> {
    match read_small_number(word) {
        Some(number) => Ok(number),
        None => Err(usage(format!(in alloc; "\"{word}\" behind {option} is not {what}"))),
    }
}

/// `TXID:N,VALUE,HEIGHT,SCRIPT`, and `,cb` behind it for a coin of a coinbase.
fn coin_in<'a>(alloc: Global, word: &'a str) -> Result<TrialCoin<'a>, TrialFault> {
    let mut parts = word.split(',');
    let outpoint = parts.next().unwrap_or("");
    let (Some(value), Some(height), Some(script)) = (parts.next(), parts.next(), parts.next())
    else {
        return Err(usage(format!(in alloc; "\"{word}\" is no coin; expected {COIN}")));
    };
    let is_coinbase = match parts.next() {
        None => false,
        Some("cb") => true,
        Some(other) => {
            return Err(usage(format!(in alloc;
                "\"{other}\" behind a coin is unknown; expected cb, for a coin of a coinbase"
            )));
        }
    };
    let is_whole = parts.next().is_none();
    match outpoint.split_once(':') {
        Some((txid, index)) if is_whole => Ok(TrialCoin {
            txid,
            index,
            value,
            height,
            script,
            is_coinbase,
        }),
        _ => Err(usage(format!(in alloc; "\"{word}\" is no coin; expected {COIN}"))),
    }
}

/// The words of all releases, in their order.
fn release_words(alloc: Global) -> Result<String, AllocError> {
    let mut words = String::new(alloc);
    for release in Release::all() {
        if !words.is_empty() {
            words.push_str(", ")?;
        }
        words.push_str(release.word())?;
    }
    Ok(words)
}

/// The release that a word names.
fn release_in(alloc: Global, word: &str) -> Result<Release, TrialFault> {
    match Release::from_word(word) {
        Some(release) => Ok(release),
        None => {
            let words = release_words(alloc)?;
            Err(usage(format!(in alloc;
                "\"{word}\" behind --policy is no release; expected one of {words}"
            )))
        }
    }
}

/// `WORD=NUMBER`: a setting, with a number that it may have.
fn setting_in(alloc: Global, said: &str) -> Result<TrialSetting, TrialFault> {
    let Some((word, number)) = said.split_once('=') else {
        return Err(usage(format!(in alloc;
            "\"{said}\" behind --set is no setting; expected WORD=NUMBER"
        )));
    };
    let Some(setting) = Setting::from_word(word) else {
        return Err(usage(format!(in alloc;
            "no setting is named \"{word}\"; gate settings lists them"
        )));
    };
    match read_number(number) {
        Some(number) if setting.allows(number) => Ok(TrialSetting { setting, number }),
        _ => {
            let row = setting.row();
            Err(usage(format!(in alloc;
                "\"{number}\" is not what {word} may be: a number from {} to {}",
                row.least, row.most
            )))
        }
    }
}

/// Whether a word is a verdict on scripts.
fn is_verdict(word: &str) -> bool {
    word == "ok" || word == "soft" || word == "hard"
}

/// Takes an option with its value into a trial.
fn take_option<'a>(
    alloc: Global,
    trial: &mut Trial<'a>,
    option: &str,
    value: &'a str,
) -> Result<(), TrialFault> {
    match option {
        "--coin" => trial.coins.push(coin_in(alloc, value)?)?,
        "--policy" => trial.policy = Some(release_in(alloc, value)?),
        "--set" => trial.settings.push(setting_in(alloc, value)?)?,
        "--tip" => trial.tip = number_in(alloc, option, value, "a height")?,
        "--time" => trial.time = number_in(alloc, option, value, "a second since 1970")?,
        "--psbt" => trial.psbt = Some(value),
        "--height" => trial.height = number_in(alloc, option, value, "a height")?,
        _ => {
            if !is_verdict(value) {
                return Err(usage(format!(in alloc;
                    "\"{value}\" behind {option} is unknown; expected ok, soft or hard"
                )));
            }
            trial.verdict = value;
        }
    }
    Ok(())
}

/// Whether a word has white space, which would end a word or a line of the text.
fn has_space(word: &str) -> bool {
    word.chars().any(|character| character.is_whitespace())
}

fn takes_value(option: &str) -> bool {
    option == "--coin"
        || option == "--policy"
        || option == "--set"
        || option == "--tip"
        || option == "--time"
        || option == "--verdict"
        || option == "--psbt"
        || option == "--height"
}

/// Which options were given, of those that are needed.
#[derive(Clone, Copy)]
struct GivenOptions {
    tip: bool,
    psbt: bool,
    height: bool,
}

/// The options that were given, with one more.
fn with_option(given: GivenOptions, option: &str) -> GivenOptions {
    GivenOptions {
        tip: given.tip || option == "--tip",
        psbt: given.psbt || option == "--psbt",
        height: given.height || option == "--height",
    }
}

/// What is wrong with the value of an option, if something is. The name of a file is no word of the text, and may have spaces.
fn misused(alloc: Global, given: GivenOptions, option: &str, value: &str) -> Option<TrialFault> {
    if option != "--psbt" {
        if has_space(value) {
            return Some(usage(format!(in alloc; "\"{value}\" is more than one word")));
        }
        return None;
    }
    if given.psbt {
        return Some(usage(format!(in alloc; "--psbt may be given once")));
    }
    None
}

/// What is wrong with words that were read, if something is lacking or too much.
fn lack<'a>(alloc: Global, trial: &Trial<'a>, given: GivenOptions) -> Option<TrialFault> {
    if trial.transactions.is_empty() && !given.psbt {
        return Some(usage(format!(in alloc;
            "a transaction is required, in hexadecimal digits, or a PSBT by --psbt"
        )));
    }
    if !given.tip {
        return Some(usage(format!(in alloc;
            "--tip is required: the height of the chain's last block"
        )));
    }
    if given.psbt && !given.height {
        return Some(usage(format!(in alloc;
            "--height is required with --psbt: the height of the PSBT's coins"
        )));
    }
    if given.height && !given.psbt {
        return Some(usage(format!(in alloc;
            "--height is the height of a PSBT's coins: --psbt is required with it"
        )));
    }
    None
}

/// The fault of an option that there isn't.
fn unexpected(alloc: Global, word: &str) -> TrialFault {
    usage(format!(in alloc; "unexpected option {word}"))
}

/// Reads the words behind `try` as a trial, at this second if they name none. `--tip` has to be there, and a transaction or a
/// PSBT with the height of its coins, which are not read here.
pub fn read_trial<'a>(alloc: Global, words: &[&'a str], now: u32) -> Result<Trial<'a>, TrialFault> {
    let mut trial = Trial::new(alloc, now);
    let mut given = GivenOptions {
        tip: false,
        psbt: false,
        height: false,
    };
    let mut place = 0;
    while place < words.len() {
        let word = words[place];
        place += 1;
        if has_space(word) {
            return Err(usage(format!(in alloc; "\"{word}\" is more than one word")));
        }
        if word == "--json" {
            trial.json = true;
        } else if takes_value(word) {
            if place >= words.len() {
                return Err(usage(format!(in alloc; "a value is required for {word}")));
            }
            let value = words[place];
            place += 1;
            if let Some(fault) = misused(alloc, given, word, value) {
                return Err(fault);
            }
            given = with_option(given, word);
            take_option(alloc, &mut trial, word, value)?;
        } else if word.starts_with('-') {
            return Err(unexpected(alloc, word));
        } else {
            trial.transactions.push(word)?;
        }
    }
    match lack(alloc, &trial, given) {
        Some(fault) => Err(fault),
        None => Ok(trial),
    }
}
