//! The words of the daemon. They are read by hand: of `clap` a caller knows what each value is once the words were taken, but
//! which words it takes it tells by a walk of its own, with abbreviations of help and version words, counts below zero and
//! values that begin with a dash, which isn't the form here. No call takes memory.

ghost use Rattle.std.specs.Prelude.{◌≡◌, map, Some};
ghost use Rattle.std.specs.List.{list_all};
ghost use Rattle.std.specs.Option.{option_map};
ghost use Rattle.digest_types.specs.Parsing.{is_digit};
ghost use Rattle.casd_daemon.specs.Reads.{reading_view, asked_view};
ghost use Rattle.casd_daemon.specs.Words.{nothing, begins_with_dash, before_sign, after_sign, is_number, number_of, guard_of, with_place, with_setting, with_value, with_plain, with_word, then_words, asked_in, asked_by};

use crate::asked::Asked;
use crate::option::Setting;
use store_core::{Guard, Marks};

/// 1.5 GiB and 2 GiB.
const DEFAULT_LOW: u64 = 1_610_612_736;

const DEFAULT_HIGH: u64 = 2_147_483_648;

/// The highest mark, in bytes.
const MOST_BYTES: u64 = 1 << 62;

/// The most connections of a run.
const MOST_CONNECTIONS: u64 = 1 << 21;

/// What was read so far.
#[derive(Clone, Copy, Debug)]
pub(crate) struct Reading<'a> {
    socket: Option<&'a str>,
    folder: Option<&'a str>,
    low: Option<u64>,
    high: Option<u64>,
    guard: Option<Guard>,
    connections: Option<u64>,
    // the option whose value the next word is
    awaited: Option<Setting>,
    // whether `--` was read
    ended: bool,
}

fn begins_with_dash(word: &str) -> bool
    ensures { result ≡ begins_with_dash word.now }
{
    matches!(word.as_bytes(), [b'-', ..])
}

// What stands before the first `=`, and what follows it.
fn parts(word: &str) -> (&str, Option<&str>)
    ensures name { result.0.now ≡ before_sign word.now }
    ensures value { option_map (λ t. t.now) result.1 ≡ after_sign word.now }
{
    match word.split_once('=') {
        Some((name, value)) => (name, Some(value)),
        None => (word, None),
    }
}

fn are_digits(text: &[u8]) -> bool
    ensures { result ≡ list_all is_digit text.now }
{
    text.iter().all(|c| b'0' <= *c && *c <= b'9')
}

fn is_number(text: &[u8]) -> bool
    ensures { result ≡ is_number text.now }
{
    if text.is_empty() || text.len() > 19 {
        return false;
    }
    are_digits(text)
}

#[tactic(auto, unfolding(crate::specs::Words::number_of))]
fn number_in(text: &str) -> Option<u64>
    ensures { result ≡ number_of text.now }
{
    if !is_number(text.as_bytes()) {
        return None;
    }
    let Ok(number) = text.parse::<u64>() else {
        return None;
    };
    Some(number)
}

#[tactic(auto, unfolding(crate::specs::Words::guard_of))]
fn guard_in(text: &str) -> Option<Guard>
    ensures { result ≡ guard_of text.now }
{
    if text == "leases" {
        return Some(Guard::Leases);
    }
    if text == "session" {
        return Some(Guard::Session);
    }
    None
}

impl<'a> Reading<'a> {
    fn nothing() -> Reading<'a>
        ensures { reading_view result ≡ nothing }
    {
        Reading {
            socket: None,
            folder: None,
            low: None,
            high: None,
            guard: None,
            connections: None,
            awaited: None,
            ended: false,
        }
    }

    fn with_place(mut self, text: &'a str) -> Option<Reading<'a>>
        ensures { option_map reading_view result ≡ with_place (reading_view self.entry) text.now }
    {
        if text.is_empty() {
            return None;
        }
        if self.socket.is_none() {
            self.socket = Some(text);
            return Some(self);
        }
        if self.folder.is_none() {
            self.folder = Some(text);
            return Some(self);
        }
        None
    }

    fn with_setting(mut self, setting: Setting, text: &str) -> Option<Reading<'a>>
        ensures { option_map reading_view result ≡ with_setting (reading_view self.entry) setting text.now }
    {
        match setting {
            Setting::QuotaLow => match (self.low, number_in(text)) {
                (None, Some(low)) => self.low = Some(low),
                _ => return None,
            },
            Setting::QuotaHigh => match (self.high, number_in(text)) {
                (None, Some(high)) => self.high = Some(high),
                _ => return None,
            },
            Setting::Connections => match (self.connections, number_in(text)) {
                (None, Some(connections)) => self.connections = Some(connections),
                _ => return None,
            },
            Setting::Guard => match (self.guard, guard_in(text)) {
                (None, Some(guard)) => self.guard = Some(guard),
                _ => return None,
            },
        }
        self.awaited = None;
        Some(self)
    }

    fn with_value(self, setting: Setting, text: &str) -> Option<Reading<'a>>
        ensures { option_map reading_view result ≡ with_value (reading_view self.entry) setting text.now }
    {
        if begins_with_dash(text) {
            return None;
        }
        self.with_setting(setting, text)
    }

    // A word that is no value of the option before it.
    fn with_plain(mut self, word: &'a str) -> Option<Reading<'a>>
        ensures { option_map reading_view result ≡ with_plain (reading_view self.entry) word.now }
    {
        if self.ended || !begins_with_dash(word) {
            return self.with_place(word);
        }
        if word == "--" {
            self.ended = true;
            return Some(self);
        }
        let (name, value) = parts(word);
        match (Setting::of_name(name.as_bytes()), value) {
            (None, _) => None,
            (Some(setting), None) => {
                self.awaited = Some(setting);
                Some(self)
            }
            (Some(setting), Some(value)) => self.with_value(setting, value),
        }
    }

    fn with_word(self, word: &'a str) -> Option<Reading<'a>>
        ensures { option_map reading_view result ≡ with_word (reading_view self.entry) word.now }
    {
        match self.awaited {
            None => self.with_plain(word),
            Some(setting) => self.with_value(setting, word),
        }
    }

    // What the words ask for, once all were read.
    fn asked(self) -> Option<Asked<'a>>
        ensures { option_map asked_view result ≡ asked_in (Some (reading_view self.entry)) }
    {
        let (Some(socket), Some(folder), None) = (self.socket, self.folder, self.awaited) else {
            return None;
        };
        let low = self.low.unwrap_or(DEFAULT_LOW);
        let high = self.high.unwrap_or(DEFAULT_HIGH);
        let guard = self.guard.unwrap_or(Guard::Leases);
        let connections = self.connections.unwrap_or(MOST_CONNECTIONS);
        if low > high || high > MOST_BYTES || connections == 0 || connections > MOST_CONNECTIONS {
            return None;
        }
        Some(Asked {
            socket,
            folder,
            marks: Marks { low, high, guard },
            connections,
        })
    }
}

// The words from the left. No more than a dozen are read before one is refused.
#[tactic(auto, using(crate::proofs::WordLaws::then_none))]
fn read_all<'a>(reading: Reading<'a>, words: &[&'a str]) -> Option<Reading<'a>>
    ensures { option_map reading_view result ≡ then_words (Some (reading_view reading.entry)) (map (λ w. w.now) words.now) }
{
    let [word, rest @ ..] = words else {
        return Some(reading);
    };
    read_all(reading.with_word(*word)?, rest)
}

/// What the words ask for, or `None` where they aren't of their form.
#[tactic(auto, unfolding(crate::specs::Words::asked_by))]
pub(crate) fn read_words<'a>(words: &[&'a str]) -> Option<Asked<'a>>
    ensures { option_map asked_view result ≡ asked_by (map (λ w. w.now) words.now) }
{
    let [first, rest @ ..] = words else {
        return None;
    };
    if *first != "serve" {
        return None;
    }
    read_all(Reading::nothing(), rest)?.asked()
}
