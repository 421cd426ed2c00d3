//! What the words after the command set.

ghost use Rattle.std.specs.Prelude.{◌≡◌, IfOk, map, option_map, string_bytes};
ghost use Rattle.command_words.specs.Settings.{are_once, attached, flag_of, found, option_of, setting_of, settings_of};

use fc_values::{Memory, number};
use std::alloc::Global;

/// A word that sets something by itself.
#[derive(Clone, Copy, Debug, PartialEq, Eq)]
pub enum Flag {
    Facts,
    Settle,
    FromTable,
    Changes,
    Log,
    Table,
    Rounds,
}

/// An option that takes a number.
#[derive(Clone, Copy, Debug, PartialEq, Eq)]
pub enum Numbered {
    Workers,
    Devices,
    Number,
}

/// What a command can take.
#[derive(Clone, Copy, Debug, PartialEq, Eq)]
pub enum Kind {
    Flag(Flag),
    Option(Numbered),
    /// A number that stands alone.
    Alone,
}

/// What a word sets, or two.
#[derive(Clone, Copy, Debug, PartialEq, Eq)]
pub enum Setting {
    Flag(Flag),
    /// An option with its number.
    Option(Numbered, u32),
    /// A number that stands alone.
    Alone(u32),
}

const FLAGS: [Flag; 7] = [
    Flag::Facts,
    Flag::Settle,
    Flag::FromTable,
    Flag::Changes,
    Flag::Log,
    Flag::Table,
    Flag::Rounds,
];

const OPTIONS: [Numbered; 3] = [Numbered::Workers, Numbered::Devices, Numbered::Number];

impl Flag {
    ghost use Rattle.std.specs.Prelude.{◌≡◌};
    ghost use Rattle.command_words.specs.Settings.{flag_name, hyphened};

    /// The name, as `clap` knows it.
    pub fn name<'a>(self) -> &'a str
        ensures { result.now ≡ flag_name self }
    {
        match self {
            Flag::Facts => "facts",
            Flag::Settle => "settle",
            Flag::FromTable => "from-table",
            Flag::Changes => "changes",
            Flag::Log => "log",
            Flag::Table => "table",
            Flag::Rounds => "rounds",
        }
    }

    // The word of a command line.
    fn word(self) -> &'static str
        ensures { result.now ≡ hyphened (flag_name self) }
    {
        match self {
            Flag::Facts => "--facts",
            Flag::Settle => "--settle",
            Flag::FromTable => "--from-table",
            Flag::Changes => "--changes",
            Flag::Log => "--log",
            Flag::Table => "--table",
            Flag::Rounds => "--rounds",
        }
    }
}

impl Numbered {
    ghost use Rattle.std.specs.Prelude.{◌≡◌};
    ghost use Rattle.command_words.specs.Settings.{hyphened, option_name};

    /// The name, as `clap` knows it.
    pub fn name<'a>(self) -> &'a str
        ensures { result.now ≡ option_name self }
    {
        match self {
            Numbered::Workers => "workers",
            Numbered::Devices => "devices",
            Numbered::Number => "number",
        }
    }

    // The word of a command line.
    fn word(self) -> &'static str
        ensures { result.now ≡ hyphened (option_name self) }
    {
        match self {
            Numbered::Workers => "--workers",
            Numbered::Devices => "--devices",
            Numbered::Number => "--number",
        }
    }
}

impl Kind {
    ghost use Rattle.std.specs.Prelude.{◌≡◌};
    ghost use Rattle.command_words.specs.Settings.{id_of};

    /// The name by which `clap` knows it.
    pub fn id<'a>(self) -> &'a str
        ensures { result.now ≡ id_of self }
    {
        match self {
            Kind::Flag(flag) => flag.name(),
            Kind::Option(option) => option.name(),
            Kind::Alone => "alone",
        }
    }
}

impl Setting {
    ghost use Rattle.std.specs.Prelude.{◌≡◌};
    ghost use Rattle.command_words.specs.Settings.{kind_of, number_in};

    /// What is set.
    pub fn kind(self) -> Kind
        ensures { result ≡ kind_of self }
    {
        match self {
            Setting::Flag(flag) => Kind::Flag(flag),
            Setting::Option(option, _) => Kind::Option(option),
            Setting::Alone(_) => Kind::Alone,
        }
    }

    /// The number that it is set to.
    pub fn number(self) -> Option<u32>
        ensures { result ≡ number_in self }
    {
        match self {
            Setting::Flag(_) => None,
            Setting::Option(_, number) => Some(number),
            Setting::Alone(number) => Some(number),
        }
    }
}

// The flag that a word is.
#[tactic(auto, unfolding(crate::specs::Settings::flag_of))]
fn named_flag(word: &str) -> Option<Flag>
    ensures { result ≡ flag_of word.now }
{
    FLAGS.iter().copied().find(|flag| flag.word() == word)
}

// The option that a word names.
#[tactic(auto, unfolding(crate::specs::Settings::option_of))]
fn named_option(word: &str) -> Option<Numbered>
    ensures { result ≡ option_of word.now }
{
    OPTIONS.iter().copied().find(|option| option.word() == word)
}

// The option and the number of a word such as `--workers=4`.
fn attached_option(word: &str) -> Option<Setting>
    ensures { result ≡ attached word.now }
{
    let (name, digits) = word.split_once('=')?;
    let option = named_option(name)?;
    let value = number(digits.as_bytes())?;
    Some(Setting::Option(option, value))
}

// What one word sets.
fn set_by(word: &str) -> Option<Setting>
    ensures { result ≡ setting_of word.now }
{
    if let Some(flag) = named_flag(word) {
        return Some(Setting::Flag(flag));
    }
    if let Some(option) = attached_option(word) {
        return Some(option);
    }
    match number(word.as_bytes()) {
        Some(value) => Some(Setting::Alone(value)),
        None => None,
    }
}

/// What the words set, if each of them sets something.
pub fn settings(alloc: Global, words: &[String]) -> Result<Option<Vec<Setting>>, Memory>
    ensures { IfOk result (λ settings. option_map (λ s. s.items) settings ≡ settings_of (map string_bytes words.now)) }
{
    let mut settings = Vec::new(alloc);
    let mut waiting = None;
    'words: for word in words {
        if let Some(option) = waiting {
            let Some(value) = number(word.as_bytes()) else {
                return Ok(None);
            };
            settings.push(Setting::Option(option, value))?;
            waiting = None;
        } else if let Some(option) = named_option(word.as_str()) {
            waiting = Some(option);
        } else {
            let Some(setting) = set_by(word.as_str()) else {
                return Ok(None);
            };
            settings.push(setting)?;
        }
    }
    if waiting.is_some() {
        return Ok(None);
    }
    Ok(Some(settings))
}

/// The first setting of a kind.
#[tactic(auto, unfolding(crate::specs::Settings::found))]
pub fn found(settings: &[Setting], kind: Kind) -> Option<Setting>
    ensures { result ≡ found kind settings.now }
{
    settings
        .iter()
        .copied()
        .find(|setting| setting.kind().id() == kind.id())
}

/// Whether nothing is set twice.
pub fn are_once(settings: &[Setting]) -> bool
    ensures { result ≡ are_once settings.now }
{
    let mut rest = settings;
    'rest: while let Some((first, more)) = rest.split_first() {
        if found(more, first.kind()).is_some() {
            return false;
        }
        rest = more;
    }
    true
}
