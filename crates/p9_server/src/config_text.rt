//! A configuration as a text.
ghost use Rattle.std.specs.Prelude.{◌≡◌, ◌==◌, Ok, IfOk};
ghost use Rattle.std.specs.Result.{result_map_both};
ghost use Rattle.p9_server.specs.Configs.{configuration};
ghost use Rattle.p9_server.specs.ConfigTexts.{boolean_of, part_value, with_part, casefold_of};
ghost use Rattle.p9_server.specs.ConfigTexts.{config_of_text, error_text, TextGives};

use crate::config::Config;
use std::alloc::Global;
use thiserror::Error;

const NOT_KIND_VALUE: &str = "`cfg` options must be of the form `kind=value`";

const UNKNOWN_KIND: &str = "unrecognized option for p9 config";

const NOT_BOOLEAN: &str = "`ascii_casefold` must be a boolean";

const NO_MEMORY: &str = "no memory";

/// Why a text is no configuration.
#[derive(Clone, Copy, Debug, Drop, Error, PartialEq, Eq)]
pub enum ConfigTextError {
    /// A part has no `=`.
    #[error("{}", NOT_KIND_VALUE)]
    NotKindValue,
    /// A part's kind isn't `ascii_casefold`.
    #[error("{}", UNKNOWN_KIND)]
    UnknownKind,
    /// A part's value is neither `true` nor `false`.
    #[error("{}", NOT_BOOLEAN)]
    NotBoolean,
    /// Out of memory.
    #[error("{}", NO_MEMORY)]
    NoMemory,
}

impl ConfigTextError {
    /// What the error prints.
    pub fn text(&self) -> &'static str
        ensures { result.now ≡ error_text self.now }
    {
        match self {
            ConfigTextError::NotKindValue => NOT_KIND_VALUE,
            ConfigTextError::UnknownKind => UNKNOWN_KIND,
            ConfigTextError::NotBoolean => NOT_BOOLEAN,
            ConfigTextError::NoMemory => NO_MEMORY,
        }
    }
}

/// The value that is written `true` or `false`.
pub fn boolean_of(value: &[u8]) -> Option<bool>
    ensures { result ≡ boolean_of value.now }
{
    if value == b"true".as_slice() {
        Some(true)
    } else if value == b"false".as_slice() {
        Some(false)
    } else {
        None
    }
}

// The value of a part.
fn part_value(part: &[u8]) -> Result<bool, ConfigTextError>
    ensures { result ≡ part_value part.now }
{
    if !part.contains(&b'=') {
        return Err(ConfigTextError::NotKindValue);
    }
    let Some(value) = part.strip_prefix(b"ascii_casefold=".as_slice()) else {
        return Err(ConfigTextError::UnknownKind);
    };
    boolean_of(value).ok_or(ConfigTextError::NotBoolean)
}

// One more part, where none so far was bad.
fn with_part(read: Result<bool, ConfigTextError>, part: &[u8]) -> Result<bool, ConfigTextError>
    ensures { result ≡ with_part read part.now }
{
    read?;
    part_value(part)
}

// The last value of a text's parts, or why the first bad one is refused.
fn casefold_of(text: &[u8]) -> Result<bool, ConfigTextError>
    ensures { result ≡ casefold_of text.now }
{
    let mut read = Ok(false);
    if text.is_empty() {
        return read;
    }
    for part in text.split(|b| *b == b':') {
        read = with_part(read, part);
    }
    read
}

impl Config {
    /// The standard configuration, changed as a text tells: parts `ascii_casefold=true` or
    /// `ascii_casefold=false` with a colon between each two, of which the last counts. An empty text
    /// changes nothing. The first bad part is refused: `NotKindValue` where it has no `=`,
    /// `UnknownKind` where its kind isn't `ascii_casefold`, `NotBoolean` where its value is neither
    /// `true` nor `false`.
    pub fn from_text(alloc: Global, text: &str) -> Result<Config, ConfigTextError>
        ensures { TextGives (config_of_text text.now)
            (result_map_both configuration (λ e. e) result) }
    {
        let ascii_casefold = casefold_of(text.as_bytes())?;
        let standard = Config::standard(alloc).map_err(|_| ConfigTextError::NoMemory)?;
        Ok(Config {
            ascii_casefold,
            ..standard
        })
    }
}
