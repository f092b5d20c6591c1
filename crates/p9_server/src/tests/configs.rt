// Configurations as texts.
use crate::{Config, ConfigTextError};
use std::test::Fail;

// Texts, and whether they fold case, or why they are refused.
const TEXTS: [(&str, Result<bool, ConfigTextError>); 7] = [
    ("", Ok(false)),
    ("ascii_casefold=true", Ok(true)),
    ("ascii_casefold=true:ascii_casefold=false", Ok(false)),
    ("ascii_casefold=yes", Err(ConfigTextError::NotBoolean)),
    ("x", Err(ConfigTextError::NotKindValue)),
    ("x=1", Err(ConfigTextError::UnknownKind)),
    (
        "ascii_casefold=true:x:x=1",
        Err(ConfigTextError::NotKindValue),
    ),
];

#[test]
fn texts_are_read_or_refused(rt: HostRuntime) -> Result<(), Fail> {
    let alloc = rt.alloc();
    for (text, want) in TEXTS {
        let told = match Config::from_text(alloc, text) {
            Ok(config) => Ok(config.ascii_casefold),
            Err(e) => Err(e),
        };
        assert_eq!(rt; told, want);
    }
    Ok(())
}

#[test]
fn errors_of_texts_are_printed(rt: HostRuntime) -> Result<(), Fail> {
    let errors = [
        (
            ConfigTextError::NotKindValue,
            "`cfg` options must be of the form `kind=value`",
        ),
        (
            ConfigTextError::UnknownKind,
            "unrecognized option for p9 config",
        ),
        (
            ConfigTextError::NotBoolean,
            "`ascii_casefold` must be a boolean",
        ),
        (ConfigTextError::NoMemory, "no memory"),
    ];
    for (error, want) in errors {
        let printed = format!(in rt.alloc(); "{error}")?;
        assert_eq!(rt; printed.as_str(), want);
        assert_eq!(rt; error.text(), want);
    }
    Ok(())
}
