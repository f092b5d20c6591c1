// Configurations as JSON values.
use crate::{Config, ConfigJsonError};
use serde_json::Value;
use std::alloc::Global;
use std::test::Fail;

// What is written of a configuration of the root `/a` with pairs of owners.
const WRITTEN: &str = "{\"ascii_casefold\":true,\"fid_limit\":4294967295,\"gid_map\":{},\
\"msize\":65560,\"root\":\"/a\",\"uid_map\":{\"10\":4294967295,\"9\":0}}";

// Values that are refused: by the first key that is missing or of another kind, and for a further
// key.
const REFUSED: [(&str, ConfigJsonError); 14] = [
    ("[]", ConfigJsonError::NotObject),
    ("{}", ConfigJsonError::Key(1)),
    ("{\"root\":1}", ConfigJsonError::Key(1)),
    ("{\"root\":\"/\"}", ConfigJsonError::Key(2)),
    ("{\"root\":\"/\",\"msize\":1.5}", ConfigJsonError::Key(2)),
    ("{\"root\":\"/\",\"msize\":-1}", ConfigJsonError::Key(2)),
    (
        "{\"root\":\"/\",\"msize\":4294967296}",
        ConfigJsonError::Key(2),
    ),
    (
        "{\"root\":\"/\",\"msize\":1,\"uid_map\":[]}",
        ConfigJsonError::Key(3),
    ),
    (
        "{\"root\":\"/\",\"msize\":1,\"uid_map\":{\"01\":1}}",
        ConfigJsonError::Key(3),
    ),
    (
        "{\"root\":\"/\",\"msize\":1,\"uid_map\":{\"4294967296\":1}}",
        ConfigJsonError::Key(3),
    ),
    (
        "{\"root\":\"/\",\"msize\":1,\"uid_map\":{},\"gid_map\":{\"1\":true}}",
        ConfigJsonError::Key(4),
    ),
    (
        "{\"root\":\"/\",\"msize\":1,\"uid_map\":{},\"gid_map\":{}}",
        ConfigJsonError::Key(5),
    ),
    (
        "{\"root\":\"/\",\"msize\":1,\"uid_map\":{},\"gid_map\":{},\"ascii_casefold\":true,\"x\":1}",
        ConfigJsonError::Key(6),
    ),
    (
        "{\"root\":\"/\",\"msize\":1,\"uid_map\":{},\"gid_map\":{},\"ascii_casefold\":true,\"fid_limit\":1,\"x\":1}",
        ConfigJsonError::UnknownKey,
    ),
];

// The value of a text.
fn value_of(alloc: Global, text: &str) -> Result<Value, Fail> {
    match Value::from_str(alloc, text) {
        Ok(value) => Ok(value),
        Err(_) => Err(Fail::from("no value")),
    }
}

fn with_pairs(alloc: Global) -> Result<Config, Fail> {
    let Ok(mut config) = Config::standard(alloc) else {
        return Err(Fail::from("out of memory"));
    };
    config.root = Vec::from_slice(alloc, b"/a")?;
    config.ascii_casefold = true;
    config.uid_map.insert(9, 0)?;
    config.uid_map.insert(10, u32::MAX)?;
    Ok(config)
}

#[test]
fn a_configuration_is_written_and_read_back(rt: HostRuntime) -> Result<(), Fail> {
    let alloc = rt.alloc();
    let Ok(value) = with_pairs(alloc)?.to_json(alloc) else {
        return Err(Fail::from("not written"));
    };
    assert_eq!(rt; value.to_string(alloc)?.as_str(), WRITTEN);
    let Ok(config) = Config::from_json(alloc, &value) else {
        return Err(Fail::from("not read"));
    };
    let Ok(again) = config.to_json(alloc) else {
        return Err(Fail::from("not written again"));
    };
    assert_eq!(rt; again.to_string(alloc)?.as_str(), WRITTEN);
    Ok(())
}

#[test]
fn other_values_are_refused(rt: HostRuntime) -> Result<(), Fail> {
    let alloc = rt.alloc();
    for (text, want) in REFUSED {
        let value = value_of(alloc, text)?;
        let told = match Config::from_json(alloc, &value) {
            Ok(_config) => None,
            Err(e) => Some(e),
        };
        assert_eq!(rt; told, Some(want));
    }
    Ok(())
}

#[test]
fn a_root_that_is_no_text_is_refused(rt: HostRuntime) -> Result<(), Fail> {
    let alloc = rt.alloc();
    let mut config = with_pairs(alloc)?;
    config.root = Vec::from_slice(alloc, b"/\xff")?;
    let told = match config.to_json(alloc) {
        Ok(_value) => None,
        Err(e) => Some(e),
    };
    assert_eq!(rt; told, Some(ConfigJsonError::Root));
    Ok(())
}

#[test]
fn errors_of_values_are_printed(rt: HostRuntime) -> Result<(), Fail> {
    let errors = [
        (ConfigJsonError::Root, "the root isn't UTF-8"),
        (ConfigJsonError::NotObject, "a configuration is an object"),
        (
            ConfigJsonError::Key(2),
            "key 2 of a configuration is missing or of another kind",
        ),
        (
            ConfigJsonError::UnknownKey,
            "an unknown key in a configuration",
        ),
        (ConfigJsonError::NoMemory, "no memory"),
    ];
    for (error, want) in errors {
        let printed = format!(in rt.alloc(); "{error}")?;
        assert_eq!(rt; printed.as_str(), want);
    }
    Ok(())
}
