//! A configuration as a JSON value.
ghost use Rattle.std.specs.Prelude.{◌≡◌, ◌<◌, ◌^◌, true, ok_or, codes, IfOk, IfErr};
ghost use Rattle.std.specs.Prelude.{if◌then◌else◌, Ok};
ghost use Rattle.std.specs.BTreeMap.{IsOrdered};
ghost use Rattle.std.specs.Ordering.{nat_cmp};
ghost use Rattle.std.specs.Str.{is_utf8};
ghost use Rattle.std.specs.FinMap as map;
ghost use Rattle.serde_json.specs.View.{view, members_view};
ghost use Rattle.serde_json.specs.Find.{as_str, as_object, as_bool};
ghost use Rattle.p9_server.specs.Configs.{configuration};
ghost use Rattle.p9_server.specs.ConfigJsons.{ids_json, config_json, below_32, u32_of, id_of};
ghost use Rattle.p9_server.specs.ConfigJsons.{AreNumbers};
ghost use Rattle.p9_server.specs.ConfigJsons.{ids_of, ids_from, key_of, config_of, JsonGives};
ghost use Rattle.p9_server.specs.ConfigJsons.{check_object, check_members};
ghost use Rattle.p9_server.specs.declared.config_json.ConfigJsonError.TheVariants as error;

use crate::config::Config;
use crate::share::ServerIdMap;
use port_base::decimals::number_of;
use serde_json::{Map, Value, json, put};
use std::alloc::{AllocError, AllocFailed, Global};
use std::collections::BTreeMap;
use thiserror::Error;

/// Why a configuration has no JSON value, or a JSON value tells no configuration.
#[derive(Clone, Copy, Debug, Drop, Error, PartialEq, Eq)]
pub enum ConfigJsonError {
    /// The root isn't UTF-8.
    #[error("the root isn't UTF-8")]
    Root,
    /// The value is no object.
    #[error("a configuration is an object")]
    NotObject,
    /// The key with this number, from 1 in the order of the fields, is missing, or its value is of
    /// another kind.
    #[error("key {0} of a configuration is missing or of another kind")]
    Key(u32),
    /// There is a key that isn't a field.
    #[error("an unknown key in a configuration")]
    UnknownKey,
    /// Out of memory.
    #[error("no memory")]
    NoMemory,
}

impl From<AllocError> for ConfigJsonError {
    ghost from_gives = { λ _ e. e ≡ error.NoMemory };

    fn from(_: AllocError) -> Self {
        ConfigJsonError::NoMemory
    }
}

impl<T: Drop> From<AllocFailed<T>> for ConfigJsonError {
    ghost from_gives = { λ _ e. e ≡ error.NoMemory };

    fn from(_: AllocFailed<T>) -> Self {
        ConfigJsonError::NoMemory
    }
}

// ---- writing

// The pairs by decimal keys.
fn ids_json(alloc: Global, ids: &ServerIdMap<u32>) -> Result<Value, AllocError>
    ensures written { IfOk result (λ v. view v ≡ ids_json ids.now.entries) }
    ensures numbers { IfOk result (λ _. AreNumbers ids.now.entries) }
    ensures ordered { IfOk result (λ _. IsOrdered nat_cmp ids.now) }
{
    let mut members = Map::new(alloc);
    for (id, shown) in ids.iter() {
        let (id, shown) = (*id, *shown);
        let key = id.to_string(alloc)?;
        put(&mut members, alloc, key.as_str(), Value::from(shown))?;
    }
    Ok(Value::Object(members))
}

fn config_json(alloc: Global, config: &Config, root: &str) -> Result<Value, AllocError>
    requires { root.now ≡ config.now.root.items }
    ensures written { IfOk result (λ v. view v ≡ config_json config.now) }
    ensures sizes { IfOk result
        (λ _. (config.now.msize < 2 ^ 32) × (config.now.fid_limit < 2 ^ 32)) }
    ensures users { IfOk result (λ _. AreNumbers config.now.uid_map.entries
        × IsOrdered nat_cmp config.now.uid_map) }
    ensures groups { IfOk result (λ _. AreNumbers config.now.gid_map.entries
        × IsOrdered nat_cmp config.now.gid_map) }
{
    let uid_map = ids_json(alloc, &config.uid_map)?;
    let gid_map = ids_json(alloc, &config.gid_map)?;
    json!(in alloc; {
        "root": root,
        "msize": config.msize,
        "uid_map": uid_map,
        "gid_map": gid_map,
        "ascii_casefold": config.ascii_casefold,
        "fid_limit": config.fid_limit
    })
}

// ---- reading

fn below_32(n: u64) -> Option<u32>
    ensures { result ≡ below_32 n }
{
    if n <= u32::MAX as u64 {
        Some(n as u32)
    } else {
        None
    }
}

// A number below 2^32.
fn u32_of(value: &Value) -> Option<u32>
    ensures { result ≡ u32_of (view value.now) }
{
    value.as_u64().and_then(below_32)
}

// The owner that a key writes.
fn id_of(key: &str) -> Option<u32>
    ensures { result ≡ id_of key.now }
{
    match number_of(key.as_bytes()) {
        Some(n) => below_32(n),
        None => None,
    }
}

// The pairs of an object, where each is one; the object is the value of the key with this number.
fn ids_from(
    alloc: Global,
    object: &Map<String, Value>,
    key: u32,
) -> Result<ServerIdMap<u32>, ConfigJsonError>
    ensures { JsonGives (λ ids. map.from_entries ids.entries) result
        (ok_or (ids_from map.empty (members_view object.now.entries)) (error.Key key)) }
{
    let mut ids = BTreeMap::new(alloc);
    for (name, shown) in object {
        let Some(id) = id_of(name.as_str()) else {
            return Err(ConfigJsonError::Key(key));
        };
        let Some(shown) = u32_of(shown) else {
            return Err(ConfigJsonError::Key(key));
        };
        ids.insert(id, shown)?;
    }
    Ok(ids)
}

// The pairs of a map of owners.
fn ids_of(
    alloc: Global,
    config: &Value,
    name: &str,
    key: u32,
) -> Result<ServerIdMap<u32>, ConfigJsonError>
    ensures { JsonGives (λ ids. map.from_entries ids.entries) result
        (key_of key ids_of name.now (view config.now)) }
{
    let Some(object) = config.get(name).and_then(Value::as_object) else {
        return Err(ConfigJsonError::Key(key));
    };
    ids_from(alloc, object, key)
}

fn number_at(config: &Value, name: &str, key: u32) -> Result<u32, ConfigJsonError>
    ensures { JsonGives (λ n. n) result (key_of key u32_of name.now (view config.now)) }
{
    config
        .get(name)
        .and_then(u32_of)
        .ok_or(ConfigJsonError::Key(key))
}

fn folds_case(config: &Value) -> Result<bool, ConfigJsonError>
    ensures { JsonGives (λ b. b) result
        (key_of 5 as_bool (codes "ascii_casefold") (view config.now)) }
{
    config
        .get("ascii_casefold")
        .and_then(Value::as_bool)
        .ok_or(ConfigJsonError::Key(5))
}

fn root_of(alloc: Global, config: &Value) -> Result<Vec<u8>, ConfigJsonError>
    ensures { JsonGives (λ root. root.items) result
        (key_of 1 as_str (codes "root") (view config.now)) }
{
    let Some(root) = config.get("root").and_then(Value::as_str) else {
        return Err(ConfigJsonError::Key(1));
    };
    Ok(Vec::from_slice(alloc, root.as_bytes())?)
}

// That there are no more keys than fields.
fn check_members(config: &Value) -> Result<(), ConfigJsonError>
    ensures { JsonGives (λ u. u) result (check_members (as_object (view config.now))) }
{
    match config.as_object() {
        Some(object) => {
            if object.len() > 6 {
                Err(ConfigJsonError::UnknownKey)
            } else {
                Ok(())
            }
        }
        None => Err(ConfigJsonError::NotObject),
    }
}

fn check_object(config: &Value) -> Result<(), ConfigJsonError>
    ensures { JsonGives (λ u. u) result (check_object (as_object (view config.now))) }
{
    if config.as_object().is_none() {
        return Err(ConfigJsonError::NotObject);
    }
    Ok(())
}

impl Config {
    /// An object with the names of the fields as keys; a map of owners is an object with decimal
    /// keys. `Root` where the root isn't UTF-8.
    pub fn to_json(&self, alloc: Global) -> Result<Value, ConfigJsonError>
        ensures json { IfOk result (λ v. (is_utf8 self.now.root.items ≡ true)
            × (view v ≡ config_json self.now)) }
        ensures read { IfOk result (λ v. config_of (view v) ≡ Ok (configuration self.now)) }
        ensures refused { IfErr result (λ e.
            e ≡ if is_utf8 self.now.root.items then error.NoMemory else error.Root) }
    {
        let Ok(root) = std::str::from_utf8(&self.root) else {
            return Err(ConfigJsonError::Root);
        };
        match config_json(alloc, self, root) {
            Ok(value) => Ok(value),
            Err(_) => Err(ConfigJsonError::NoMemory),
        }
    }

    /// The configuration that an object tells: `NotObject` for what is none, then `Key` for the
    /// first field whose key is missing or has a value of another kind (a number is whole and below
    /// 2^32, an owner's key canonical decimal), then `UnknownKey` for a further key.
    #[tactic(auto, unfolding(crate::specs::ConfigJsons::config_of))]
    pub fn from_json(alloc: Global, value: &Value) -> Result<Config, ConfigJsonError>
        ensures { JsonGives configuration result (config_of (view value.now)) }
    {
        check_object(value)?;
        let root = root_of(alloc, value)?;
        let msize = number_at(value, "msize", 2)?;
        let uid_map = ids_of(alloc, value, "uid_map", 3)?;
        let gid_map = ids_of(alloc, value, "gid_map", 4)?;
        let ascii_casefold = folds_case(value)?;
        let fid_limit = number_at(value, "fid_limit", 6)?;
        check_members(value)?;
        Ok(Config {
            root,
            msize,
            uid_map,
            gid_map,
            ascii_casefold,
            fid_limit,
        })
    }
}
