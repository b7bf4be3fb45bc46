ghost use Rattle.std.specs.Prelude.{◌≡◌, ◌++◌, IfOk, codes, string_bytes};
ghost use Rattle.config_text.specs.Faults.{Gives, given};
ghost use Rattle.config_text.specs.Members.{at, item_path, key_path, own_path};

use crate::fault::ConfigFault;
use serde_json::Value;
use std::alloc::{AllocError, Global};

/// Where a value stands.
#[derive(Clone, Copy)]
pub enum Path<'a> {
    /// The whole text.
    Whole,
    /// At a path of its own.
    Named(&'a str),
    /// In the list with this path, at this index.
    Item(&'a str, usize),
}

/// A value and where it stands. A path is spelled out only where it is needed.
#[derive(Clone, Copy)]
pub struct Place<'a> {
    pub alloc: Global,
    pub path: Path<'a>,
    pub value: &'a Value,
}

/// `LIST[INDEX]`.
fn item_path(alloc: Global, list: &str, index: usize) -> Result<String, AllocError>
    ensures { IfOk result (λ path. string_bytes path ≡ item_path list.now index) }
{
    format!(in alloc; "{list}[{index}]")
}

/// `PATH.KEY`.
fn path_within(alloc: Global, path: &str, key: &str) -> Result<String, AllocError>
    ensures { IfOk result (λ path_of_key. string_bytes path_of_key ≡ path.now ++ codes "." ++ key.now) }
{
    format!(in alloc; "{path}.{key}")
}

impl<'a> Place<'a> {
    /// The value's own path.
    fn own_path(&self) -> Result<String, AllocError>
        ensures { IfOk result (λ path. string_bytes path ≡ own_path (at self.now).path) }
    {
        match self.path {
            Path::Whole => Ok(String::new(self.alloc)),
            Path::Named(path) => String::from_str(self.alloc, path),
            Path::Item(list, index) => item_path(self.alloc, list, index),
        }
    }

    /// The path of the value at a key.
    pub fn key_path(&self, key: &str) -> Result<String, AllocError>
        ensures { IfOk result (λ path. string_bytes path ≡ key_path (at self.now).path key.now) }
    {
        match self.path {
            Path::Whole => String::from_str(self.alloc, key),
            Path::Named(path) => path_within(self.alloc, path, key),
            Path::Item(list, index) => {
                let path = item_path(self.alloc, list, index)?;
                path_within(self.alloc, &path, key)
            }
        }
    }

    /// What was found as this value, or else the fault at it.
    pub fn found<T>(&self, value: Option<T>) -> Result<T, ConfigFault>
        ensures { Gives result (given (own_path (at self.now).path) value) }
    {
        match value {
            Some(value) => Ok(value),
            None => Err(ConfigFault::Field(self.own_path()?)),
        }
    }

    /// What was found at a key, or else the fault there.
    pub fn found_at<T>(&self, key: &str, value: Option<T>) -> Result<T, ConfigFault>
        ensures { Gives result (given (key_path (at self.now).path key.now) value) }
    {
        match value {
            Some(value) => Ok(value),
            None => Err(ConfigFault::Field(self.key_path(key)?)),
        }
    }
}
