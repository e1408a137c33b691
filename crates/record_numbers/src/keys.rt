//! Numbers by keys.

ghost use Rattle.record_numbers.specs.Keys.{AreNumbers, KeepsNumbers, number_by};
ghost use Rattle.std.specs.BTreeMap.{IsEmpty, btree_map_len};
ghost use Rattle.std.specs.Prelude.{◌≡◌, IfOk, OnOk, Some};

use iges_base::NoMemory;
use std::collections::BTreeMap;

/// Keys with their numbers. A tree, so that no file can choose what is dear to find.
pub type KeyNumbers = BTreeMap<Vec<u8>, u32>;

fn known_number(keys: &KeyNumbers, key: &Vec<u8>) -> Option<u32>
    ensures { result ≡ number_by keys.now key.now.items }
{
    keys.get(key).copied()
}

fn next_number(keys: &KeyNumbers) -> Result<u32, NoMemory>
    ensures { IfOk result (λ x. x ≡ btree_map_len keys.now) }
{
    match u32::try_from(keys.len()) {
        Ok(x) => Ok(x),
        Err(_) => Err(NoMemory),
    }
}

/// The number of a key, which is a new one where the key has none yet.
pub fn number_by_key(keys: &mut KeyNumbers, key: Vec<u8>) -> Result<u32, NoMemory>
    ensures number { IfOk result (λ x. number_by keys.new key.items ≡ Some x) }
    ensures kept { OnOk result (AreNumbers keys.old → KeepsNumbers keys.old keys.new) }
    ensures numbers { OnOk result (AreNumbers keys.old → AreNumbers keys.new) }
{
    match known_number(keys, &key) {
        Some(x) => Ok(x),
        None => {
            let x = next_number(keys)?;
            keys.insert(key, x)?;
            Ok(x)
        }
    }
}
