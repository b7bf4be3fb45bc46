ghost use Rattle.std.specs.Prelude.{◌≡◌, ◌<◌, None, Some, if◌then◌else◌};
ghost use Rattle.indexmap.specs.IndexMap.{get, spare};
ghost use Rattle.wire_core.specs.declared.flow.FlowKey.{FlowKey as Key};
ghost use Rattle.wire_core.specs.Same.{same_key};

use indexmap::IndexMap;
use wire_core::FlowKey;

/// The place of a key.
pub fn place_of(map: &IndexMap<FlowKey, usize>, key: &FlowKey) -> Option<usize>
    ensures { result ≡ get same_key map.now key.now }
{
    map.get(key).copied()
}

/// The place of a key from now on.
pub fn put(map: &mut IndexMap<FlowKey, usize>, key: FlowKey, place: usize)
    requires { 0 < spare map.old }
    ensures { (k : Key) → get same_key map.new k ≡ (if same_key key k then Some place else get same_key map.old k) }
{
    map.insert(key, place).unwrap();
}

/// A key has no place from now on.
pub fn forget(map: &mut IndexMap<FlowKey, usize>, key: FlowKey)
    ensures { (k : Key) → get same_key map.new k ≡ (if same_key key k then None else get same_key map.old k) }
{
    map.swap_remove(&key);
}
