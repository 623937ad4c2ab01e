// Keys of a tree row: a path as nine words whose order is the order of paths.
ghost use Rattle.std.specs.Prelude.{◌≡◌, ◌-◌, ◌<◌, ◌≤◌, [], ◌∷◌, ◌++◌, length, slice_index, Some, None};
ghost use Rattle.pages.specs.Lists.{pick, zeros};
ghost use Rattle.pages.specs.Words.{words};
ghost use Rattle.trees.specs.Row.{good_path, key_of};

use pages::words::words_in;

// A path as eight words, padded with zeros, and its length.
pub type Key = [u64; 9];

// A path of at most 64 bytes with zeros behind it.
fn padded(path: &[u8]) -> [u8; 64]
    requires { length path.now ≤ 64 }
    ensures { result ≡ path.now ++ zeros (64 - length path.now) }
{
    let mut bytes = [0; 64];
    bytes[0..path.len()].copy_from_slice(path);
    bytes
}

// Eight words of a padded path, and its length.
fn packed(bytes: &[u8; 64], size: u64) -> Key
    ensures { result ≡ words 8 bytes.now ++ size ∷ [] }
{
    let mut key = [size; 9];
    key[..8].copy_from_slice(&words_in::<8>(bytes));
    key
}

// The key of a path of 1 to 64 bytes.
pub fn key(path: &[u8]) -> Option<Key>
    ensures { result ≡ pick (good_path path.now) (Some (key_of path.now)) None }
{
    if path.is_empty() || path.len() > 64 {
        return None;
    }
    Some(packed(&padded(path), path.len() as u64))
}
