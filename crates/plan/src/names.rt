//! Names of tables, columns and views.
ghost use Rattle.std.specs.Prelude.{◌≡◌, map, ℕ, List};
ghost use Rattle.std.specs.List.{list_all};
ghost use Rattle.plan.specs.Profile.{is_letter, is_name_byte, is_name, is_new, are_apart};

/// Whether the text is a name: 1 to 32 bytes of `a` to `z`, `0` to `9` and `_`, first a letter.
pub fn is_name(name: &str) -> bool
    ensures { result ≡ is_name name.now }
{
    let bytes = name.as_bytes();
    match bytes.split_first() {
        Some((first, rest)) => bytes.len() <= 32 && is_letter(*first) && are_name_bytes(rest),
        None => false,
    }
}

fn is_letter(byte: u8) -> bool
    ensures { result ≡ is_letter byte }
{
    b'a' <= byte && byte <= b'z'
}

fn are_name_bytes(bytes: &[u8]) -> bool
    ensures { result ≡ list_all is_name_byte bytes.now }
{
    bytes.iter().all(is_name_byte)
}

fn is_name_byte(byte: &u8) -> bool
    ensures { result ≡ is_name_byte byte.now }
{
    is_letter(*byte) || (b'0' <= *byte && *byte <= b'9') || *byte == b'_'
}

/// What has a name.
pub(crate) trait Named {
    ghost name_of: { Self → List ℕ };

    fn own_name(&self) -> &str
        ensures { result.now ≡ name_of self.now };
}

/// Whether no two of these have one name.
pub(crate) fn are_apart<T: Named>(all: &[T]) -> bool
    ensures { result ≡ are_apart (map T.name_of all.now) }
{
    for (at, one) in all.iter().enumerate() {
        if !is_new(one.own_name(), &all[at + 1..]) {
            return false;
        }
    }
    true
}

/// Whether none of these has the name.
pub(crate) fn is_new<T: Named>(name: &str, all: &[T]) -> bool
    ensures { result ≡ is_new name.now (map T.name_of all.now) }
{
    for one in all {
        if name == one.own_name() {
            return false;
        }
    }
    true
}
