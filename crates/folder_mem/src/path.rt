// Paths.
ghost use Rattle.std.specs.Prelude.{◌≡◌, ◌↔◌, IsTrue, IfSome, IfNone, Some, None, take, length, ◌<◌};
ghost use Rattle.disk_model.specs.Name.{same_octets};
ghost use Rattle.folder_model.specs.Paths.{before_slash, folder_at};

/// Whether two paths are the same.
pub fn same_path(a: &str, b: &str) -> bool
    ensures { result ≡ same_octets a.now b.now }
{
    a == b
}

/// Whether this is the path of the folder that another path stands in.
pub fn is_in(path: &str, folder: &str) -> bool
    ensures { result ≡ same_octets (folder_at path.now) folder.now }
{
    match last_slash(path.as_bytes()) {
        Some(place) => same(&path.as_bytes()[..place], folder.as_bytes()),
        None => same(b".", folder.as_bytes()),
    }
}

fn same(a: &[u8], b: &[u8]) -> bool
    ensures { result ≡ same_octets a.now b.now }
{
    a == b
}

/// Where a path's last "/" stands.
fn last_slash(path: &[u8]) -> Option<usize>
    ensures some { IfSome result (λ place. before_slash path.now ≡ Some (take place path.now)) }
    ensures none { IfNone result (before_slash path.now ≡ None) }
    ensures within { IfSome result (λ place. place < length path.now) }
{
    let mut last = None;
    for (i, octet) in path.iter().enumerate() {
        if *octet == b'/' {
            last = Some(i);
        }
    }
    last
}
