ghost use Rattle.std.specs.Prelude.{◌≡◌, ◌≤◌, length};
ghost use Rattle.fd_hybrid.specs.Runs.{equal_next};

/// How many equal values stand next.
pub(crate) fn equal_next_of(values: &[u32]) -> usize
    ensures value { result ≡ equal_next values.now }
    ensures within { result ≤ length values.now }
{
    for (k, value) in values.iter().enumerate() {
        if *value != values[0] {
            return k;
        }
    }
    values.len()
}
